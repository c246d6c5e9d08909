//! The rules that a command line names.

use rh_otp_net::Order;
use rh_rules::Pick;

/// The rules by which a script is answered, with what they leave open.
#[derive(Clone, Copy)]
pub enum Rules {
    /// The manual's, with this choice at a tie.
    Manual(Pick),
    /// Those of live nodes of OTP 25, with messages taken in this order.
    Live(Order),
}
