//! Which processes and names are the same.

ghost use Rattle.std.specs.Prelude.{◌≡◌};
ghost use Rattle.rh_otp_net.specs.Alike.{is_role, is_process, is_requester};

use rh_otp_model::{Process, Requester, Role};

// Is it the same role?
fn is_role(one: Role, two: Role) -> bool
    ensures { result ≡ is_role one two }
{
    one == two
}

/// Is it the same process?
pub fn is_process(one: Process, two: Process) -> bool
    ensures { result ≡ is_process one two }
{
    is_role(one.role, two.role) && one.node.0 == two.node.0 && one.life == two.life
}

/// Is a lock asked for by the same name?
pub fn is_requester(one: Requester, two: Requester) -> bool
    ensures { result ≡ is_requester one two }
{
    match (one, two) {
        (Requester::Sync, Requester::Sync) => true,
        (Requester::Alone(this), Requester::Alone(that)) => is_process(this, that),
        _ => false,
    }
}
