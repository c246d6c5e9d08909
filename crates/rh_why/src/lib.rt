//! Why an application that is started at a node waits there, and for whom a node that boots waits.
//!
//! [`why_app_waits`] and [`why_node_waits`] read a state and change nothing; [`reason_text`] and [`awaited_text`] say in one line
//! what they found. [`reasons_of`] and [`push_reason`] say the same where no list and no text is to be made.
#![tactic(auto)]

mod apps;
mod laws;
mod nodes;
mod reason;
mod text;

pub use apps::{reasons_of, why_app_waits};
pub use laws::{ready_if_none_awaited, reasons_are_so, waiting_has_reason, waiting_node_awaits};
pub use nodes::why_node_waits;
pub use reason::{Awaited, Reason, Reasons};
pub use text::{awaited_text, push_reason, reason_text};
