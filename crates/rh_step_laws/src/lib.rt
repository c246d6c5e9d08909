//! Laws of single steps, beside the rules: what stays through a step, and what each command leads to. No program stands on them.
//!
//! Each is a function without a body, whose contract is the law; its statement stands in `specs/Laws`. `rh_laws` builds on them.
#![tactic(auto)]

mod laws;

pub use laws::{
    ends_without_mandatory, lost_stays, lost_stays_at_other_timers, lost_until_due,
    permission_pulls_back, quiet_until_started, start_all_keeps_types, start_all_starts_everywhere,
    stop_all_leaves_nothing, stop_leaves_quiet, up_until_ended,
};
