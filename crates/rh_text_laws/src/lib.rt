//! Laws of what whole programs answer, beside the programs: nothing stands on them.
//!
//! Each is a function without a body, whose contract is the law; its statement stands in `specs/`. They speak of the bytes that `rh_app`
//! and `rh_run` read and write: that a plan is a run of its commands, that a sweep is the runs of its plans, that a profile changes no
//! answer.
#![tactic(auto)]

mod laws;

pub use laws::{
    copied_lines_ask, none_permits_none_gives_back, plan_is_run, plan_refused_by_rules,
    plan_text_is_run, replies_same_under_profiles, runs_same_under_profiles, same_under_profiles,
    second_profile_reads_same, second_profile_runs_same, second_profile_sweeps_same, sweep_is_runs,
};
