//! Laws of whole steps, of reports and of findings, beside the rules: nothing stands on them.
//!
//! Each is a function without a body, whose contract is the law ([`fails_over_in_time`]); its statement stands in `specs/Laws`. They
//! speak of `rh_step` and of what stands below it. Those of single commands are in `rh_step_laws`, those of whole programs in
//! `rh_text_laws` and `rh_story_laws`.
#![tactic(auto)]

mod laws;

pub use laws::{
    comes_up_if_ready, due_within_limits, fails_over_in_time, one_answer, only_the_clock_moves,
    placed_at_best_nodes, report_tells_state, start_all_is_starts, stop_all_is_stops,
};
