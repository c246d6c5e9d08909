//! Laws of what `story` and `verify` answer, beside the programs: nothing stands on them.
//!
//! Each is a function without a body, whose contract is the law; its statement stands in `specs/`. A story is verified without a
//! difference, and a story of a story is itself.
#![tactic(auto)]

mod laws;

pub use laws::{
    lengths_add_up_in_simulations, notices_of_a_tick_are_runs, story_answers_are_runs,
    story_of_a_story_is_itself, whole_stories_hold,
};
