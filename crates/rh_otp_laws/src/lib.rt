//! Laws of the rules of OTP 25, beside them: what can be relied on in whatever live nodes do. No program stands on them.
//!
//! Each is a function without a body, whose contract is the law ([`messages_keep_their_order`]); its statement stands in `specs/`.
//! They speak of `rh_otp_system`'s moves and of what a command begins with, in whatever order the moves are made, and of
//! `rh_otp_dist`'s choice. That `settle` makes such moves is `rh_otp_system`'s own law, and that steps are undone `rh_otp_sim`'s.
#![tactic(auto)]

mod laws;

pub use laws::{
    alive_are_listed, commands_are_reached, dist_ac_starts_where_it_may, ended_stays_ended,
    ends_are_told, ends_change_monitors_alone, lives_are_counted, messages_keep_their_order,
    moves_stay_at_their_node, one_name_holds_the_lock, settled_stays,
    settling_again_changes_nothing, ticks_end_in_time, time_never_goes_back,
    timers_are_never_cancelled, timers_fire_in_time, timers_that_are_due_fire,
};
