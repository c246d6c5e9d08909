//! Laws of the definitions that the contracts of this crate cite. The functions do nothing: their contracts are the laws.

ghost use Rattle.rh_explore.specs.Laws.{AnswersAreOne, IsMetInTime, ReachesGoOn};

/// The base is reached by no event, and an event that may come in a state that is reached leads to one that is.
pub fn reaches_go_on()
    ensures { ReachesGoOn }
{}

/// What is to be met within some milliseconds is met exactly where it is at once, or behind some tick of at most as many: nothing comes of
/// time that passes between two timers. Where the limit of time is nearer the law says nothing.
pub fn within_is_met_in_time()
    ensures { IsMetInTime }
{}

/// What a search answers is said by its contract alone: two answers to one search tell the same, however they were found.
pub fn answers_are_one()
    ensures { AnswersAreOne }
{}
