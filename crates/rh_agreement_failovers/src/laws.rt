//! The laws. Each function does nothing: its contract is the law.

ghost use Rattle.rh_agreement_failovers.specs.Failovers.{FailoversAreAnsweredAlike};

/// Where both are at rest, and have room for a step, a tick in which the time of one lost application is over is answered by both alike, by
/// `ok` and the start of that application alone, if it isn't refused, and leads to what is told alike; and both are at rest again. It
/// starts at the node that is the best for it by the manual's rules, and the first of the list that may run it on live nodes, whether its
/// timer fires there alone, or at standbys, too. No other timer is due by the end of the tick.
pub fn failovers_are_answered_alike()
    ensures { FailoversAreAnsweredAlike }
{}
