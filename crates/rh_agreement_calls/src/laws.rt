//! The laws. Each function does nothing: its contract is the law.

ghost use Rattle.rh_agreement_calls.specs.Calm.{CalmCallsAreAnsweredAlike};
ghost use Rattle.rh_agreement_calls.specs.Starts.{StartsAreAnsweredAlike};
ghost use Rattle.rh_agreement_calls.specs.Stops.{StopsAreAnsweredAlike, ForbidsAreAnsweredAlike, ExitsAreAnsweredAlike};

/// Where both are at rest, and have room for a step, a stop of an application that isn't distributed and runs at the node is answered by
/// both alike, by `ok` and its stop alone, and leads to what is told alike; and both are at rest again. The live node isn't on its way to
/// its end.
pub fn stops_are_answered_alike()
    ensures { StopsAreAnsweredAlike }
{}

/// So it is of a call that forbids such an application there, where it was permitted.
pub fn forbids_are_answered_alike()
    ensures { ForbidsAreAnsweredAlike }
{}

/// So it is where the top process of such an application ends, normally or not, if that keeps the node, and no live node is on its way to
/// its end.
pub fn exits_are_answered_alike()
    ensures { ExitsAreAnsweredAlike }
{}

/// Where both are at rest, a start of an application that isn't distributed, and can start at the node on both sides, is answered by both
/// alike, by `ok` and its start alone, and leads to what is told alike; and both are at rest again. Nothing that waits there needs it.
pub fn starts_are_answered_alike()
    ensures { StartsAreAnsweredAlike }
{}

/// However many of these calls, of crashes and ticks of nodes at rest, and of steps back and forth come one after the other, from where
/// both are at rest, now and behind each number of steps, are answered alike; each meets what its law asks where it has its turn.
pub fn calm_calls_are_answered_alike()
    ensures { CalmCallsAreAnsweredAlike }
{}
