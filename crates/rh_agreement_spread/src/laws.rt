//! The laws. Each function does nothing: its contract is the law.

ghost use Rattle.rh_agreement_spread.specs.Calls.{CallsOfAnyAreAnsweredAlike};
ghost use Rattle.rh_agreement_spread.specs.Starts.{StartsWhereItIsPlacedAreAnsweredAlike};
ghost use Rattle.rh_agreement_spread.specs.Waits.{StartsWhereItWaitsAreAnsweredAlike};
ghost use Rattle.rh_agreement_spread.specs.Stops.{StopsWhereItRunsAreAnsweredAlike, ExitsWhereItRunsAreAnsweredAlike, StopsWhereItWaitsAreAnsweredAlike};

/// Where both are at rest, and have room for a step, a stop of an application that runs at the node, distributed or not, is answered by
/// both alike, by `ok` and its stop alone, and leads to what is told alike; and both are at rest again. The live node isn't on its way to
/// its end, and its dist_ac can tell the others of the stop.
pub fn stops_where_it_runs_are_answered_alike()
    ensures { StopsWhereItRunsAreAnsweredAlike }
{}

/// So it is where the top process of such an application ends, normally or not, if that keeps the node, and no live node is on its way to
/// its end.
pub fn exits_where_it_runs_are_answered_alike()
    ensures { ExitsWhereItRunsAreAnsweredAlike }
{}

/// And a stop where such an application waits at the node, wherever else it runs, is answered by `ok` alone.
pub fn stops_where_it_waits_are_answered_alike()
    ensures { StopsWhereItWaitsAreAnsweredAlike }
{}

/// Where both are at rest, and have room for a step, a start of a distributed application that is to run nowhere, at a node that is the
/// best for it on both sides, is answered by both alike, by `ok` and its start alone, and leads to what is told alike; and both are at
/// rest again. Nothing that waits there needs it, and no other live node runs it.
pub fn starts_where_it_is_placed_are_answered_alike()
    ensures { StartsWhereItIsPlacedAreAnsweredAlike }
{}

/// Where both are at rest, and have room for a step, a start of a distributed application that runs elsewhere, at a node of no earlier
/// group that may not run it, or whose dist_ac knows it to run at the first node that may, is answered by both alike, by `ok` and that it
/// waits there, and leads to what is told alike; and both are at rest again.
pub fn starts_where_it_waits_are_answered_alike()
    ensures { StartsWhereItWaitsAreAnsweredAlike }
{}

/// However many of these calls, and of those of `rh_agreement_calls`, come one after the other, from where both are at rest, now and behind
/// each number of steps, are answered alike; each meets what its law asks where it has its turn.
pub fn calls_of_any_are_answered_alike()
    ensures { CallsOfAnyAreAnsweredAlike }
{}
