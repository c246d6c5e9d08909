//! Laws of where both sets of rules agree. Each function does nothing: its contract is the law.

ghost use Rattle.rh_agreement.specs.Laws.{RehearsalsBeginTogether, WhatNoNodeTakesIsRefusedByBoth, NodesEventsAreRefusedAlike, ReversalsAreAnsweredAlike, QuietTicksAreAnsweredAlike};
ghost use Rattle.rh_agreement.specs.Resting.{TicksAtRestAreAnsweredAlike, CrashesAreAnsweredAlike, CrashesComeToAnEnd, PeacefulCallsAreAnsweredAlike, RehearsalsBeginAtRest};

/// Where no node has begun both tell the same: two simulations of one cluster go together.
pub fn rehearsals_begin_together()
    ensures { RehearsalsBeginTogether }
{}

/// What can't be given to a live node at all, since there is no such node or application, or the node is down, up or waiting, the manual's
/// rules refuse as well, in the same words, and nothing changes. `start_all` and `stop_all` aren't part of this law.
pub fn what_no_node_takes_is_refused_by_both()
    ensures { WhatNoNodeTakesIsRefusedByBoth }
{}

/// A boot, a crash or a tick is refused by both, for the same reason, or by neither.
pub fn nodes_events_are_refused_alike()
    ensures { NodesEventsAreRefusedAlike }
{}

/// `undo`, `redo`, `undo_all` and `redo_all` are answered alike, and lead to what is told alike.
pub fn reversals_are_answered_alike()
    ensures { ReversalsAreAnsweredAlike }
{}

/// Where nothing is to come by itself, a tick is answered by both alike, and leads to what is told alike.
pub fn quiet_ticks_are_answered_alike()
    ensures { QuietTicksAreAnsweredAlike }
{}

/// Where both are at rest, a tick that reaches no timer is answered by both alike, and leads to what is told alike; and both are at rest again.
pub fn ticks_at_rest_are_answered_alike()
    ensures { TicksAtRestAreAnsweredAlike }
{}

/// Where both are at rest, and nothing that ran at the node is started elsewhere at once, a crash is answered by both alike, by the end of
/// that node alone where it isn't refused, and leads to what is told alike; and both are at rest again.
pub fn crashes_are_answered_alike()
    ensures { CrashesAreAnsweredAlike }
{}

/// A crash of live nodes at rest comes to an end in less than a million moves, where not too much can come of it: each move uses up what is
/// on its way.
pub fn crashes_come_to_an_end()
    ensures { CrashesComeToAnEnd }
{}

/// However many such ticks and crashes, and steps back and forth, come one after the other, from where both are at rest, are answered alike.
pub fn peaceful_calls_are_answered_alike()
    ensures { PeacefulCallsAreAnsweredAlike }
{}

/// Where no node has begun both are at rest, if no node's own `distributed` has a timeout of 0.
pub fn rehearsals_begin_at_rest()
    ensures { RehearsalsBeginAtRest }
{}
