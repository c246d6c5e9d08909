//! Laws of the definitions that the contracts of this crate cite. Each function does nothing: its contract is the law.

ghost use Rattle.rh_settle.specs.Laws.{SettlesByPick, FewMoves, SettlingKeeps, NextAreFirst, StillIfNoneEnabled, RunsAtOneNode, TakenOverByEarlierGroups, PlacedInFirstGroup, NeverLeftWanted, WaitsForAReason, QuietAndLostStay};

/// The settling that the pick takes is one that the rules allow.
pub fn settles_by_pick()
    ensures { SettlesByPick }
{}

/// Every settling has at most twice as many moves as there are pairs of a node and an application.
pub fn few_moves()
    ensures { FewMoves }
{}

/// Settling keeps what holds of every state that a cluster reaches.
pub fn settling_keeps()
    ensures { SettlingKeeps }
{}

/// The next moves are the enabled ones before which no other enabled one goes.
pub fn next_are_first()
    ensures { NextAreFirst }
{}

/// There is no next move exactly where none is enabled.
pub fn still_if_none_enabled()
    ensures { StillIfNoneEnabled }
{}

/// A distributed application runs at one node only.
pub fn runs_at_one_node()
    ensures { RunsAtOneNode }
{}

/// A node takes an application over only from one of a later group, only where its pair is fresh, and only if it
/// can run there.
pub fn taken_over_by_earlier_groups()
    ensures { TakenOverByEarlierGroups }
{}

/// An application is placed in the first group that has a node at which it can run, there at a node at which fewest
/// applications run.
pub fn placed_in_first_group()
    ensures { PlacedInFirstGroup }
{}

/// Where nothing moves, an application that is to run can run at no node of its node list.
pub fn never_left_wanted()
    ensures { NeverLeftWanted }
{}

/// Where nothing moves, an application that isn't distributed waits only because it may not run, or because something that
/// it needs doesn't run.
pub fn waits_for_a_reason()
    ensures { WaitsForAReason }
{}

/// Settling starts no application that is to run nowhere, and none that was lost with a node.
pub fn quiet_and_lost_stay()
    ensures { QuietAndLostStay }
{}
