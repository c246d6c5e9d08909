//! Laws of the definitions that the contracts of this crate cite. Each function does nothing: its contract is the law.

ghost use Rattle.rh_why.specs.Laws.{WaitingHasReason, ReasonsAreSo, ReadyIfNoneAwaited, WaitingNodeAwaits};

/// Before and behind each event an application that waits has a reason.
pub fn waiting_has_reason()
    ensures { WaitingHasReason }
{}

/// Each reason that is told is so, and only of an application that waits.
pub fn reasons_are_so()
    ensures { ReasonsAreSo }
{}

/// A node that waits is ready exactly where it awaits nobody.
pub fn ready_if_none_awaited()
    ensures { ReadyIfNoneAwaited }
{}

/// Before and behind each event the nodes that wait are those that await somebody.
pub fn waiting_node_awaits()
    ensures { WaitingNodeAwaits }
{}
