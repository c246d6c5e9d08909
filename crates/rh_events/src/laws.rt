//! A law of the definitions that the contracts of this crate cite. The function does nothing: its contract is the law.

ghost use Rattle.rh_events.specs.Laws.{EndLeavesOthers};

/// The end of a node changes no list of another one.
pub fn end_leaves_others()
    ensures { EndLeavesOthers }
{}
