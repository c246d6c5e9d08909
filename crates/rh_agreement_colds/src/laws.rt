//! The law. The function does nothing: its contract is the law.

ghost use Rattle.rh_agreement_colds.specs.Colds.{LastBootsAreAnsweredInSomeOrder};

/// Where both are at rest, and have room for a step, the last boot of a cold start is answered by both by `ok` and the same lines, in some
/// order: each node comes up, what it boots starts there or waits there, and nothing else happens. It leads to what is told alike, and both
/// are at rest again.
pub fn last_boots_are_answered_in_some_order()
    ensures { LastBootsAreAnsweredInSomeOrder }
{}
