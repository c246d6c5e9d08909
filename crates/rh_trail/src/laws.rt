//! The law of undo and redo. The function does nothing: its contract is the law.

ghost use Rattle.rh_trail.specs.Laws.{CallsAreReversible};

/// After any list of calls to a simulation of a cluster whose lists fit together: each accepted step is allowed; undoing it restores the whole earlier state, and
/// redoing it the later; a refused call changes nothing; undoing all gives the first state, redoing all the last.
pub fn calls_are_reversible()
    ensures { CallsAreReversible }
{}
