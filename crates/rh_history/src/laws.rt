//! The law of undo and redo. The function does nothing: its contract is the law.

ghost use Rattle.rh_history.specs.Laws.{CallsAreReversible};

/// After any calls to a new history: undo and redo are each other's reverse, to any depth; undoing all gives the cells that it began
/// with; and any writes leave no trace where they are rolled back, or closed as a step that is undone.
pub fn calls_are_reversible<T>()
    ensures { CallsAreReversible T }
{}
