//! The law of undo and redo. The function does nothing: its contract is the law.

ghost use Rattle.rh_otp_sim.specs.Laws.{LiveCallsAreReversible};

/// After any calls to a new simulation of live nodes: undo and redo are each other's reverse; undoing all gives the cells in which no
/// node has begun; and any step that is written is undone, with all that is pending.
pub fn live_calls_are_reversible()
    ensures { LiveCallsAreReversible }
{}
