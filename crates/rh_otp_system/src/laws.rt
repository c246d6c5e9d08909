//! The law of what moves. The function does nothing: its contract is the law.

ghost use Rattle.rh_otp_system.specs.Laws.{SettlesByMoves};

/// In whatever order, what [`System::settle`](crate::System::settle) does are moves that the rules allow, one after the other; and
/// where it says that nothing moves any more, the rules allow no move.
pub fn settles_by_moves()
    ensures { SettlesByMoves }
{}
