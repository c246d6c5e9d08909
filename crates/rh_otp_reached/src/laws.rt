//! The law. The function does nothing: its contract is the law.

ghost use Rattle.rh_otp_reached.specs.Holding.{LiveStatesAreReached};

/// After any calls to a new simulation of live nodes: the state that it holds now, and each that undo and redo can lead to, is one that
/// live nodes reach. So in each of them no timer is overdue, at each node at most one name has `global`'s lock, and the list of those
/// that are alive has exactly these, each once.
pub fn live_states_are_reached()
    ensures { LiveStatesAreReached }
{}
