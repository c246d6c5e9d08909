//! Laws of the definitions of a step, of a report and of what is found in a step. Each function does nothing: its contract is the law.

ghost use Rattle.rh_laws.specs.Laws.{OnlyTheClockMoves, FailsOverInTime, PlacedAtBestNodes, OneAnswer, StartAllIsStarts, StopAllIsStops};
ghost use Rattle.rh_laws.specs.Reports.{DueWithinLimits, ReportTellsState};
ghost use Rattle.rh_laws.specs.Readiness.{ComesUpIfReady};

/// While no timer is due, a tick moves the clock alone, and tells nothing.
pub fn only_the_clock_moves()
    ensures { OnlyTheClockMoves }
{}

/// An application that was lost runs again behind a tick that reaches its timer, if a node of its list can run it then.
pub fn fails_over_in_time()
    ensures { FailsOverInTime }
{}

/// In each settling that the rules allow, a placement is at a best node of its moment.
pub fn placed_at_best_nodes()
    ensures { PlacedAtBestNodes }
{}

/// The rules allow one answer to a command exactly where both picks tell the same.
pub fn one_answer()
    ensures { OneAnswer }
{}

/// A start at all nodes comes to the same as a start at each node at which it is still to be started, and one settling behind them.
pub fn start_all_is_starts()
    ensures { StartAllIsStarts }
{}

/// A stop at all nodes comes to the same as a stop at each node at which the application is started, one command after the other.
pub fn stop_all_is_stops()
    ensures { StopAllIsStops }
{}

/// No step sets a timer that is due past the limits of time and of timeouts.
pub fn due_within_limits()
    ensures { DueWithinLimits }
{}

/// Two valid states of one cluster with one report are alike in all that a report shows.
pub fn report_tells_state()
    ensures { ReportTellsState }
{}

/// A node comes up at a boot, as findings of a step have it, exactly where the rules have it ready behind the boot's own change.
pub fn comes_up_if_ready()
    ensures { ComesUpIfReady }
{}
