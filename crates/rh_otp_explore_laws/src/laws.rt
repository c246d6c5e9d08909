//! The laws. The functions do nothing: each contract is a law.

ghost use Rattle.rh_otp_explore_laws.specs.Searches.{AnswersAreOne, FailuresAreRuns, RunsAreSearched};

/// What a search tells of an ask that fails is so of a run: the events that it tells may come behind the base, with all its past, one after
/// the other; the report that it tells is the one behind them; and what is asked doesn't hold there. It is so where the base's steps and
/// the longest lists together are no more than a rehearsal takes.
pub fn failures_are_runs()
    ensures { FailuresAreRuns }
{}

/// What a search tells of an ask that holds is so of all runs: wherever events may come behind the base, with all its past, and are no more
/// than the search says that it covers, what is asked holds behind them. It is so where the base's steps and the longest lists together are
/// no more than a rehearsal takes.
pub fn runs_are_searched()
    ensures { RunsAreSearched }
{}

/// Two answers to one search tell the same: as many lists were tried, and of each ask the same first list behind which it doesn't hold, with
/// the same report, or that it has none. Not covered is the length up to which all lists are said to have been tried: where a search ends
/// with the last list of a length, an answer may tell that length or the one before.
pub fn live_answers_are_one()
    ensures { AnswersAreOne }
{}
