//! A law of the hint of a command that is refused. The function does nothing: its contract is the law.

ghost use Rattle.rh_script_lint.specs.Laws.{TellsTheAnswer};

/// The reason that is told of a command that is refused is what `run` answers behind `refused`, and `run` answers `ok` to each of which
/// none is told.
pub fn tells_the_answer()
    ensures { TellsTheAnswer }
{}
