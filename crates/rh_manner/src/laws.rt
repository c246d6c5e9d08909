//! Laws of the definitions that the contracts of this crate cite. Each function does nothing: its contract is the law.

ghost use Rattle.rh_manner.specs.Laws.{PlainMannerIsRun};

/// A run that prints no commands and isn't strict writes what `run` writes, and ends as that does.
pub fn plain_manner_is_run()
    ensures { PlainMannerIsRun }
{}
