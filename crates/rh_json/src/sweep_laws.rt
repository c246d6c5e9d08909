//! What ties the lines of a sweep to what a sweep prints. The function does nothing: its contract is the law.

ghost use Rattle.rh_json.specs.SweepLaws.{BaseIsAnswered};

/// A law: where no line of a sweep is bad, the commands that have lines are those that [`rh_run::run_sweep_by`] answers, in their order.
pub fn base_is_answered()
    ensures { BaseIsAnswered }
{}
