//! The law. The function does nothing: its contract is the law.

ghost use Rattle.rh_otp_sweep_laws.specs.Runs.{PlansAreRuns};

/// What comes of a plan is what comes of its events where they are given to the base itself, with all its past, one after the other: as
/// many of them are made, they are answered the same, and the plan ends for the same reason. The state of which its outcome tells is that
/// behind these events as calls of a run. It is so where the base's steps and the plan's events are no more than a sweep allows.
pub fn plans_are_runs()
    ensures { PlansAreRuns }
{}
