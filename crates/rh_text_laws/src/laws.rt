//! Laws of the definitions of what is answered. Each function does nothing: its contract is the law.

ghost use Rattle.rh_text_laws.specs.PlanLines.{CopiedLinesAsk};
ghost use Rattle.rh_text_laws.specs.PlanTexts.{PlanTextIsRun, SweepIsRuns};
ghost use Rattle.rh_text_laws.specs.Plans.{PlanIsRun, PlanRefusedByRules};
ghost use Rattle.rh_text_laws.specs.ProfileFiles.{SecondProfileReadsSame};
ghost use Rattle.rh_text_laws.specs.ProfileTexts.{RunsSameUnderProfiles, SecondProfileRunsSame, SecondProfileSweepsSame};
ghost use Rattle.rh_text_laws.specs.Profiles.{NonePermitsNoneGivesBack, RepliesSameUnderProfiles, SameUnderProfiles};

/// The outcome of a plan is read off what one caller is answered who makes the calls of its base, and then its events up to the first
/// refused one.
pub fn plan_is_run()
    ensures { PlanIsRun }
{}

/// Where the trail has room for a plan, the event of it that is refused is so by the rules, in the state behind those before it.
pub fn plan_refused_by_rules()
    ensures { PlanRefusedByRules }
{}

/// What `sweep` writes of a plan is read off the answers that `run` writes to these calls, and off the report behind them.
pub fn plan_text_is_run()
    ensures { PlanTextIsRun }
{}

/// So it is in the whole text of a sweep, for each input of `run` that asks for the base, for the events of the plan up to the first
/// refused one, and for the report.
pub fn sweep_is_runs()
    ensures { SweepIsRuns }
{}

/// An input of `run` asks for a plan whose script has the lines of a sweep's base, lines that ask for the events of the plan up to the
/// first refused one, and `show`.
pub fn copied_lines_ask()
    ensures { CopiedLinesAsk }
{}

/// In each profile an event is refused alike, and comes to the same unless it gives back the permission of an application at a node
/// at which it is started.
pub fn same_under_profiles()
    ensures { SameUnderProfiles }
{}

/// In each profile one caller who gives no such permission back has the same replies.
pub fn replies_same_under_profiles()
    ensures { RepliesSameUnderProfiles }
{}

/// Calls of which none permits an application to run give no permission back.
pub fn none_permits_none_gives_back()
    ensures { NonePermitsNoneGivesBack }
{}

/// Behind the line `{profile, 2}.` a file that names no profile describes the same cluster, in the second profile.
pub fn second_profile_reads_same()
    ensures { SecondProfileReadsSame }
{}

/// `run` writes the same for two inputs that have the same script, and the same cluster but for its profile, if no command gives
/// such a permission back; and it ends alike.
pub fn runs_same_under_profiles()
    ensures { RunsSameUnderProfiles }
{}

/// So it does for an input whose file names no profile, and for that input behind the line `{profile, 2}.`.
pub fn second_profile_runs_same()
    ensures { SecondProfileRunsSame }
{}

/// So does `sweep`, if neither a command of the base nor a plan gives such a permission back.
pub fn second_profile_sweeps_same()
    ensures { SecondProfileSweepsSame }
{}
