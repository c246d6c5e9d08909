//! Laws of the definitions of a step. Each function does nothing: its contract is the law.

ghost use Rattle.rh_step_laws.specs.Laws.{UpUntilEnded, StopLeavesQuiet, EndsWithoutMandatory, LostStays, LostStaysAtOtherTimers, LostUntilDue, QuietUntilStarted, PermissionPullsBack, StopAllLeavesNothing, StartAllStartsEverywhere, StartAllKeepsTypes};

/// A node that is up stays up unless it ends: it never waits again before that.
pub fn up_until_ended()
    ensures { UpUntilEnded }
{}

/// A distributed application that is stopped where it runs is to run nowhere then, and runs nowhere.
pub fn stop_leaves_quiet()
    ensures { StopLeavesQuiet }
{}

/// A node whose wait ends while one of its mandatory nodes isn't alive ends, and doesn't come up.
pub fn ends_without_mandatory()
    ensures { EndsWithoutMandatory }
{}

/// An application that was lost with a node stays lost through any step but a tick, unless it is stopped, that node comes
/// up, or is up and the application is started there or at all its nodes.
pub fn lost_stays()
    ensures { LostStays }
{}

/// And it stays lost at each timer but its own, unless that node comes up.
pub fn lost_stays_at_other_timers()
    ensures { LostStaysAtOtherTimers }
{}

/// And it stays lost through a tick that ends before its timer is due, unless that node comes up.
pub fn lost_until_due()
    ensures { LostUntilDue }
{}

/// An application that is to run nowhere stays so until it is started, or a node comes up that boots it.
pub fn quiet_until_started()
    ensures { QuietUntilStarted }
{}

/// In the second profile an application that is permitted again at a node where it is started is taken back from nodes of later
/// groups, if that node can run it.
pub fn permission_pulls_back()
    ensures { PermissionPullsBack }
{}

/// An application that is stopped at all its nodes is started nowhere then: it is to run nowhere, and no timer of it is set.
pub fn stop_all_leaves_nothing()
    ensures { StopAllLeavesNothing }
{}

/// An application that is started at all its nodes is started then at each node of its list that is up.
pub fn start_all_starts_everywhere()
    ensures { StartAllStartsEverywhere }
{}

/// And where it was started before, it keeps its restart type.
pub fn start_all_keeps_types()
    ensures { StartAllKeepsTypes }
{}
