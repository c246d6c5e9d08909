//! What a call is answered by.

use rh_model::{App, Dep, Node};

/// Why a call has failed.
#[derive(Clone, Copy, Debug, PartialEq, Eq)]
pub enum Fault {
    /// `{already_started, App}`
    AlreadyStarted(App),
    /// `{not_started, App}` of what an application needs.
    NeedsStarted(Dep),
    /// `{not_running, App}` of what an application needs.
    NeedsRunning(Dep),
    /// `{not_started, App}` of the application that is to be stopped.
    NotStarted(App),
    /// `not_running`: the application has no top process that could end.
    NotRunning,
    /// `stopped`: the application was stopped while a call waited for it.
    Stopped,
    /// `{already_running_locally, App}`
    RunsLocally(App),
    /// `{not_running_distributed, App}`
    RunsNowhere(App),
    /// `{Node, {not_running, App}}`: another node couldn't start the application, for want of this.
    FailedAt(Node, Dep),
}

/// What a call is answered by.
#[derive(Clone, Copy, Debug, PartialEq, Eq)]
pub enum Outcome {
    /// `ok`
    Done,
    /// `distributed_application, started`: dist_ac is to be asked, too.
    IsStarted,
    /// `distributed_application, only_loaded`: the same, of an application that isn't started.
    IsOnlyLoaded,
    /// An error.
    Failed(Fault),
}
