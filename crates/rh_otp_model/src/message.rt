//! What processes send one another.

ghost use Rattle.std.specs.Prelude.{◌≡◌, IfOk};

use crate::fault::{Fault, Outcome};
use crate::flags::Flags;
use crate::process::Process;
use rh_base::{Duplicate, OutOfMemory};
use rh_model::{App, Dep, Group, Node, Restart};
use std::alloc::Global;

/// What dist_ac answers to the controller's request to start an application, `{ac_start_application_reply, App, What}`.
#[derive(Clone, Copy, Debug, PartialEq, Eq)]
pub enum Reply {
    /// Start it.
    StartIt,
    /// No node can run it: it counts as started.
    NotStarted,
    /// It runs at this node.
    Started(Node),
    /// Start it in place of the one at this node.
    Takeover(Node),
    /// It can't be started.
    Error(Fault),
}

/// What dist_ac wants of the controller, `{ac_change_application_req, App, What}`.
#[derive(Clone, Copy, Debug, PartialEq, Eq)]
pub enum Change {
    /// Start it.
    StartIt,
    /// Stop it.
    StopIt,
    /// It runs nowhere.
    NotRunning,
    /// It runs at this node.
    Started(Node),
    /// Take it over from this node, with this restart type.
    Takeover(Node, Option<Restart>),
    /// Start it in place of the one that was lost with this node.
    Failover(Node),
}

/// A message.
#[derive(Drop)]
pub enum Message {
    /// `{start_application, App, Type}` to the controller.
    Start(App, Restart, Process),
    /// `{stop_application, App}` to the controller.
    Stop(App, Process),
    /// `{permit_application, App, Bool}` to the controller.
    Permit(App, bool, Process),
    /// The application's top process is told to end, normally or not, and its application master ends with it.
    TopEnds(App, bool, Process),
    /// `{application_started, App, Result}` of the process that starts it; `None` is a success, else what it lacks.
    ApplicationStarted(App, Option<Dep>),
    /// `{ac_start_application_reply, App, What}` to the controller.
    Reply(App, Reply),
    /// `{ac_change_application_req, App, What}` to the controller.
    Change(App, Change),
    /// `{ac_start_application_req, App}` to dist_ac.
    StartRequest(App),
    /// `{ac_application_run, App, Result}` to dist_ac.
    Run(App, Option<Dep>),
    /// `{ac_application_not_run, App}` to dist_ac.
    NotRun(App),
    /// `{ac_application_stopped, App}` to dist_ac.
    Stopped(App),
    /// The node's wait for other nodes is over: `{go, KernelConfig}` to dist_ac.
    Go,
    /// `{dist_ac_new_node, Version, Node, Applications, Started}`: a node introduces itself, with the applications that it may run, and
    /// those that run there.
    NewNode(Node, Flags, Flags),
    /// `{dist_ac_app_started, Node, App, Result}`; `None` is a success, else what the start lacked.
    AppStarted(Node, App, Option<Dep>),
    /// `{dist_ac_app_stopped, App}`
    AppStopped(App),
    /// `{dist_ac_weight, App, Weight, Node}`
    Weight(App, u32, Node),
    /// `{nodedown, Node}`
    NodeDown(Node),
    /// `{internal_restart_appl, App}`, with the number of the loss for which the timer was set.
    RestartAppl(App, u32),
    /// `{dist_ac_new_permission, Node, App, Bool, IsHisApp}`
    NewPermission(Node, App, bool, bool),
    /// `{takeover_application, App, Type}`, a call of dist_ac.
    TakeOver(App, Restart, Process),
    /// `{permit_application, App, Bool, LockId, started}`, a call of dist_ac; the last flag but one says that it is `only_loaded`.
    PermitDistributed(App, bool, bool, Process),
    /// `{get_nodes, App}`, a call of dist_ac.
    GetNodes(App, Process),
    /// The answer to it: nodes of the application's list.
    Nodes(Group),
    /// The answer to any other call.
    Answer(Outcome),
    /// `{nodeup, Node}` to kernel_config.
    NodeUp(Node),
    /// The end of `sync_nodes_timeout`, to kernel_config.
    Timeout,
    /// The controller of a node has ended, and the node ends with it.
    Ends,
}

impl Duplicate for Message {
    // Only what a node tells of itself, and lists of nodes, lie in memory.
    fn copy(&self, alloc: Global) -> Result<Message, OutOfMemory>
        ensures { IfOk result (λ copy. copy ≡ self.now) }
    {
        Ok(match self {
            Message::Start(app, restart, caller) => Message::Start(*app, *restart, *caller),
            Message::Stop(app, caller) => Message::Stop(*app, *caller),
            Message::Permit(app, allow, caller) => Message::Permit(*app, *allow, *caller),
            Message::TopEnds(app, is_normal, caller) => Message::TopEnds(*app, *is_normal, *caller),
            Message::ApplicationStarted(app, error) => Message::ApplicationStarted(*app, *error),
            Message::Reply(app, what) => Message::Reply(*app, *what),
            Message::Change(app, what) => Message::Change(*app, *what),
            Message::StartRequest(app) => Message::StartRequest(*app),
            Message::Run(app, error) => Message::Run(*app, *error),
            Message::NotRun(app) => Message::NotRun(*app),
            Message::Stopped(app) => Message::Stopped(*app),
            Message::Go => Message::Go,
            Message::NewNode(node, allowed, started) => {
                Message::NewNode(*node, allowed.share()?, started.share()?)
            }
            Message::AppStarted(node, app, error) => Message::AppStarted(*node, *app, *error),
            Message::AppStopped(app) => Message::AppStopped(*app),
            Message::Weight(app, weight, node) => Message::Weight(*app, *weight, *node),
            Message::NodeDown(node) => Message::NodeDown(*node),
            Message::RestartAppl(app, loss) => Message::RestartAppl(*app, *loss),
            Message::NewPermission(node, app, allow, is_his) => {
                Message::NewPermission(*node, *app, *allow, *is_his)
            }
            Message::TakeOver(app, restart, caller) => Message::TakeOver(*app, *restart, *caller),
            Message::PermitDistributed(app, allow, only_loaded, caller) => {
                Message::PermitDistributed(*app, *allow, *only_loaded, *caller)
            }
            Message::GetNodes(app, caller) => Message::GetNodes(*app, *caller),
            Message::Nodes(nodes) => Message::Nodes(nodes.copy(alloc)?),
            Message::Answer(outcome) => Message::Answer(*outcome),
            Message::NodeUp(node) => Message::NodeUp(*node),
            Message::Timeout => Message::Timeout,
            Message::Ends => Message::Ends,
        })
    }
}
