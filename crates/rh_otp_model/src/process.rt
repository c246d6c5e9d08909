//! The processes of a live node.

use rh_model::{App, Node};

/// What a process is.
#[derive(Clone, Copy, Debug, PartialEq, Eq)]
pub enum Role {
    /// application_controller.
    Controller,
    /// dist_ac.
    DistAc,
    /// kernel_config, which waits for other nodes.
    KernelConfig,
    /// net_kernel, which tells of nodes that are connected.
    NetKernel,
    /// init, which runs the boot script.
    Boot,
    /// The process that starts an application.
    Starter(App),
    /// The timers of a node.
    Timer,
    /// The node as a whole.
    System,
    /// The call of an operator, by its number.
    Call(u32),
}

/// A process: what it is, at which node, and in which life of that node, counted from 1.
#[derive(Clone, Copy, Debug, PartialEq, Eq)]
pub struct Process {
    pub role: Role,
    pub node: Node,
    pub life: u32,
}

/// A node in one of its lives.
#[derive(Clone, Copy, Debug, PartialEq, Eq)]
pub struct Here {
    pub node: Node,
    pub life: u32,
}

impl Here {
    ghost use Rattle.std.specs.Prelude.{◌≡◌};
    ghost use Rattle.rh_otp_model.specs.Processes.{process_at};

    /// Its process of this role.
    pub fn process(self, role: Role) -> Process
        ensures { result ≡ process_at self role }
    {
        Process {
            role,
            node: self.node,
            life: self.life,
        }
    }
}

/// How an application is started (application(3), the start type of `start/2`).
#[derive(Clone, Copy, Debug, PartialEq, Eq)]
pub enum StartType {
    /// By itself.
    Normal,
    /// In place of the one that was lost with this node.
    Failover(Node),
    /// In place of the one that runs at this node.
    Takeover(Node),
}
