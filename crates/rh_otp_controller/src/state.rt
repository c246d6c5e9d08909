//! The state of a controller.

ghost use Rattle.std.specs.Prelude.{◌≡◌, IfOk};
ghost use Rattle.rh_otp_controller.specs.First.{first};

use rh_base::{Duplicate, OutOfMemory};
use rh_model::{App, Node, Restart};
use rh_otp_model::{Process, StartType};
use std::alloc::Global;
use std::marker::Model;

/// Where an application runs, as a controller knows it.
#[derive(Clone, Copy, Debug, PartialEq, Eq)]
pub enum Place {
    /// At its own node.
    Here,
    /// `{distributed, Node}`
    At(Node),
    /// `{distributed, []}`
    Nowhere,
}

/// An application that is being started.
#[derive(Clone, Copy, Debug, PartialEq, Eq)]
pub struct Starting {
    /// Its restart type, if it is known.
    pub restart: Option<Restart>,
    /// Its start type.
    pub kind: StartType,
}

/// The lists of a controller, as in OTP: what is new stands in front.
#[derive(Drop)]
pub struct Controller {
    pub(crate) running: Vec<(App, Place)>,
    pub(crate) starting: Vec<(App, Starting)>,
    pub(crate) started: Vec<(App, Option<Restart>)>,
    pub(crate) start_p_false: Vec<(App, Restart)>,
    pub(crate) start_req: Vec<(App, Option<Process>)>,
    pub(crate) permissions: Vec<(App, bool)>,
    // Those that have ended by themselves since they were started last.
    pub(crate) ended: Vec<App>,
    pub(crate) is_ending: bool,
}

/// Contracts see a `Controller` as its lists.
impl Model for Controller {
    ghost use Rattle.rh_otp_controller.specs.State.{ControllerView};

    ghost Value = { ControllerView };

    ghost view = { λ c. record {
      running = c.running.items;
      starting = c.starting.items;
      started = c.started.items;
      start_p_false = c.start_p_false.items;
      start_req = c.start_req.items;
      permissions = c.permissions.items;
      ended = c.ended.items;
      is_ending = c.is_ending;
    } };
}

impl Controller {
    /// The controller of a node that begins, with the permissions of its file.
    pub fn new(alloc: Global, permissions: Vec<(App, bool)>) -> Controller
        ensures { result ≡ first permissions.items }
    {
        Controller {
            running: Vec::new(alloc),
            starting: Vec::new(alloc),
            started: Vec::new(alloc),
            start_p_false: Vec::new(alloc),
            start_req: Vec::new(alloc),
            permissions,
            ended: Vec::new(alloc),
            is_ending: false,
        }
    }

    /// What runs, here or elsewhere, that which was added last in front.
    pub fn running(&self) -> &[(App, Place)]
        ensures { result.now ≡ self.now.running }
    {
        self.running.as_slice()
    }

    /// What is being started.
    pub fn starting(&self) -> &[(App, Starting)]
        ensures { result.now ≡ self.now.starting }
    {
        self.starting.as_slice()
    }

    /// What is started, with its restart type if it is known.
    pub fn started(&self) -> &[(App, Option<Restart>)]
        ensures { result.now ≡ self.now.started }
    {
        self.started.as_slice()
    }

    /// What was started while it was forbidden.
    pub fn start_p_false(&self) -> &[(App, Restart)]
        ensures { result.now ≡ self.now.start_p_false }
    {
        self.start_p_false.as_slice()
    }

    /// What has ended by itself since it was started last.
    pub fn ended(&self) -> &[App]
        ensures { result.now ≡ self.now.ended }
    {
        self.ended.as_slice()
    }

    /// Does it end, and its node with it?
    pub fn is_ending(&self) -> bool
        ensures { result ≡ self.now.is_ending }
    {
        self.is_ending
    }
}

impl Duplicate for Controller {
    fn copy(&self, alloc: Global) -> Result<Controller, OutOfMemory>
        ensures { IfOk result (λ copy. copy ≡ self.now) }
    {
        Ok(Controller {
            running: Vec::from_slice(alloc, self.running.as_slice())?,
            starting: Vec::from_slice(alloc, self.starting.as_slice())?,
            started: Vec::from_slice(alloc, self.started.as_slice())?,
            start_p_false: Vec::from_slice(alloc, self.start_p_false.as_slice())?,
            start_req: Vec::from_slice(alloc, self.start_req.as_slice())?,
            permissions: Vec::from_slice(alloc, self.permissions.as_slice())?,
            ended: Vec::from_slice(alloc, self.ended.as_slice())?,
            is_ending: self.is_ending,
        })
    }
}
