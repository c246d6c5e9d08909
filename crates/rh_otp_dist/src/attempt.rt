//! A start of an application.

ghost use Rattle.std.specs.Prelude.{◌≡◌, IfOk};

use crate::state::{Standing, Told};
use rh_base::{Duplicate, OutOfMemory};
use rh_model::{App, Node};
use rh_otp_model::Process;
use std::alloc::Global;
use std::marker::Model;

/// Who has asked for a start.
#[derive(Clone, Copy, Debug, PartialEq, Eq)]
pub enum AskedBy {
    /// The controller, which waits for a reply: `reply`.
    Controller,
    /// Nobody who waits, so it is a change: `req`.
    Nobody,
}

/// A call of permit for which an application is started, with the state before it.
#[derive(Drop)]
pub struct PermitCall {
    pub(crate) caller: Process,
    pub(crate) standing: Standing,
    pub(crate) remote_started: Vec<(App, Node)>,
    pub(crate) started: Vec<App>,
    pub(crate) tmp_locals: Vec<Told>,
    pub(crate) tmp_weights: Vec<(App, u32)>,
}

/// Contracts see a `PermitCall` as its parts.
impl Model for PermitCall {
    ghost use Rattle.rh_otp_dist.specs.Views.{PermitCallView};

    ghost Value = { PermitCallView };

    ghost view = { λ p. record {
      caller = p.caller;
      standing = p.standing;
      remote_started = p.remote_started.items;
      started = p.started.items;
      tmp_locals = p.tmp_locals.items;
      tmp_weights = p.tmp_weights.items;
    } };
}

impl Duplicate for PermitCall {
    fn copy(&self, alloc: Global) -> Result<PermitCall, OutOfMemory>
        ensures { IfOk result (λ copy. copy ≡ self.now) }
    {
        Ok(PermitCall {
            caller: self.caller,
            standing: self.standing,
            remote_started: Vec::from_slice(alloc, self.remote_started.as_slice())?,
            started: Vec::from_slice(alloc, self.started.as_slice())?,
            tmp_locals: Vec::from_slice(alloc, self.tmp_locals.as_slice())?,
            tmp_weights: Vec::from_slice(alloc, self.tmp_weights.as_slice())?,
        })
    }
}

/// A start of an application: start_appl/3.
#[derive(Drop)]
pub struct Attempt {
    pub(crate) app: App,
    pub(crate) asked_by: AskedBy,
    // The nodes that may run it.
    pub(crate) permitted: Vec<Node>,
    pub(crate) permit: Option<PermitCall>,
}

/// Contracts see an `Attempt` as its parts.
impl Model for Attempt {
    ghost use Rattle.rh_otp_dist.specs.Views.{AttemptView};

    ghost Value = { AttemptView };

    ghost view = { λ a. record {
      app = a.app;
      asked_by = a.asked_by;
      permitted = a.permitted.items;
      permit = a.permit;
    } };
}

impl Attempt {
    /// The application.
    pub fn app(&self) -> App
        ensures { result ≡ self.now.app }
    {
        self.app
    }

    /// The nodes that may run it.
    pub fn permitted(&self) -> &[Node]
        ensures { result.now ≡ self.now.permitted }
    {
        self.permitted.as_slice()
    }

    /// Who has asked for it.
    pub fn asked_by(&self) -> AskedBy
        ensures { result ≡ self.now.asked_by }
    {
        self.asked_by
    }
}

impl Duplicate for Attempt {
    fn copy(&self, alloc: Global) -> Result<Attempt, OutOfMemory>
        ensures { IfOk result (λ copy. copy ≡ self.now) }
    {
        let permit = match &self.permit {
            Some(permit) => Some(permit.copy(alloc)?),
            None => None,
        };
        Ok(Attempt {
            app: self.app,
            asked_by: self.asked_by,
            permitted: Vec::from_slice(alloc, self.permitted.as_slice())?,
            permit,
        })
    }
}
