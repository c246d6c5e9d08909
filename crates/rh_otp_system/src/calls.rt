//! Calls of an operator.

ghost use Rattle.std.specs.Prelude.{◌≡◌, IfOk};
ghost use Rattle.rh_otp_system.specs.Calls.{process_of, message_of, second_of, is_takeover, is_done};

use rh_base::{Duplicate, OutOfMemory};
use rh_model::{App, Group, Node, Restart};
use rh_otp_model::{Message, Outcome, Process, Role};
use std::alloc::Global;

/// What is called.
#[derive(Clone, Copy, Debug, PartialEq, Eq)]
pub enum Ask {
    /// application:start/2
    Start(Restart),
    /// application:stop/1
    Stop,
    /// application:permit/2
    Permit(bool),
    /// application:takeover/2
    Takeover(Restart),
    /// The top process of the application is told to end, normally or not.
    Exit(bool),
}

/// What a call waits for.
#[derive(Drop)]
pub enum Stage {
    /// The controller's answer.
    Controller,
    /// That the dist_ac of its node has synchronised.
    Synchronised,
    /// The nodes of the application, of its dist_ac.
    Nodes,
    /// The lock at these nodes.
    Lock(Group),
    /// The answer of its dist_ac.
    DistAc,
    /// Nothing: it was answered.
    Done(Outcome),
}

impl Duplicate for Stage {
    fn copy(&self, alloc: Global) -> Result<Stage, OutOfMemory>
        ensures { IfOk result (λ copy. copy ≡ self.now) }
    {
        Ok(match self {
            Stage::Controller => Stage::Controller,
            Stage::Synchronised => Stage::Synchronised,
            Stage::Nodes => Stage::Nodes,
            Stage::Lock(nodes) => Stage::Lock(nodes.copy(alloc)?),
            Stage::DistAc => Stage::DistAc,
            Stage::Done(outcome) => Stage::Done(*outcome),
        })
    }
}

/// A call at a node, made by a process of its own.
#[derive(Drop)]
pub struct Call {
    /// Its number, from 1.
    pub number: u32,
    pub ask: Ask,
    pub node: Node,
    /// The life of its node.
    pub life: u32,
    pub app: App,
    /// Of a permission: the application isn't started.
    pub only_loaded: bool,
    pub stage: Stage,
}

impl Duplicate for Call {
    fn copy(&self, alloc: Global) -> Result<Call, OutOfMemory>
        ensures { IfOk result (λ copy. copy ≡ self.now) }
    {
        Ok(Call {
            number: self.number,
            ask: self.ask,
            node: self.node,
            life: self.life,
            app: self.app,
            only_loaded: self.only_loaded,
            stage: self.stage.copy(alloc)?,
        })
    }
}

impl Call {
    /// Its process.
    pub fn process(&self) -> Process
        ensures { result ≡ process_of self.now }
    {
        Process {
            role: Role::Call(self.number),
            node: self.node,
            life: self.life,
        }
    }

    /// What it sends to the controller at first. A takeover doesn't ask it.
    pub fn first_message(&self) -> Message
        ensures { result ≡ message_of self.now }
    {
        let caller = self.process();
        match self.ask {
            Ask::Start(restart) | Ask::Takeover(restart) => Message::Start(
                self.app, restart, caller,
            ),
            Ask::Stop => Message::Stop(self.app, caller),
            Ask::Permit(allow) => Message::Permit(self.app, allow, caller),
            Ask::Exit(is_normal) => Message::TopEnds(self.app, is_normal, caller),
        }
    }

    /// What it asks of dist_ac once it has the lock. Only takeovers and permissions do.
    pub fn second_message(&self) -> Message
        ensures { result ≡ second_of self.now }
    {
        let caller = self.process();
        match self.ask {
            Ask::Takeover(restart) | Ask::Start(restart) => Message::TakeOver(
                self.app, restart, caller,
            ),
            Ask::Permit(allow) => Message::PermitDistributed(
                self.app,
                allow,
                self.only_loaded,
                caller,
            ),
            Ask::Stop | Ask::Exit(_) => Message::PermitDistributed(
                self.app,
                false,
                self.only_loaded,
                caller,
            ),
        }
    }

    /// Is it a takeover?
    pub fn is_takeover(&self) -> bool
        ensures { result ≡ is_takeover self.now.ask }
    {
        matches!(self.ask, Ask::Takeover(_))
    }

    /// Was it answered?
    pub fn is_done(&self) -> bool
        ensures { result ≡ is_done self.now.stage }
    {
        matches!(self.stage, Stage::Done(_))
    }
}
