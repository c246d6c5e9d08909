//! The state of a dist_ac.

ghost use Rattle.std.specs.Prelude.{◌≡◌, ◌≤◌, IfOk, OnOk, replicate};

use crate::attempt::Attempt;
use rh_base::{Duplicate, OutOfMemory, copies_of};
use rh_model::{App, Group, MAX_APPS, MAX_NODES, Node};
use rh_otp_model::{Flags, Message, Process};
use std::alloc::Global;
use std::marker::Model;

/// How an application stands, as `id` in OTP.
#[derive(Clone, Copy, Debug, PartialEq, Eq)]
pub enum Standing {
    /// `undefined`
    Undefined,
    /// `local`: it runs at this node.
    Local,
    /// `run_waiting`: the controller was told to start it.
    RunWaiting,
    /// `takeover`
    Takeover,
    /// `{distributed, Node}`
    Distributed(Node),
    /// `{failover, Node}`
    Failover(Node),
}

/// An application, as the record `appl` has it.
#[derive(Clone, Copy, Debug, PartialEq, Eq)]
pub struct Appl {
    /// How it stands.
    pub standing: Standing,
    /// How often it was lost, as the timers of a loss know it.
    pub losses: u32,
}

/// A weight that another node has told.
#[derive(Clone, Copy, Debug, PartialEq, Eq)]
pub struct Told {
    pub app: App,
    pub weight: u32,
    pub node: Node,
}

/// wait_dacs/4: it waits for what the first of these nodes knows.
#[derive(Drop)]
pub struct Introducing {
    pub(crate) nodes: Vec<Node>,
    pub(crate) known: Vec<Node>,
    pub(crate) remote_started: Vec<(App, Node)>,
}

/// Contracts see it as its parts.
impl Model for Introducing {
    ghost use Rattle.rh_otp_dist.specs.Views.{IntroducingView};

    ghost Value = { IntroducingView };

    ghost view = { λ i. record {
      nodes = i.nodes.items;
      known = i.known.items;
      remote_started = i.remote_started.items;
    } };
}

impl Introducing {
    /// The nodes that it waits for.
    pub fn nodes(&self) -> &[Node]
        ensures { result.now ≡ self.now.nodes }
    {
        self.nodes.as_slice()
    }
}

impl Duplicate for Introducing {
    fn copy(&self, alloc: Global) -> Result<Introducing, OutOfMemory>
        ensures { IfOk result (λ copy. copy ≡ self.now) }
    {
        Ok(Introducing {
            nodes: Vec::from_slice(alloc, self.nodes.as_slice())?,
            known: Vec::from_slice(alloc, self.known.as_slice())?,
            remote_started: Vec::from_slice(alloc, self.remote_started.as_slice())?,
        })
    }
}

/// collect_answers/4: it waits for the weight of the first of these nodes, to choose a node of the tuple at this place.
#[derive(Drop)]
pub struct Weighing {
    pub(crate) attempt: Attempt,
    pub(crate) place: usize,
    pub(crate) candidates: Vec<Node>,
    pub(crate) answers: Vec<(u32, Node)>,
    pub(crate) nodes: Vec<Node>,
}

/// Contracts see it as its parts.
impl Model for Weighing {
    ghost use Rattle.rh_otp_dist.specs.Views.{WeighingView};

    ghost Value = { WeighingView };

    ghost view = { λ w. record {
      attempt = w.attempt;
      place = w.place;
      candidates = w.candidates.items;
      answers = w.answers.items;
      nodes = w.nodes.items;
    } };
}

impl Weighing {
    /// The application.
    pub fn app(&self) -> App
        ensures { result ≡ self.now.attempt.app }
    {
        self.attempt.app()
    }

    /// The nodes that it waits for.
    pub fn nodes(&self) -> &[Node]
        ensures { result.now ≡ self.now.nodes }
    {
        self.nodes.as_slice()
    }
}

impl Duplicate for Weighing {
    fn copy(&self, alloc: Global) -> Result<Weighing, OutOfMemory>
        ensures { IfOk result (λ copy. copy ≡ self.now) }
    {
        Ok(Weighing {
            attempt: self.attempt.copy(alloc)?,
            place: self.place,
            candidates: Vec::from_slice(alloc, self.candidates.as_slice())?,
            answers: Vec::from_slice(alloc, self.answers.as_slice())?,
            nodes: Vec::from_slice(alloc, self.nodes.as_slice())?,
        })
    }
}

/// What waits in permit/6 for one of these nodes to start an application.
#[derive(Drop)]
pub struct PermitWait {
    pub(crate) caller: Process,
    pub(crate) nodes: Vec<Node>,
}

/// Contracts see it as its parts.
impl Model for PermitWait {
    ghost use Rattle.rh_otp_dist.specs.Views.{PermitWaitView};

    ghost Value = { PermitWaitView };

    ghost view = { λ p. record { caller = p.caller; nodes = p.nodes.items } };
}

impl Duplicate for PermitWait {
    fn copy(&self, alloc: Global) -> Result<PermitWait, OutOfMemory>
        ensures { IfOk result (λ copy. copy ≡ self.now) }
    {
        Ok(PermitWait {
            caller: self.caller,
            nodes: Vec::from_slice(alloc, self.nodes.as_slice())?,
        })
    }
}

/// Where a dist_ac stands.
#[derive(Drop)]
pub enum Stand {
    /// It waits for any message.
    Idle,
    /// handle_cast(init_sync, ..): it waits until kernel has seen the other nodes.
    ForGo,
    /// sync_dacs/1: it waits for the lock of all these nodes.
    ForLock(Group),
    /// wait_dacs/4
    ForIntroduction(Introducing),
    /// collect_answers/4
    ForWeight(Weighing),
    /// wait_dist_start/7: it waits for this node to start the application.
    ForStart(Attempt, Node),
    /// wait_dist_start2/6: it waits for any node to start the application.
    ForAnyStart(Attempt),
}

impl Duplicate for Stand {
    fn copy(&self, alloc: Global) -> Result<Stand, OutOfMemory>
        ensures { IfOk result (λ copy. copy ≡ self.now) }
    {
        match self {
            Stand::Idle => Ok(Stand::Idle),
            Stand::ForGo => Ok(Stand::ForGo),
            Stand::ForLock(nodes) => Ok(Stand::ForLock(nodes.copy(alloc)?)),
            Stand::ForIntroduction(stand) => Ok(Stand::ForIntroduction(stand.copy(alloc)?)),
            Stand::ForWeight(stand) => Ok(Stand::ForWeight(stand.copy(alloc)?)),
            Stand::ForStart(attempt, node) => Ok(Stand::ForStart(attempt.copy(alloc)?, *node)),
            Stand::ForAnyStart(attempt) => Ok(Stand::ForAnyStart(attempt.copy(alloc)?)),
        }
    }
}

/// The state of a dist_ac. What is new stands in front, as in OTP.
#[derive(Drop)]
pub struct Dist {
    pub(crate) stand: Stand,
    // Its mailbox: what it hasn't handled yet, the first to come in front.
    pub(crate) mail: Vec<Message>,
    pub(crate) is_synchronised: bool,
    pub(crate) known: Vec<Node>,
    pub(crate) remote_started: Vec<(App, Node)>,
    pub(crate) started: Vec<App>,
    pub(crate) tmp_locals: Vec<Told>,
    pub(crate) tmp_weights: Vec<(App, u32)>,
    pub(crate) t_reqs: Vec<(App, Process)>,
    pub(crate) s_reqs: Vec<(App, Process)>,
    pub(crate) p_reqs: Vec<(App, PermitWait)>,
    // Nodes whose end it is told of beside all those that are connected, once for each monitor.
    pub(crate) monitored: Vec<Node>,
    // Start requests that found the lock of this node held: they are sent again.
    pub(crate) parked: Vec<App>,
    // By application, and which of them each node may run, as far as it is known.
    pub(crate) appls: Vec<Appl>,
    pub(crate) may: Vec<Flags>,
}

/// Contracts see a `Dist` as its parts.
impl Model for Dist {
    ghost use Rattle.std.specs.Prelude.{◌≤◌, length};
    ghost use Rattle.rh_model.specs.declared.limits.TheConstants.{MAX_NODES, MAX_APPS};
    ghost use Rattle.rh_otp_dist.specs.State.{DistView};

    ghost Value = { DistView };

    ghost view = { λ d. record {
      stand = d.stand;
      mail = d.mail.items;
      is_synchronised = d.is_synchronised;
      known = d.known.items;
      remote_started = d.remote_started.items;
      started = d.started.items;
      tmp_locals = d.tmp_locals.items;
      tmp_weights = d.tmp_weights.items;
      t_reqs = d.t_reqs.items;
      s_reqs = d.s_reqs.items;
      p_reqs = d.p_reqs.items;
      monitored = d.monitored.items;
      parked = d.parked.items;
      appls = d.appls.items;
      may = d.may.items;
    } };

    ghost invariant = { λ d. record {
      nodes : length d.may.items ≤ MAX_NODES;
      apps : length d.appls.items ≤ MAX_APPS;
    } };
}

// As many of these flags, which share their memory.
fn shares_of(alloc: Global, flags: &Flags, count: usize) -> Result<Vec<Flags>, OutOfMemory>
    ensures { IfOk result (λ shares. shares.items ≡ replicate count flags.now) }
{
    let mut shares = Vec::with_capacity(alloc, count)?;
    for number in 0..count {
        let _number = number;
        shares.push(flags.share()?)?;
    }
    Ok(shares)
}

// The same flags, each in the same memory.
fn shared(alloc: Global, may: &[Flags]) -> Result<Vec<Flags>, OutOfMemory>
    ensures { IfOk result (λ copies. copies.items ≡ may.now) }
{
    let mut copies = Vec::with_capacity(alloc, may.len())?;
    for flags in may {
        copies.push(flags.share()?)?;
    }
    Ok(copies)
}

// Equal rows in memory of their own.
fn copied_waits(
    alloc: Global,
    rows: &[(App, PermitWait)],
) -> Result<Vec<(App, PermitWait)>, OutOfMemory>
    ensures { IfOk result (λ copies. copies.items ≡ rows.now) }
{
    let mut copies = Vec::with_capacity(alloc, rows.len())?;
    for row in rows {
        copies.push((row.0, row.1.copy(alloc)?))?;
    }
    Ok(copies)
}

impl Dist {
    ghost use Rattle.rh_otp_dist.specs.State.{beginning};

    /// What a node that begins knows: of so many applications nothing, and of so many nodes which of them it may run itself.
    pub fn new(
        alloc: Global,
        nodes: usize,
        apps: usize,
        here: Node,
        own: Flags,
    ) -> Result<Dist, OutOfMemory>
        requires nodes { nodes ≤ MAX_NODES }
        requires apps { apps ≤ MAX_APPS }
        ensures { IfOk result (λ dist. dist ≡ beginning nodes apps here own) }
    {
        let none = Flags::none(alloc, apps)?;
        let mut may = shares_of(alloc, &none, nodes)?;
        if (here.0 as usize) < nodes {
            may[here.0 as usize] = own;
        }
        let unknown = Appl {
            standing: Standing::Undefined,
            losses: 0,
        };
        let appls = vec![in alloc; unknown; apps]?;
        Ok(Dist {
            stand: Stand::ForGo,
            mail: Vec::new(alloc),
            is_synchronised: false,
            known: Vec::new(alloc),
            remote_started: Vec::new(alloc),
            started: Vec::new(alloc),
            tmp_locals: Vec::new(alloc),
            tmp_weights: Vec::new(alloc),
            t_reqs: Vec::new(alloc),
            s_reqs: Vec::new(alloc),
            p_reqs: Vec::new(alloc),
            monitored: Vec::new(alloc),
            parked: Vec::new(alloc),
            appls,
            may,
        })
    }
}

impl Dist {
    // What another one knows of other nodes and of its starts.
    fn copy_starts(&mut self, alloc: Global, other: &Dist) -> Result<(), OutOfMemory>
        ensures { OnOk result (self.new ≡ record self.old {
          known = other.now.known;
          remote_started = other.now.remote_started;
          started = other.now.started;
          tmp_locals = other.now.tmp_locals;
          tmp_weights = other.now.tmp_weights;
        }) }
    {
        self.known = Vec::from_slice(alloc, other.known.as_slice())?;
        self.remote_started = Vec::from_slice(alloc, other.remote_started.as_slice())?;
        self.started = Vec::from_slice(alloc, other.started.as_slice())?;
        self.tmp_locals = Vec::from_slice(alloc, other.tmp_locals.as_slice())?;
        self.tmp_weights = Vec::from_slice(alloc, other.tmp_weights.as_slice())?;
        Ok(())
    }

    // Who waits for another one, and what it waits for.
    fn copy_requests(&mut self, alloc: Global, other: &Dist) -> Result<(), OutOfMemory>
        ensures { OnOk result (self.new ≡ record self.old {
          t_reqs = other.now.t_reqs;
          s_reqs = other.now.s_reqs;
          p_reqs = other.now.p_reqs;
          monitored = other.now.monitored;
          parked = other.now.parked;
        }) }
    {
        self.t_reqs = Vec::from_slice(alloc, other.t_reqs.as_slice())?;
        self.s_reqs = Vec::from_slice(alloc, other.s_reqs.as_slice())?;
        self.p_reqs = copied_waits(alloc, other.p_reqs.as_slice())?;
        self.monitored = Vec::from_slice(alloc, other.monitored.as_slice())?;
        self.parked = Vec::from_slice(alloc, other.parked.as_slice())?;
        Ok(())
    }

    // Where another one stands, and how all applications stand.
    fn copy_stands(&mut self, alloc: Global, other: &Dist) -> Result<(), OutOfMemory>
        ensures { OnOk result (self.new ≡ record self.old {
          stand = other.now.stand;
          mail = other.now.mail;
          is_synchronised = other.now.is_synchronised;
          appls = other.now.appls;
          may = other.now.may;
        }) }
    {
        self.stand = other.stand.copy(alloc)?;
        self.mail = copies_of(alloc, other.mail.as_slice())?;
        self.is_synchronised = other.is_synchronised;
        self.appls = Vec::from_slice(alloc, other.appls.as_slice())?;
        self.may = shared(alloc, other.may.as_slice())?;
        Ok(())
    }
}

impl Duplicate for Dist {
    // All parts are copied into one that knows nothing.
    fn copy(&self, alloc: Global) -> Result<Dist, OutOfMemory>
        ensures { IfOk result (λ copy. copy ≡ self.now) }
    {
        let none = Flags::none(alloc, 0)?;
        let mut copy = Dist::new(alloc, 0, 0, Node(0), none)?;
        copy.copy_starts(alloc, self)?;
        copy.copy_requests(alloc, self)?;
        copy.copy_stands(alloc, self)?;
        Ok(copy)
    }
}
