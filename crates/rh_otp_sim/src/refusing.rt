//! Which events can't be given to a node.

ghost use Rattle.std.specs.Prelude.{◌≡◌, IfOk};
ghost use Rattle.rh_otp_sim.specs.Refusing.{phase_in, is_up_in, life_in, has_node, has_app, is_distributed, refuse_boot, refuse_crash, refuse_tick, refuse_call, is_host, hosts, has_host, refuse_all, refusal_of, refused};

use crate::sim::LiveSim;
use rh_base::OutOfMemory;
use rh_model::{App, Node};
use rh_otp_node::Phase;
use rh_rules::{Event, Refusal};
use std::alloc::Global;

// The last time of a clock, in milliseconds: as the first rules have it.
const TIME_LIMIT: u64 = 1_000_000_000_000;

// How often a node may begin: as the first rules have it.
const LIFE_LIMIT: u32 = 9_999;

// How many steps there may be: as the first rules have it.
const STEP_LIMIT: usize = 65_535;

// How many calls there may be.
const CALL_LIMIT: u32 = 4_000_000_000;

/// How a node stands.
impl LiveSim {
    // How far it is.
    fn phase(&self, node: Node) -> Phase
        ensures { result ≡ phase_in self.now node }
    {
        match self.live(node) {
            Some(live) => live.phase(),
            None => Phase::Down,
        }
    }

    // Is its wait for others over?
    fn is_up(&self, node: Node) -> bool
        ensures { result ≡ is_up_in self.now node }
    {
        matches!(self.phase(node), Phase::Up)
    }

    // How often it has begun.
    fn life(&self, node: Node) -> u32
        ensures { result ≡ life_in self.now node }
    {
        match self.live(node) {
            Some(live) => live.life(),
            None => 0,
        }
    }

    // Is there such a node?
    fn has_node(&self, node: Node) -> bool
        ensures { result ≡ has_node self.now node }
    {
        (node.0 as usize) < self.cluster.node_count()
    }

    // Is there such an application?
    fn has_app(&self, app: App) -> bool
        ensures { result ≡ has_app self.now app }
    {
        (app.0 as usize) < self.cluster.app_count()
    }

    // Is the application distributed?
    fn is_distributed(&self, app: App) -> bool
        ensures { result ≡ is_distributed self.now app }
    {
        self.cluster.is_within();
        (app.0 as usize) < self.cluster.app_count() && self.cluster.spread(app).is_some()
    }

    // Is the node up, and one of the application's list?
    pub(crate) fn is_host(&self, app: App, node: Node) -> bool
        ensures { result ≡ is_host self.now app node }
    {
        self.cluster.is_within();
        self.is_up(node)
            && (app.0 as usize) < self.cluster.app_count()
            && self.cluster.group_of(app, node).is_some()
    }

    // The nodes of the application's list that are up, in the order of the file.
    pub(crate) fn hosts(&self, alloc: Global, app: App) -> Result<Vec<Node>, OutOfMemory>
        ensures { IfOk result (λ nodes. nodes.items ≡ hosts self.now app) }
    {
        let mut nodes = Vec::new(alloc);
        for number in 0..self.cluster.node_count() {
            let node = Node(number as u8);
            if self.is_host(app, node) {
                nodes.push(node)?;
            }
        }
        Ok(nodes)
    }

    // Is a node of the application's list up?
    fn has_host(&self, alloc: Global, app: App) -> Result<bool, OutOfMemory>
        ensures { IfOk result (λ has. has ≡ has_host self.now app) }
    {
        let nodes = self.hosts(alloc, app)?;
        Ok(!nodes.is_empty())
    }
}

/// Why an event is refused.
impl LiveSim {
    // Why a node can't begin.
    fn refuse_boot(&self, node: Node) -> Option<Refusal>
        ensures { result ≡ refuse_boot node self.now }
    {
        if !self.has_node(node) {
            Some(Refusal::UnknownNode)
        } else if !matches!(self.phase(node), Phase::Down) {
            Some(Refusal::AlreadyAlive)
        } else if self.life(node) >= LIFE_LIMIT {
            Some(Refusal::IncarnationLimit)
        } else {
            None
        }
    }

    // Why it can't end.
    fn refuse_crash(&self, node: Node) -> Option<Refusal>
        ensures { result ≡ refuse_crash node self.now }
    {
        if !self.has_node(node) {
            Some(Refusal::UnknownNode)
        } else if matches!(self.phase(node), Phase::Down) {
            Some(Refusal::NotAlive)
        } else {
            None
        }
    }

    // Why an operator can't call there.
    fn refuse_call(&self, node: Node, app: App) -> Option<Refusal>
        ensures { result ≡ refuse_call node app self.now }
    {
        if !self.has_node(node) {
            Some(Refusal::UnknownNode)
        } else if !self.has_app(app) {
            Some(Refusal::UnknownApp)
        } else if !self.is_up(node) {
            Some(Refusal::NodeNotUp)
        } else {
            None
        }
    }

    // Why an operator can't call at all nodes of an application; where none of them is up it is for this.
    fn refuse_all(
        &self,
        alloc: Global,
        app: App,
        nobody: Refusal,
    ) -> Result<Option<Refusal>, OutOfMemory>
        ensures { IfOk result (λ why. why ≡ refuse_all app nobody self.now) }
    {
        if !self.has_app(app) {
            return Ok(Some(Refusal::UnknownApp));
        }
        if !self.is_distributed(app) {
            return Ok(Some(Refusal::NotDistributed));
        }
        if self.has_host(alloc, app)? {
            return Ok(None);
        }
        Ok(Some(nobody))
    }

    // Why the state refuses an event, if it does.
    fn refusal_of(
        &self,
        alloc: Global,
        clock: u64,
        event: Event,
    ) -> Result<Option<Refusal>, OutOfMemory>
        ensures { IfOk result (λ why. why ≡ refusal_of clock event self.now) }
    {
        Ok(match event {
            Event::Boot { node } => self.refuse_boot(node),
            Event::Crash { node } => self.refuse_crash(node),
            Event::Tick { ms } => refuse_tick(clock, ms),
            Event::Start { node, app, .. } => self.refuse_call(node, app),
            Event::Stop { node, app } => self.refuse_call(node, app),
            Event::Permit { node, app, .. } => self.refuse_call(node, app),
            Event::Takeover { node, app, .. } => self.refuse_call(node, app),
            Event::Exit { node, app, .. } => self.refuse_call(node, app),
            Event::StartAll { app, .. } => self.refuse_all(alloc, app, Refusal::NodeNotUp)?,
            Event::StopAll { app } => self.refuse_all(alloc, app, Refusal::NeverStarted)?,
        })
    }

    /// Why an event is refused, if it is: by the state, or since there are too many steps or calls. The clock, and the number of the
    /// last call, are those of what is between the nodes.
    pub(crate) fn refusal(
        &self,
        alloc: Global,
        clock: u64,
        last_call: u32,
        event: Event,
    ) -> Result<Option<Refusal>, OutOfMemory>
        ensures { IfOk result (λ why. why ≡ refused clock last_call event self.now) }
    {
        let why = self.refusal_of(alloc, clock, event)?;
        if why.is_some() {
            return Ok(why);
        }
        if self.cursor() >= STEP_LIMIT || last_call >= CALL_LIMIT {
            return Ok(Some(Refusal::TrailFull));
        }
        Ok(None)
    }
}

// Why so much time can't pass.
fn refuse_tick(clock: u64, ms: u64) -> Option<Refusal>
    ensures { result ≡ refuse_tick clock ms }
{
    if ms == 0 {
        Some(Refusal::ZeroTick)
    } else if ms > TIME_LIMIT || clock > TIME_LIMIT - ms {
        Some(Refusal::TimeLimit)
    } else {
        None
    }
}
