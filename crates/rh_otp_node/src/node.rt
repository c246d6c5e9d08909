//! What a live node holds.

ghost use Rattle.std.specs.Prelude.{◌≡◌, ◌<◌, ◌+◌, ◌^◌, IfOk, OnOk};
ghost use Rattle.rh_model.specs.ClusterView.{node_count};
ghost use Rattle.rh_otp_node.specs.Live.{never_begun, permission_rows, own_flags, first_dist, begun, with_kind, here_of, is_alive, is_up, is_ending};

use rh_base::{Duplicate, OutOfMemory};
use rh_model::{App, Cluster, Node};
use rh_otp_controller::Controller;
use rh_otp_dist::Dist;
use rh_otp_model::{Flags, Here, Own, StartType, key_store};
use std::alloc::Global;
use std::marker::Model;

/// How far a node is.
#[derive(Clone, Copy, Debug, PartialEq, Eq)]
pub enum Phase {
    /// It isn't alive.
    Down,
    /// It waits for other nodes.
    Waiting,
    /// Its wait is over.
    Up,
}

/// A node and its processes.
#[derive(Drop)]
pub struct LiveNode {
    // How often it has begun.
    pub(crate) life: u32,
    pub(crate) phase: Phase,
    // Its controller has ended, and what ran has stopped.
    pub(crate) is_stopped: bool,
    // The nodes that kernel waits for still.
    pub(crate) mandatory: Vec<Node>,
    pub(crate) optional: Vec<Node>,
    // How many applications of its boot list it has begun to start, with the end of the list as one more.
    pub(crate) place: usize,
    pub(crate) controller: Controller,
    pub(crate) dist: Option<Dist>,
    // Of which kind the last start of each application was, as an observer has seen it.
    pub(crate) kinds: Vec<(App, StartType)>,
}

/// Contracts see a `LiveNode` as its parts.
impl Model for LiveNode {
    ghost use Rattle.rh_otp_node.specs.Live.{LiveView};

    ghost Value = { LiveView };

    ghost view = { λ v. record {
      life = v.life;
      phase = v.phase;
      is_stopped = v.is_stopped;
      mandatory = v.mandatory.items;
      optional = v.optional.items;
      place = v.place;
      controller = v.controller;
      dist = v.dist;
      kinds = v.kinds.items;
    } };
}

// For each application of the cluster, whether the node may run it, as configured.
#[tactic(auto, using(crate::proofs::Apps::map_more_apps))]
fn permission_rows(
    alloc: Global,
    cluster: &Cluster,
    node: Node,
) -> Result<Vec<(App, bool)>, OutOfMemory>
    requires { node.0 < node_count cluster.now }
    ensures { IfOk result (λ rows. rows.items ≡ permission_rows cluster.now node) }
{
    let mut rows = Vec::new(alloc);
    for number in 0..cluster.app_count() {
        let app = App(number as u8);
        rows.push((app, cluster.permitted(node, app)))?;
    }
    Ok(rows)
}

// For each application of the cluster, whether the node's dist_ac controls it and may run it.
#[tactic(auto, using(crate::proofs::Apps::map_more_apps))]
fn own_flags(alloc: Global, cluster: &Cluster, own: &Own, node: Node) -> Result<Flags, OutOfMemory>
    requires { node.0 < node_count cluster.now }
    ensures { IfOk result (λ flags. flags ≡ own_flags cluster.now own.now node) }
{
    let mut set = Vec::new(alloc);
    for number in 0..cluster.app_count() {
        let app = App(number as u8);
        set.push(own.controls(app) && cluster.permitted(node, app))?;
    }
    Flags::of(alloc, set)
}

// The dist_ac of a node that begins, where it has one.
fn first_dist(
    alloc: Global,
    cluster: &Cluster,
    own: &Own,
    node: Node,
) -> Result<Option<Dist>, OutOfMemory>
    requires { node.0 < node_count cluster.now }
    ensures { IfOk result (λ dist. dist ≡ first_dist cluster.now own.now node) }
{
    if !own.has_dist() {
        return Ok(None);
    }
    let flags = own_flags(alloc, cluster, own, node)?;
    let dist = Dist::new(
        alloc,
        cluster.node_count(),
        cluster.app_count(),
        node,
        flags,
    )?;
    Ok(Some(dist))
}

impl LiveNode {
    /// A node that has never begun.
    pub fn new(alloc: Global) -> LiveNode
        ensures { result ≡ never_begun }
    {
        LiveNode {
            life: 0,
            phase: Phase::Down,
            is_stopped: false,
            mandatory: Vec::new(alloc),
            optional: Vec::new(alloc),
            place: 0,
            controller: Controller::new(alloc, Vec::new(alloc)),
            dist: None,
            kinds: Vec::new(alloc),
        }
    }

    /// The node begins once more: with the lists of its file, and nothing started.
    pub fn begin(
        &self,
        alloc: Global,
        cluster: &Cluster,
        own: &Own,
        node: Node,
    ) -> Result<LiveNode, OutOfMemory>
        requires node { node.0 < node_count cluster.now }
        requires life { self.now.life + 1 < 2 ^ 32 }
        ensures { IfOk result (λ next. next ≡ begun cluster.now own.now node self.now) }
    {
        let permissions = permission_rows(alloc, cluster, node)?;
        Ok(LiveNode {
            life: self.life + 1,
            phase: Phase::Waiting,
            is_stopped: false,
            mandatory: Vec::from_slice(alloc, cluster.mandatory(node))?,
            optional: Vec::from_slice(alloc, cluster.optional(node))?,
            place: 0,
            controller: Controller::new(alloc, permissions),
            dist: first_dist(alloc, cluster, own, node)?,
            kinds: Vec::new(alloc),
        })
    }

    /// The node has ended.
    pub fn end(&mut self)
        ensures { self.new ≡ record self.old { phase = Phase.Down } }
    {
        self.phase = Phase::Down;
    }

    /// How often it has begun.
    pub fn life(&self) -> u32
        ensures { result ≡ self.now.life }
    {
        self.life
    }

    /// The node in its life now.
    pub fn here(&self, node: Node) -> Here
        ensures { result ≡ here_of node self.now }
    {
        Here {
            node,
            life: self.life,
        }
    }

    /// How far it is.
    pub fn phase(&self) -> Phase
        ensures { result ≡ self.now.phase }
    {
        self.phase
    }

    /// Is it alive?
    pub fn is_alive(&self) -> bool
        ensures { result ≡ is_alive self.now }
    {
        !matches!(self.phase, Phase::Down)
    }

    /// Is its wait for others over?
    pub fn is_up(&self) -> bool
        ensures { result ≡ is_up self.now }
    {
        matches!(self.phase, Phase::Up)
    }

    /// Has its controller ended, and the node has to follow?
    pub fn is_ending(&self) -> bool
        ensures { result ≡ is_ending self.now }
    {
        self.controller.is_ending()
    }

    /// Has what ran stopped, since the controller has ended?
    pub fn is_stopped(&self) -> bool
        ensures { result ≡ self.now.is_stopped }
    {
        self.is_stopped
    }

    /// What is started and what runs, as the node itself knows it.
    pub fn controller(&self) -> &Controller
        ensures { result.now ≡ self.now.controller }
    {
        &self.controller
    }

    /// Of which kind the last start of each application was, as an observer has seen it.
    pub fn kinds(&self) -> &[(App, StartType)]
        ensures { result.now ≡ self.now.kinds }
    {
        self.kinds.as_slice()
    }

    /// An observer has seen a start of this kind.
    pub fn note_kind(&mut self, app: App, kind: StartType) -> Result<(), OutOfMemory>
        ensures { OnOk result (self.new ≡ with_kind app kind self.old) }
    {
        key_store(&mut self.kinds, app, kind)
    }
}

// An equal dist_ac in memory of its own, if there is one.
fn copied(alloc: Global, dist: &Option<Dist>) -> Result<Option<Dist>, OutOfMemory>
    ensures { IfOk result (λ copy. copy ≡ dist.now) }
{
    match dist {
        Some(dist) => Ok(Some(dist.copy(alloc)?)),
        None => Ok(None),
    }
}

impl Duplicate for LiveNode {
    fn copy(&self, alloc: Global) -> Result<LiveNode, OutOfMemory>
        ensures { IfOk result (λ copy. copy ≡ self.now) }
    {
        Ok(LiveNode {
            life: self.life,
            phase: self.phase,
            is_stopped: self.is_stopped,
            mandatory: Vec::from_slice(alloc, self.mandatory.as_slice())?,
            optional: Vec::from_slice(alloc, self.optional.as_slice())?,
            place: self.place,
            controller: self.controller.copy(alloc)?,
            dist: copied(alloc, &self.dist)?,
            kinds: Vec::from_slice(alloc, self.kinds.as_slice())?,
        })
    }
}
