//! The state of a cluster.

ghost use Rattle.std.specs.Prelude.{◌≡◌, ◌<◌, ◌++◌, IfOk, map};
ghost use Rattle.rh_model.specs.ClusterView.{node_count};
ghost use Rattle.rh_state.specs.Numbers.{nodes_of};
ghost use Rattle.rh_state.specs.First.{first, first_words, configured};
ghost use Rattle.rh_state.specs.Shape.{IsShaped, OnceAtEachNode};
ghost use Rattle.rh_state.specs.Formed.{IsFormed};
ghost use Rattle.rh_state.specs.Stored.{read};

mod comparing;
mod exchanging;
mod pairs;
mod reading;
mod setting;
mod timers;
mod walking;

use crate::status::{Kind, Mode, Standing};
use crate::table::Table;
use rh_arena::Lists;
use rh_base::{Duplicate, OutOfMemory};
use rh_model::{App, Cluster, Node, Restart};
use rh_wheel::Wheel;
use std::alloc::Global;
use std::marker::Model;
use std::sync::Arc;

/// The state of a cluster at one time.
///
/// [`first_state`] and [`State::copy`] take all the memory that a state needs; of the other calls only
/// [`State::timers`] takes any.
#[derive(Drop)]
pub struct State {
    // All states of a simulation share it.
    cluster: Arc<Cluster>,
    time: u64,
    modes: Vec<Mode>,
    incarnations: Vec<u16>,
    // What runs and what waits at each node. The entry of a pair has the number node * applications + application; what
    // runs at node n is list n, what waits there is list nodes + n.
    links: Lists,
    restarts: Table<Restart>,
    kinds: Table<Kind>,
    allowed: Table<bool>,
    standings: Vec<Standing>,
    // The sync timer of node n has number n, the failover timer of application a the number of nodes + a.
    wheel: Wheel,
}

impl Model for State {
    ghost use Rattle.rh_state.specs.Formed.{IsFormed};
    ghost use Rattle.rh_state.specs.Stored.{Stored};

    ghost Value = { Stored };

    ghost view = { λ s. record {
      cluster = s.cluster.value;
      time = s.time;
      modes = s.modes.items;
      incarnations = s.incarnations.items;
      links = s.links;
      restarts = s.restarts;
      kinds = s.kinds;
      allowed = s.allowed;
      standings = s.standings.items;
      wheel = s.wheel;
    } };

    ghost invariant = { λ s.
        IsFormed (record {
          cluster = s.cluster.value;
          time = s.time;
          modes = s.modes.items;
          incarnations = s.incarnations.items;
          links = s.links;
          restarts = s.restarts;
          kinds = s.kinds;
          allowed = s.allowed;
          standings = s.standings.items;
          wheel = s.wheel;
        }) };
}

impl State {
    /// The last millisecond of a simulation.
    pub const TIME_LIMIT: u64 = 1_000_000_000_000;

    /// The last incarnation that a node may have.
    pub const INCARNATION_LIMIT: u16 = 9_999;

    /// What holds of a state at all times. It has a place for each node and each application of its cluster, and names no
    /// others; and no application stands twice at a node.
    pub fn formed(&self)
        ensures words { IsFormed self.now }
        ensures shape { IsShaped (read self.now) }
        ensures once { OnceAtEachNode (read self.now) }
    {
        let _ = &self.cluster;
    }

    /// An equal state, with equal words.
    pub fn copy(&self, alloc: Global) -> Result<State, OutOfMemory>
        ensures { IfOk result (λ copy. copy ≡ self.now) }
    {
        let (modes, incarnations, standings) = self.copy_marks(alloc)?;
        let links = self.links.copy(alloc)?;
        let (restarts, kinds, allowed) = self.copy_tables(alloc)?;
        let wheel = self.wheel.copy(alloc)?;
        let cluster = Arc::try_clone(&self.cluster)?;
        Ok(State {
            cluster,
            time: self.time,
            modes,
            incarnations,
            links,
            restarts,
            kinds,
            allowed,
            standings,
            wheel,
        })
    }

    // What is said of each node, and where each application stands.
    fn copy_marks(&self, alloc: Global) -> Result<(Vec<Mode>, Vec<u16>, Vec<Standing>), OutOfMemory>
        ensures modes { IfOk result (λ marks. marks.0.items ≡ self.now.modes) }
        ensures incarnations { IfOk result (λ marks. marks.1.items ≡ self.now.incarnations) }
        ensures standings { IfOk result (λ marks. marks.2.items ≡ self.now.standings) }
    {
        let modes = Vec::from_slice(alloc, self.modes.as_slice())?;
        let incarnations = Vec::from_slice(alloc, self.incarnations.as_slice())?;
        let standings = Vec::from_slice(alloc, self.standings.as_slice())?;
        Ok((modes, incarnations, standings))
    }

    // The tables over pairs.
    fn copy_tables(
        &self,
        alloc: Global,
    ) -> Result<(Table<Restart>, Table<Kind>, Table<bool>), OutOfMemory>
        ensures restarts { IfOk result (λ tables. tables.0 ≡ self.now.restarts) }
        ensures kinds { IfOk result (λ tables. tables.1 ≡ self.now.kinds) }
        ensures allowed { IfOk result (λ tables. tables.2 ≡ self.now.allowed) }
    {
        let restarts = self.restarts.copy(alloc)?;
        let kinds = self.kinds.copy(alloc)?;
        let allowed = self.allowed.copy(alloc)?;
        Ok((restarts, kinds, allowed))
    }
}

/// The state before any event: the time is 0, all nodes are down, nothing is started, and the permissions are those of the
/// cluster file. The state keeps a copy of the cluster, which its own copies share.
pub fn first_state(alloc: Global, cluster: &Cluster) -> Result<State, OutOfMemory>
    ensures words { IfOk result (λ state. state ≡ first_words cluster.now) }
    ensures state { IfOk result (λ state. read state ≡ first cluster.now) }
{
    let shared = shared_copy(alloc, cluster)?;
    first_state_sharing(alloc, &shared)
}

// A copy of a cluster that can be shared.
fn shared_copy(alloc: Global, cluster: &Cluster) -> Result<Arc<Cluster>, OutOfMemory>
    ensures { IfOk result (λ shared. shared.value ≡ cluster.now) }
{
    Ok(Arc::new(alloc, cluster.copy(alloc)?)?)
}

/// The [`first_state`] of a cluster that the caller keeps too: the state shares it, and so do its copies.
pub fn first_state_sharing(alloc: Global, cluster: &Arc<Cluster>) -> Result<State, OutOfMemory>
    ensures words { IfOk result (λ state. state ≡ first_words cluster.now.value) }
    ensures state { IfOk result (λ state. read state ≡ first cluster.now.value) }
{
    let nodes = cluster.node_count();
    let apps = cluster.app_count();
    let modes = vec![in alloc; Mode::Down; nodes]?;
    let incarnations = vec![in alloc; 0; nodes]?;
    // With 64 nodes and 128 applications at most there are 8,192 pairs, 128 lists and 192 timers at most: 16 bits number them.
    let links = Lists::new(alloc, (nodes * apps) as u16, 2 * nodes as u16)?;
    links.formed();
    let restarts = Table::filled_with(alloc, nodes, apps, Restart::Temporary)?;
    let kinds = Table::filled_with(alloc, nodes, apps, Kind::Normal)?;
    let allowed = permissions_of(alloc, cluster)?;
    let standings = vec![in alloc; Standing::Quiet; apps]?;
    let wheel = Wheel::new(alloc, (nodes + apps) as u16)?;
    wheel.formed();
    let cluster = Arc::try_clone(cluster)?;
    Ok(State {
        cluster,
        time: 0,
        modes,
        incarnations,
        links,
        restarts,
        kinds,
        allowed,
        standings,
        wheel,
    })
}

// The permissions that are configured, node by node.
#[tactic(auto, using(crate::proofs::FirstStates::flat_map_numbered_more), unfolding(crate::specs::Numbers::nodes_of))]
fn permissions_of(alloc: Global, cluster: &Cluster) -> Result<Table<bool>, OutOfMemory>
    ensures { IfOk result (λ table. table ≡ map (configured cluster.now) (nodes_of cluster.now)) }
{
    let nodes = cluster.node_count();
    let apps = cluster.app_count();
    let mut permissions = Vec::with_capacity(alloc, nodes * apps)?;
    for number in 0..nodes {
        push_permissions(&mut permissions, cluster, Node(number as u8))?;
    }
    Ok(Table::of(permissions, nodes, apps))
}

// Adds the permissions that are configured at a node.
#[tactic(auto, using(crate::proofs::FirstStates::map_numbered_more), unfolding(crate::specs::First::configured, crate::specs::Numbers::apps_of))]
fn push_permissions(
    permissions: &mut Vec<bool>,
    cluster: &Cluster,
    node: Node,
) -> Result<(), OutOfMemory>
    requires { node.0 < node_count cluster.now }
    ensures { IfOk result
        (λ _. permissions.new.items ≡ permissions.old.items ++ configured cluster.now node) }
{
    for number in 0..cluster.app_count() {
        permissions.push(cluster.permitted(node, App(number as u8)))?;
    }
    Ok(())
}

impl Duplicate for State {
    fn copy(&self, alloc: Global) -> Result<State, OutOfMemory>
        ensures { IfOk result (λ copy. copy ≡ self.now) }
    {
        State::copy(self, alloc)
    }
}
