//! A simulation of live nodes, with undo and redo.

ghost use Rattle.std.specs.Prelude.{◌≡◌, ◌∷◌, ◌++◌, ◌<◌, ◌+◌, ◌-◌, [], length, replicate, slice_get, IfOk, IsTrue, ◌↔◌};
ghost use Rattle.std.specs.Option.{option_map};
ghost use Rattle.rh_model.specs.ClusterView.{node_count};
ghost use Rattle.rh_history.specs.HistoryView.{at_step};
ghost use Rattle.rh_otp_sim.specs.Sim.{first_cells, opened, without_past, live_in, net_in, can_undo, can_redo, at_step_of};

use rh_base::{Duplicate, OutOfMemory, copies_of};
use rh_history::History;
use rh_model::{Cluster, Node};
use rh_otp_model::OwnFile;
use rh_otp_net::Order;
use rh_otp_node::LiveNode;
use rh_otp_system::{Cell, Net};
use std::alloc::Global;
use std::marker::Model;
use std::sync::Arc;

/// A simulation of live nodes.
#[derive(Drop)]
pub struct LiveSim {
    pub(crate) cluster: Cluster,
    // A simulation shares them with those that were made of it.
    pub(crate) files: Arc<Vec<OwnFile>>,
    // In which order messages are taken at each command.
    pub(crate) order: Order,
    // A cell for each node, and the last one for what is between them.
    pub(crate) history: History<Cell>,
}

/// Contracts see a `LiveSim` as its parts.
impl Model for LiveSim {
    ghost use Rattle.rh_history.specs.HistoryView.{IsClosed};
    ghost use Rattle.rh_otp_sim.specs.Sim.{LiveSimView};

    ghost Value = { LiveSimView };

    ghost view = { λ s. record {
      cluster = s.cluster;
      files = s.files.value.items;
      order = s.order;
      history = s.history;
    } };

    ghost invariant = { λ s. IsClosed s.history };
}

// The cells of a system in which no node has begun.
fn first_cells(alloc: Global, nodes: usize) -> Result<Vec<Cell>, OutOfMemory>
    ensures { IfOk result (λ cells. cells.items ≡ first_cells nodes) }
{
    let mut cells = Vec::new(alloc);
    for number in 0..nodes {
        let _number = number;
        cells.push(Cell::Node(LiveNode::new(alloc)))?;
    }
    cells.push(Cell::Net(Net::new(alloc)))?;
    Ok(cells)
}

impl LiveSim {
    /// The simulation of this cluster, whose nodes' own files say this, with messages taken in this order at each command; no node
    /// has begun.
    pub fn open(
        alloc: Global,
        cluster: Cluster,
        files: Vec<OwnFile>,
        order: Order,
    ) -> Result<LiveSim, OutOfMemory>
        ensures { IfOk result (λ sim. sim ≡ opened cluster files.items order) }
    {
        let cells = first_cells(alloc, cluster.node_count())?;
        Ok(LiveSim {
            cluster,
            files: Arc::new(alloc, files)?,
            order,
            history: History::new(alloc, cells),
        })
    }

    /// The simulation without its past, in memory of its own: its cells are those with which it began, and no step is done. What the
    /// nodes' own files say lies in memory once.
    pub fn without_past(&self, alloc: Global) -> Result<LiveSim, OutOfMemory>
        ensures { IfOk result (λ sim. sim ≡ without_past self.now) }
    {
        let cells = copies_of(alloc, self.history.cells())?;
        Ok(LiveSim {
            cluster: self.cluster.copy(alloc)?,
            files: Arc::try_clone(&self.files)?,
            order: self.order,
            history: History::new(alloc, cells),
        })
    }

    /// The cluster.
    pub fn cluster(&self) -> &Cluster
        ensures { result.now ≡ self.now.cluster }
    {
        &self.cluster
    }

    /// A node, if there is one of this number.
    pub fn live(&self, node: Node) -> Option<&LiveNode>
        ensures { option_map (λ v. v.now) result ≡ live_in self.now node }
    {
        self.history.cells().get(node.0 as usize)?.live()
    }

    /// What a node's own file says, if there is one of this number.
    pub fn file(&self, node: Node) -> Option<&OwnFile>
        ensures { option_map (λ f. f.now) result ≡ slice_get self.now.files node.0 }
    {
        self.files.as_slice().get(node.0 as usize)
    }

    /// What is between the nodes, in memory of its own.
    pub fn net(&self, alloc: Global) -> Result<Net, OutOfMemory>
        ensures { IfOk result (λ net. net ≡ net_in self.now) }
    {
        match self.history.cells().get(self.cluster.node_count()) {
            Some(Cell::Net(net)) => net.copy(alloc),
            _ => Ok(Net::new(alloc)),
        }
    }

    /// How many steps are done.
    pub fn cursor(&self) -> usize
        ensures { result ≡ self.now.history.cursor }
    {
        self.history.cursor()
    }

    /// How many steps there are, with those that can be made again.
    pub fn steps(&self) -> usize
        ensures { result ≡ length self.now.history.states - 1 }
    {
        self.history.steps()
    }

    /// Takes the last step back, and answers whether there is one. Without one nothing changes.
    pub fn undo(&mut self) -> bool
        ensures was { result ≡ can_undo self.old }
        ensures state { self.new ≡ undone self.old }
    {
        if self.history.cursor() == 0 {
            return false;
        }
        self.history.undo();
        true
    }

    /// Makes the next step again, and answers whether there is one. Without one nothing changes.
    pub fn redo(&mut self) -> bool
        ensures was { result ≡ can_redo self.old }
        ensures state { self.new ≡ redone self.old }
    {
        self.history.is_history();
        if self.history.cursor() >= self.history.steps() {
            return false;
        }
        self.history.redo();
        true
    }

    /// Takes all steps back, and says how many.
    pub fn undo_all(&mut self) -> usize
        ensures count { result ≡ self.old.history.cursor }
        ensures state { self.new ≡ at_step_of 0 self.old }
    {
        self.history.undo_all()
    }

    /// Makes all steps again, and says how many.
    pub fn redo_all(&mut self) -> usize
        ensures count { result ≡ length self.old.history.states - 1 - self.old.history.cursor }
        ensures state { self.new ≡ at_step_of (length self.old.history.states - 1) self.old }
    {
        self.history.redo_all()
    }
}

ghost use Rattle.rh_otp_sim.specs.Sim.{undone, redone};
