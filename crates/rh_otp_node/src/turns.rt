//! Turns of a node's processes.

ghost use Rattle.std.specs.Prelude.{◌≡◌, ◌≤◌, IfOk, OnOk};
ghost use Rattle.rh_model.specs.ClusterView.{is_platform};
ghost use Rattle.rh_otp_node.specs.Turns.{is_here, running_here, platform_count, weight_of, controlled_by, terminated_by, handled_by, introduced_by};

use crate::node::LiveNode;
use rh_base::OutOfMemory;
use rh_model::{App, Cluster, Node};
use rh_otp_controller::{Controller, Place, Turn};
use rh_otp_dist::{Asked, Turn as DistTurn};
use rh_otp_model::{Message, Output, Own};
use std::alloc::Global;
use std::mem;

// Does it run here?
fn is_here(place: Place) -> bool
    ensures { result ≡ is_here place }
{
    matches!(place, Place::Here)
}

// How many of these run here.
fn running_here(rows: &[(App, Place)]) -> usize
    ensures { result ≡ running_here rows.now }
{
    rows.iter().filter(|row| is_here(row.1)).count()
}

// Has the node the platform name of this number?
fn has_platform(cluster: &Cluster, node: Node, platform: u16) -> bool
    ensures { result ≡ is_platform cluster.now node platform }
{
    cluster.is_within();
    (node.0 as usize) < cluster.node_count()
        && (platform as usize) < cluster.platform_count()
        && cluster.is_platform(node, platform)
}

// How many names of the platform the node has.
#[tactic(auto, using(crate::proofs::Apps::count_more))]
fn platform_count(cluster: &Cluster, node: Node) -> u32
    ensures count { result ≡ platform_count cluster.now node }
    ensures few { result ≤ 256 }
{
    cluster.is_within();
    let mut count = 0;
    for platform in 0..cluster.platform_count() {
        if has_platform(cluster, node, platform as u16) {
            count += 1;
        }
    }
    count
}

impl LiveNode {
    /// length(application:which_applications()): how many applications run here, with those of the platform.
    pub fn weight(&self, cluster: &Cluster, node: Node) -> u32
        ensures { result ≡ weight_of cluster.now node self.now }
    {
        let running = running_here(self.controller.running());
        let most = u32::MAX - 256;
        let running = if running < most as usize {
            running as u32
        } else {
            most
        };
        platform_count(cluster, node) + running
    }

    /// The controller handles a message; what it has done is answered.
    #[tactic(auto, unfolding(crate::specs::Turns::controlled_by))]
    pub fn control(
        &mut self,
        alloc: Global,
        cluster: &Cluster,
        own: &Own,
        node: Node,
        message: Message,
    ) -> Result<Vec<Output>, OutOfMemory>
        ensures out { IfOk result (λ out. out.items
            ≡ (controlled_by cluster.now own.now node message self.old).1) }
        ensures state { OnOk result (self.new
            ≡ (controlled_by cluster.now own.now node message self.old).0) }
    {
        let here = self.here(node);
        let none = Controller::new(alloc, Vec::new(alloc));
        let controller = mem::replace(&mut self.controller, none);
        let mut turn = Turn::new(alloc, cluster, own, here, controller);
        turn.receive(message)?;
        let (controller, out) = turn.into_parts();
        self.controller = controller;
        Ok(out)
    }

    /// The controller has ended: what runs here stops. What it has done is answered.
    #[tactic(auto, unfolding(crate::specs::Turns::terminated_by))]
    pub fn terminate(
        &mut self,
        alloc: Global,
        cluster: &Cluster,
        own: &Own,
        node: Node,
    ) -> Result<Vec<Output>, OutOfMemory>
        ensures out { IfOk result (λ out. out.items
            ≡ (terminated_by cluster.now own.now node self.old).1) }
        ensures state { OnOk result (self.new
            ≡ (terminated_by cluster.now own.now node self.old).0) }
    {
        let here = self.here(node);
        let none = Controller::new(alloc, Vec::new(alloc));
        let controller = mem::replace(&mut self.controller, none);
        let mut turn = Turn::new(alloc, cluster, own, here, controller);
        turn.terminate(alloc)?;
        let (controller, out) = turn.into_parts();
        self.controller = controller;
        self.is_stopped = true;
        Ok(out)
    }

    /// The dist_ac handles the message that it takes next, if there is one; what it has done is answered.
    #[tactic(auto, unfolding(crate::specs::Turns::handled_by))]
    pub fn handle_next(
        &mut self,
        alloc: Global,
        cluster: &Cluster,
        own: &Own,
        node: Node,
        asked: Asked,
    ) -> Result<Vec<Output>, OutOfMemory>
        ensures out { IfOk result (λ out. out.items
            ≡ (handled_by cluster.now own.now node asked self.old).1) }
        ensures state { OnOk result (self.new
            ≡ (handled_by cluster.now own.now node asked self.old).0) }
    {
        let here = self.here(node);
        let Some(dist) = mem::replace(&mut self.dist, None) else {
            return Ok(Vec::new(alloc));
        };
        let next = dist.next_mail();
        let mut turn = DistTurn::new(alloc, cluster, own, here, asked, dist);
        if let Some(place) = next {
            turn.handle_next(place)?;
        }
        let (dist, out) = turn.into_parts();
        self.dist = Some(dist);
        Ok(out)
    }

    /// introduce_me/2: the dist_ac introduces itself to these nodes; what it has done is answered.
    #[tactic(auto, unfolding(crate::specs::Turns::introduced_by))]
    pub fn introduce(
        &mut self,
        alloc: Global,
        cluster: &Cluster,
        own: &Own,
        node: Node,
        nodes: &[Node],
    ) -> Result<Vec<Output>, OutOfMemory>
        ensures out { IfOk result (λ out. out.items
            ≡ (introduced_by cluster.now own.now node nodes.now self.old).1) }
        ensures state { OnOk result (self.new
            ≡ (introduced_by cluster.now own.now node nodes.now self.old).0) }
    {
        let here = self.here(node);
        let Some(dist) = mem::replace(&mut self.dist, None) else {
            return Ok(Vec::new(alloc));
        };
        let asked = Asked {
            weight: 0,
            has_lock: false,
            burns: false,
        };
        let mut turn = DistTurn::new(alloc, cluster, own, here, asked, dist);
        turn.introduce(nodes)?;
        let (dist, out) = turn.into_parts();
        self.dist = Some(dist);
        Ok(out)
    }
}
