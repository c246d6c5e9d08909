//! A dist_ac at work on its mailbox.

ghost use Rattle.std.specs.Prelude.{◌≡◌, ◌∷◌, [], IfOk, OnOk, Some, None, if◌then◌else◌};
ghost use Rattle.rh_otp_system.specs.Working.{around, own_lock, with_own_lock, pair_of, burns, answered, prepared, asked_for, behind_turn, handled, lock_nodes, introduced, take_lock, gone, gone_if, work, mailed};

use crate::slow::Answered;
use crate::system::System;
use rh_base::OutOfMemory;
use rh_model::{App, Group, Node};
use rh_otp_dist::{Asked, Need, Stand};
use rh_otp_model::{Message, Output, Requester, Role};
use rh_otp_node::LiveNode;

// So often two nodes answer each other's weight for an application, or introduction, before it is taken for endless.
const MOST_ANSWERS: usize = 20;

// The two nodes of an answer, that with the lower number first.
fn pair_of(node: Node, other: Node, app: Option<App>) -> Answered
    ensures { result ≡ pair_of node other app }
{
    if node.0 <= other.0 {
        Answered {
            one: node,
            two: other,
            app,
        }
    } else {
        Answered {
            one: other,
            two: node,
            app,
        }
    }
}

// Is it the same application, or none both times?
fn is_app(one: Option<App>, two: Option<App>) -> bool
    ensures { result ≡ is_app one two }
{
    match (one, two) {
        (Some(one), Some(two)) => one.0 == two.0,
        (None, None) => true,
        _ => false,
    }
}

// Is it an answer of the same two nodes?
fn is_answer(one: Answered, two: Answered) -> bool
    ensures { result ≡ is_answer one two }
{
    one.one.0 == two.one.0 && one.two.0 == two.two.0 && is_app(one.app, two.app)
}

ghost use Rattle.rh_otp_system.specs.Working.{is_app, is_answer};

// How often these two have answered one another.
fn answer_count(answers: &[Answered], pair: Answered) -> usize
    ensures { result ≡ answer_count answers.now pair }
{
    answers
        .iter()
        .filter(|other| is_answer(**other, pair))
        .count()
}

ghost use Rattle.rh_otp_system.specs.Working.{answer_count};

/// What a dist_ac asks of the system before it handles a message.
impl<'a> System<'a> {
    // The node itself, and those that it sees.
    pub(crate) fn around(&self, node: Node) -> Result<Vec<Node>, OutOfMemory>
        ensures { IfOk result (λ nodes. nodes.items ≡ around self.now node) }
    {
        let mut nodes = self.net.links.linked_with(self.alloc, node)?;
        nodes.insert(0, node)?;
        Ok(nodes)
    }

    // Takes the lock of the node itself for its dist_ac, if it is free.
    fn take_own_lock(&mut self, node: Node) -> Result<bool, OutOfMemory>
        ensures has { IfOk result (λ has. has ≡ own_lock node self.old) }
        ensures state { OnOk result (self.new ≡ with_own_lock node self.old) }
    {
        let me = self.process(node, Role::DistAc);
        self.net.locks.take(Requester::Alone(me), me, &[node])
    }

    // Counts that a node answers another one, and says whether that has no end.
    fn count_answer(&mut self, pair: Answered) -> Result<bool, OutOfMemory>
        ensures burns { IfOk result (λ b. b ≡ burns pair self.old) }
        ensures state { OnOk result (self.new ≡ answered pair self.old) }
    {
        let count = answer_count(self.answers.as_slice(), pair);
        self.answers.insert(0, pair)?;
        Ok(count >= MOST_ANSWERS)
    }

    // The lock, and whether the answer burns.
    fn prepare(&mut self, node: Node, need: Need) -> Result<(bool, bool), OutOfMemory>
        ensures told { IfOk result (λ told. told ≡ asked_for node need self.old) }
        ensures state { OnOk result (self.new ≡ prepared node need self.old) }
    {
        match need {
            Need::OwnLock => Ok((self.take_own_lock(node)?, false)),
            Need::Answer(other, app) => Ok((false, self.count_answer(pair_of(node, other, app))?)),
            Need::Nothing | Need::Lock => Ok((false, false)),
        }
    }
}

/// sync_dacs/1
impl<'a> System<'a> {
    // Those of these nodes that are alive.
    pub(crate) fn alive_of(&self, nodes: &[Node]) -> Result<Vec<Node>, OutOfMemory>
        ensures { IfOk result (λ found. found.items ≡ alive_of self.now nodes.now) }
    {
        let mut found = Vec::new(self.alloc);
        for node in nodes {
            if self.is_alive(*node) {
                found.push(*node)?;
            }
        }
        Ok(found)
    }

    // Those of these nodes that have a dist_ac.
    fn dists_of(&self, nodes: &[Node]) -> Result<Vec<Node>, OutOfMemory>
        ensures { IfOk result (λ found. found.items ≡ dists_of self.now nodes.now) }
    {
        let mut found = Vec::new(self.alloc);
        for node in nodes {
            if self.has_dist(*node) {
                found.push(*node)?;
            }
        }
        Ok(found)
    }

    // The nodes whose lock its dist_ac waits for, those that are alive, if it does.
    pub(crate) fn lock_nodes(&self, node: Node) -> Result<Option<Vec<Node>>, OutOfMemory>
        ensures { IfOk result
            (λ nodes. option_map (λ ns. ns.items) nodes ≡ lock_nodes node self.now) }
    {
        let Some(live) = self.live(node) else {
            return Ok(None);
        };
        let Some(dist) = live.dist() else {
            return Ok(None);
        };
        match dist.stand() {
            Stand::ForLock(nodes) => Ok(Some(self.alive_of(nodes.as_slice())?)),
            _ => Ok(None),
        }
    }

    // It introduces itself to these; what it has done is answered.
    #[tactic(auto, using(crate::proofs::Node::put_back))]
    fn introduce_to(&mut self, node: Node, others: &[Node]) -> Result<Vec<Output>, OutOfMemory>
        ensures out { IfOk result (λ out. out.items ≡ (introduction node others.now self.old).1) }
        ensures state { OnOk result
            (self.new ≡ with_node node (introduction node others.now self.old).0 self.old) }
    {
        let mut live = self.take_node(node)?;
        let own = self.own(node);
        let out = live.introduce(self.alloc, self.cluster, own, node, others)?;
        self.put_node(node, live);
        Ok(out)
    }

    // introduce_me/2: to all nodes that it sees and that have a dist_ac.
    fn introduce(&mut self, node: Node) -> Result<(), OutOfMemory>
        ensures { OnOk result (self.new ≡ introduced node self.old) }
    {
        let seen = self.net.links.linked_with(self.alloc, node)?;
        let others = self.dists_of(seen.as_slice())?;
        let out = self.introduce_to(node, others.as_slice())?;
        self.carry_out_all(node, out)
    }

    // Takes the lock {dist_ac, sync_dacs} at these nodes, if it is free: all that synchronise have it together.
    fn take_lock_at(&mut self, node: Node, nodes: &[Node]) -> Result<(), OutOfMemory>
        ensures { OnOk result (self.new ≡ take_lock_at node nodes.now self.old) }
    {
        let me = self.process(node, Role::DistAc);
        if self.net.locks.take(Requester::Sync, me, nodes)? {
            return self.introduce(node);
        }
        Ok(())
    }

    // The dist_ac goes on where it waits for the lock, if it does and the lock is free.
    #[tactic(auto, unfolding(crate::specs::Working::take_lock))]
    pub(crate) fn take_lock(&mut self, node: Node) -> Result<(), OutOfMemory>
        ensures { OnOk result (self.new ≡ take_lock node self.old) }
    {
        match self.lock_nodes(node)? {
            Some(nodes) => self.take_lock_at(node, nodes.as_slice()),
            None => Ok(()),
        }
    }

    // It waits for the lock at these nodes.
    #[tactic(auto, using(crate::proofs::Node::put_back))]
    fn set_waiting(&mut self, node: Node, nodes: Group) -> Result<(), OutOfMemory>
        ensures { OnOk result (self.new ≡ waiting_at node nodes self.old) }
    {
        let mut live = self.take_node(node)?;
        live.wait_for_lock(nodes);
        self.put_node(node, live);
        Ok(())
    }

    // handle_cast(init_sync, ..): it asks for the lock of all nodes that it sees now.
    #[tactic(auto, unfolding(crate::specs::Working::gone))]
    fn go(&mut self, node: Node) -> Result<(), OutOfMemory>
        ensures { OnOk result (self.new ≡ gone node self.old) }
    {
        let nodes = self.around(node)?;
        self.set_waiting(node, Group::of(nodes))?;
        self.take_lock(node)
    }
}

ghost use Rattle.std.specs.Option.{option_map};
ghost use Rattle.rh_otp_system.specs.Working.{alive_of, dists_of, take_lock_at, introduction, waiting_at, asked_at, turn_of, with_mail, need_at, has_next_at, mail_count_at};
ghost use Rattle.rh_otp_node.specs.Turns.{weight_of};
ghost use Rattle.rh_otp_system.specs.State.{node_at, with_node};

/// Its mailbox.
impl<'a> System<'a> {
    // What the message that it takes next asks of the system.
    fn need(&self, node: Node) -> Need
        ensures { result ≡ need_at self.now node }
    {
        match self.live(node) {
            Some(live) => live.need(),
            None => Need::Nothing,
        }
    }

    // Is there a message that it takes where it stands?
    fn has_next(&self, node: Node) -> bool
        ensures { result ≡ has_next_at self.now node }
    {
        match self.live(node) {
            Some(live) => live.has_next(),
            None => false,
        }
    }

    // How many messages it hasn't handled.
    fn mail_count(&self, node: Node) -> usize
        ensures { result ≡ mail_count_at self.now node }
    {
        match self.live(node) {
            Some(live) => live.mail_count(),
            None => 0,
        }
    }

    // How many applications run at the node.
    fn weight(&self, node: Node) -> u32
        ensures { result ≡ weight_of self.now.cluster node (node_at self.now node) }
    {
        match self.live(node) {
            Some(live) => live.weight(self.cluster, node),
            None => {
                let never_begun = LiveNode::new(self.alloc);
                never_begun.weight(self.cluster, node)
            }
        }
    }

    // What it is told.
    fn asked(&self, node: Node, has_lock: bool, burns: bool) -> Asked
        ensures { result ≡ asked_at node has_lock burns self.now }
    {
        Asked {
            weight: self.weight(node),
            has_lock,
            burns,
        }
    }

    // It handles the message, with what it is told; what it has done is answered.
    #[tactic(auto, using(crate::proofs::Node::put_back))]
    fn take_turn(&mut self, node: Node, asked: Asked) -> Result<Vec<Output>, OutOfMemory>
        ensures out { IfOk result (λ out. out.items ≡ (turn_of node asked self.old).1) }
        ensures state { OnOk result
            (self.new ≡ with_node node (turn_of node asked self.old).0 self.old) }
    {
        let mut live = self.take_node(node)?;
        let own = self.own(node);
        let out = live.handle_next(self.alloc, self.cluster, own, node, asked)?;
        self.put_node(node, live);
        Ok(out)
    }

    // The turn itself, with what it was told.
    fn turn(&mut self, node: Node, has_lock: bool, burns: bool) -> Result<(), OutOfMemory>
        ensures { OnOk result (self.new ≡ behind_turn node has_lock burns self.old) }
    {
        let asked = self.asked(node, has_lock, burns);
        let out = self.take_turn(node, asked)?;
        self.carry_out_all(node, out)
    }

    // Where its node's wait is over it goes on to synchronise.
    fn go_if(&mut self, node: Node, need: Need) -> Result<(), OutOfMemory>
        ensures { OnOk result (self.new ≡ gone_if node need self.old) }
    {
        match need {
            Need::Lock => self.go(node),
            _ => Ok(()),
        }
    }

    // Handles the message that it takes next.
    #[tactic(auto, unfolding(crate::specs::Working::handled))]
    fn handle(&mut self, node: Node) -> Result<(), OutOfMemory>
        ensures { OnOk result (self.new ≡ handled node self.old) }
    {
        let need = self.need(node);
        let (has_lock, burns) = self.prepare(node, need)?;
        self.turn(node, has_lock, burns)?;
        self.go_if(node, need)
    }

    // Handles what can be handled of the mailbox: no more than there is in it now.
    #[tactic(auto, unfolding(crate::specs::Working::work))]
    pub(crate) fn work(&mut self, node: Node) -> Result<(), OutOfMemory>
        ensures { OnOk result (self.new ≡ work node self.old) }
    {
        for number in 0..self.mail_count(node) {
            let _number = number;
            if !self.has_next(node) {
                return Ok(());
            }
            self.handle(node)?;
        }
        Ok(())
    }

    // A message comes into its mailbox.
    #[tactic(auto, using(crate::proofs::Node::put_back))]
    fn add_mail(&mut self, node: Node, message: Message) -> Result<(), OutOfMemory>
        ensures { OnOk result (self.new ≡ with_mail node message self.old) }
    {
        let mut live = self.take_node(node)?;
        live.mail(message)?;
        self.put_node(node, live);
        Ok(())
    }

    // The same, and it goes on as far as it can.
    #[tactic(auto, unfolding(crate::specs::Working::mailed))]
    pub(crate) fn mail(&mut self, node: Node, message: Message) -> Result<(), OutOfMemory>
        ensures { OnOk result (self.new ≡ mailed node message self.old) }
    {
        self.add_mail(node, message)?;
        self.work(node)
    }
}
