//! What can move next, and that it moves.

ghost use Rattle.std.specs.Prelude.{◌≡◌, ◌==◌, IfOk, OnOk, Some, None, find};
ghost use Rattle.rh_otp_system.specs.Moves.{is_among_sleepers, is_awake, can_take_lock, can_unpark, can_go_on_at, can_call, first_call_from, first_call, is_to_end, next_node, next_end, next_move, made};

use crate::calls::{Call, Stage};
use crate::slow::Slow;
use crate::system::System;
use rh_base::OutOfMemory;
use rh_model::Node;
use rh_otp_dist::Stand;
use rh_otp_model::{Process, Requester, Role};
use rh_otp_net::{Order, is_process};

/// Something that moves.
#[derive(Clone, Copy, Debug, PartialEq, Eq)]
pub enum Move {
    /// The message at this place arrives, or the first one of its pair of processes.
    Deliver(usize),
    /// What takes longer, and stands at this place, comes about.
    Slow(usize),
    /// The dist_ac of this node gets a lock that it asks for again and again.
    Lock(Node),
    /// The call at this place goes on.
    Call(usize),
    /// This node goes on to its end, since its controller has ended.
    End(Node),
}

/// What can move.
impl<'a> System<'a> {
    // Is the process one of those who sleep before they ask for a lock again?
    fn is_among_sleepers(&self, process: Process) -> bool
        ensures { result ≡ is_among_sleepers process self.now }
    {
        let sleepers = self.net.asleep.as_slice();
        sleepers.iter().any(|other| is_process(*other, process))
    }

    // Is the process awake? Where time passes all are.
    fn is_awake(&self, process: Process) -> bool
        ensures { result ≡ is_awake process self.now }
    {
        self.is_ticking || !self.is_among_sleepers(process)
    }

    // Is the lock of all that synchronise free, and does the node's dist_ac wait for it?
    fn can_take_lock(&self, node: Node) -> Result<bool, OutOfMemory>
        ensures { IfOk result (λ can. can ≡ can_take_lock node self.now) }
    {
        let me = self.process(node, Role::DistAc);
        match self.lock_nodes(node)? {
            Some(nodes) => {
                Ok(self.is_awake(me) && self.net.locks.is_free(Requester::Sync, nodes.as_slice()))
            }
            None => Ok(false),
        }
    }

    // Is the lock of the node free, and was a start request parked that asks for it?
    fn can_unpark(&self, node: Node) -> bool
        ensures { result ≡ can_unpark node self.now }
    {
        let Some(live) = self.live(node) else {
            return false;
        };
        let Some(dist) = live.dist() else {
            return false;
        };
        let me = self.process(node, Role::DistAc);
        matches!(dist.stand(), Stand::Idle)
            && !dist.parked().is_empty()
            && self.net.locks.is_free(Requester::Alone(me), &[node])
    }

    // Can its dist_ac go on with a lock?
    fn can_lock(&self, node: Node) -> Result<bool, OutOfMemory>
        ensures { IfOk result (λ can. can ≡ can_go_on_at node self.now) }
    {
        Ok(self.can_take_lock(node)? || self.can_unpark(node))
    }

    // The first of these nodes whose dist_ac can.
    fn first_to_lock(&self, nodes: &[Node]) -> Result<Option<Node>, OutOfMemory>
        ensures { IfOk result (λ node. node ≡ find (λ n. can_go_on_at n self.now) nodes.now) }
    {
        for node in nodes {
            if self.can_lock(*node)? {
                return Ok(Some(*node));
            }
        }
        Ok(None)
    }

    // Can the call go on, and is it awake?
    fn can_call(&self, call: &Call) -> Result<bool, OutOfMemory>
        ensures { IfOk result (λ can. can ≡ can_call call.now self.now) }
    {
        Ok(self.is_awake(call.process()) && self.can_go_on(call)?)
    }

    // The place of the first call that can.
    fn first_call(&self) -> Result<Option<usize>, OutOfMemory>
        ensures { IfOk result (λ place. place ≡ first_call self.now) }
    {
        for (place, call) in self.net.calls.iter().enumerate() {
            if self.can_call(call)? {
                return Ok(Some(place));
            }
        }
        Ok(None)
    }

    // Has the node to go on to its end?
    fn is_to_end(&self, node: Node) -> bool
        ensures { result ≡ is_to_end node self.now }
    {
        match self.live(node) {
            Some(live) => live.is_ending() && (self.ends_soon || !live.is_stopped()),
            None => false,
        }
    }

    // The first node that has.
    fn first_to_end(&self) -> Option<Node>
        ensures { result ≡ next_end self.now }
    {
        for node in self.net.alive.as_slice() {
            if self.is_to_end(*node) {
                return Some(*node);
            }
        }
        None
    }

    // What moves next where nothing is on its way.
    fn quiet_move(&self) -> Result<Option<Move>, OutOfMemory>
        ensures { IfOk result (λ next. next ≡ quiet_move self.now) }
    {
        if let Some(node) = self.first_to_lock(self.net.alive.as_slice())? {
            return Ok(Some(Move::Lock(node)));
        }
        if let Some(place) = self.first_call()? {
            return Ok(Some(Move::Call(place)));
        }
        Ok(self.first_to_end().map(Move::End))
    }

    /// What moves next in this order, if anything does: messages; then what takes longer; then who asks for locks, and calls; then
    /// nodes that end. Of messages, and of what takes longer, the order decides which is the next.
    pub fn next_move(&self, order: Order) -> Result<Option<Move>, OutOfMemory>
        ensures { IfOk result (λ next. next ≡ next_move order self.now) }
    {
        let messages = self.messages.len();
        if messages > 0 {
            return Ok(Some(Move::Deliver(order.place(messages))));
        }
        let slow = self.slow.len();
        if slow > 0 {
            return Ok(Some(Move::Slow(order.place(slow))));
        }
        self.quiet_move()
    }
}

ghost use Rattle.rh_otp_system.specs.Moves.{quiet_move, slow_done, locked, to_end};

/// That it moves.
impl<'a> System<'a> {
    // What takes longer, and stands at this place, comes about.
    fn do_slow_at(&mut self, place: usize) -> Result<(), OutOfMemory>
        ensures { OnOk result (self.new ≡ slow_done place self.old) }
    {
        if place >= self.slow.len() {
            return Ok(());
        }
        let what = self.slow.remove(place);
        self.do_slowly(what)
    }

    // The first start request that was parked is sent again.
    #[tactic(auto, using(crate::proofs::Node::put_back))]
    fn unpark(&mut self, node: Node) -> Result<(), OutOfMemory>
        ensures { OnOk result (self.new ≡ unparked node self.old) }
    {
        let mut live = self.take_node(node)?;
        live.unpark()?;
        self.put_node(node, live);
        Ok(())
    }

    // A dist_ac goes on with a lock, and then with its mailbox.
    fn lock(&mut self, node: Node) -> Result<(), OutOfMemory>
        ensures { OnOk result (self.new ≡ locked node self.old) }
    {
        if self.can_take_lock(node)? {
            self.take_lock(node)?;
        } else {
            self.unpark(node)?;
        }
        self.work(node)
    }

    // A node goes on to its end.
    fn go_to_end(&mut self, node: Node) -> Result<(), OutOfMemory>
        ensures { OnOk result (self.new ≡ to_end node self.old) }
    {
        if self.ends_soon {
            self.end(node)
        } else {
            self.stop(node)
        }
    }

    /// It moves. After an error the system is good for nothing.
    #[tactic(auto, unfolding(crate::specs::Moves::made))]
    pub fn make(&mut self, next: Move) -> Result<(), OutOfMemory>
        ensures { OnOk result (self.new ≡ made next self.old) }
    {
        match next {
            Move::Deliver(place) => self.deliver(place),
            Move::Slow(place) => self.do_slow_at(place),
            Move::Lock(node) => self.lock(node),
            Move::Call(place) => self.go_on_call(place),
            Move::End(node) => self.go_to_end(node),
        }
    }
}

ghost use Rattle.rh_otp_system.specs.Moves.{unparked};

/// Until nothing moves.
impl<'a> System<'a> {
    // So often at most, in the order that begins so. Does nothing move any more?
    fn move_on(&mut self, most: u32, first: Order) -> Result<bool, OutOfMemory>
        ensures is_quiet { IfOk result
            (λ is_quiet. is_quiet ≡ is_quiet_behind most first self.old) }
        ensures state { OnOk result (self.new ≡ moved most first self.old) }
    {
        let mut order = first;
        for number in 0..most {
            let _number = number;
            let Some(next) = self.next_move(order)? else {
                return Ok(true);
            };
            order = order.next_order();
            self.make(next)?;
        }
        Ok(false)
    }

    /// Lets move what moves, so often at most and in this order, and says whether nothing moves any more. After an error the system
    /// is good for nothing.
    pub fn settle(&mut self, most: u32, order: Order) -> Result<bool, OutOfMemory>
        ensures is_quiet { IfOk result (λ is_quiet. is_quiet ≡ is_settled_by most order self.old) }
        ensures state { OnOk result (self.new ≡ settled most order self.old) }
    {
        self.answers.clear();
        self.move_on(most, order)
    }
}

ghost use Rattle.rh_otp_system.specs.Moves.{is_quiet_behind, moved, settled, is_settled_by};
