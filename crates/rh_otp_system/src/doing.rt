//! What a command does at first.

ghost use Rattle.std.specs.Prelude.{◌≡◌, ◌+◌, ◌^◌, ◌<◌, IfOk, OnOk, Some, None};
ghost use Rattle.rh_model.specs.ClusterView.{node_count};
ghost use Rattle.rh_otp_system.specs.State.{node_at};
ghost use Rattle.rh_otp_system.specs.Doing.{begun_in, begun_at, seen_at_once, all_seen, with_timeout, waited, waited_for, booted, called, fired, ticked};

use crate::calls::{Ask, Call, Stage};
use crate::system::System;
use rh_base::{Duplicate, OutOfMemory};
use rh_model::{App, Node};
use rh_otp_model::{Message, Role, Wait};
use rh_otp_net::{Order, Timer};

/// A node begins.
impl<'a> System<'a> {
    // kernel sees a node of its lists that is alive.
    fn see_alive(&mut self, node: Node, other: Node) -> Result<(), OutOfMemory>
        ensures { OnOk result (self.new ≡ seen_at_once node other self.old) }
    {
        if !self.is_alive(other) {
            return Ok(());
        }
        self.reach(node, other)?;
        self.send_up(node, other)
    }

    // All that are alive of these.
    fn see_all(&mut self, node: Node, others: &[Node]) -> Result<(), OutOfMemory>
        ensures { OnOk result (self.new ≡ all_seen node others.now self.old) }
    {
        for other in others {
            self.see_alive(node, *other)?;
        }
        Ok(())
    }

    // The nodes without which it ends, of those that it waits for still.
    fn mandatory(&self, node: Node) -> Result<Vec<Node>, OutOfMemory>
        ensures { IfOk result (λ nodes. nodes.items ≡ (node_at self.now node).mandatory) }
    {
        match self.live(node) {
            Some(live) => Ok(Vec::from_slice(self.alloc, live.mandatory())?),
            None => Ok(Vec::new(self.alloc)),
        }
    }

    // The others that it waits for still.
    fn optional(&self, node: Node) -> Result<Vec<Node>, OutOfMemory>
        ensures { IfOk result (λ nodes. nodes.items ≡ (node_at self.now node).optional) }
    {
        match self.live(node) {
            Some(live) => Ok(Vec::from_slice(self.alloc, live.optional())?),
            None => Ok(Vec::new(self.alloc)),
        }
    }

    // sync_nodes_timeout, where there is one.
    fn set_timeout(&mut self, node: Node, time: Option<u64>) -> Result<(), OutOfMemory>
        ensures { OnOk result (self.new ≡ with_timeout node time self.old) }
    {
        let Some(time) = time else {
            return Ok(());
        };
        let to = self.process(node, Role::KernelConfig);
        self.after(time, to, Message::Timeout)
    }

    // sync_nodes/0, wait_nodes/2: the nodes of its lists.
    #[tactic(auto, unfolding(crate::specs::Doing::waited_for))]
    fn wait_for(&mut self, node: Node, time: Option<u64>) -> Result<(), OutOfMemory>
        ensures { OnOk result (self.new ≡ waited_for node time self.old) }
    {
        let mandatory = self.mandatory(node)?;
        let optional = self.optional(node)?;
        self.see_all(node, mandatory.as_slice())?;
        self.see_all(node, optional.as_slice())?;
        self.set_timeout(node, time)?;
        self.go_on(node)
    }

    // How it waits by its own file.
    fn wait_by(&mut self, node: Node, wait: Wait) -> Result<(), OutOfMemory>
        ensures { OnOk result (self.new ≡ waited wait node self.old) }
    {
        match wait {
            Wait::Unset => self.join(node),
            Wait::Refused => self.end(node),
            Wait::After(time) => self.wait_for(node, Some(time)),
            Wait::Forever => self.wait_for(node, None),
        }
    }

    // Its processes begin.
    #[tactic(auto, using(crate::proofs::Node::put_back))]
    fn begin_here(&mut self, node: Node) -> Result<(), OutOfMemory>
        requires node { node.0 < node_count self.old.cluster }
        requires life { (node_at self.old node).life + 1 < 2 ^ 32 }
        ensures { OnOk result (self.new ≡ begun_in node self.old) }
    {
        let live = self.take_node(node)?;
        let own = self.own(node);
        let next = live.begin(self.alloc, self.cluster, own, node)?;
        self.put_node(node, next);
        Ok(())
    }

    // And it is alive.
    fn begin(&mut self, node: Node) -> Result<(), OutOfMemory>
        requires node { node.0 < node_count self.old.cluster }
        requires life { (node_at self.old node).life + 1 < 2 ^ 32 }
        ensures { OnOk result (self.new ≡ begun_at node self.old) }
    {
        self.begin_here(node)?;
        self.net.alive.push(node)?;
        Ok(())
    }

    /// A node begins, one more time. After an error the system is good for nothing.
    #[tactic(auto, unfolding(crate::specs::Doing::booted))]
    pub fn boot(&mut self, node: Node) -> Result<(), OutOfMemory>
        requires node { node.0 < node_count self.old.cluster }
        requires life { (node_at self.old node).life + 1 < 2 ^ 32 }
        ensures { OnOk result (self.new ≡ booted node self.old) }
    {
        self.begin(node)?;
        let wait = self.wait(node);
        self.wait_by(node, wait)
    }
}

/// Calls.
impl<'a> System<'a> {
    // What a call does at first.
    fn begin_call(&mut self, place: usize, call: &Call) -> Result<(), OutOfMemory>
        ensures { OnOk result (self.new ≡ first_done place call.now self.old) }
    {
        if call.is_takeover() {
            return self.go_on_call(place);
        }
        let from = call.process();
        let to = self.process_of(from, Role::Controller);
        self.send(from, to, call.first_message())
    }

    /// An operator calls at a node. After an error the system is good for nothing.
    #[tactic(auto, unfolding(crate::specs::Doing::called))]
    pub fn call(&mut self, ask: Ask, node: Node, app: App) -> Result<(), OutOfMemory>
        requires { self.old.last_call + 1 < 2 ^ 32 }
        ensures { OnOk result (self.new ≡ called ask node app self.old) }
    {
        let number = self.net.last_call + 1;
        let stage = if matches!(ask, Ask::Takeover(_)) {
            Stage::Synchronised
        } else {
            Stage::Controller
        };
        let call = Call {
            number,
            ask,
            node,
            life: self.life(node),
            app,
            only_loaded: false,
            stage,
        };
        let place = self.net.calls.len();
        let kept = call.copy(self.alloc)?;
        self.net.calls.push(kept)?;
        self.net.last_call = number;
        self.begin_call(place, &call)
    }
}

ghost use Rattle.rh_otp_system.specs.Doing.{first_done};

/// Time passes.
impl<'a> System<'a> {
    // A timer fires.
    fn fire(&mut self, timer: Timer) -> Result<(), OutOfMemory>
        ensures { OnOk result (self.new ≡ fired timer self.old) }
    {
        let Timer {
            due: _,
            step: _,
            to,
            message,
        } = timer;
        let from = self.process_of(to, Role::Timer);
        self.send(from, to, message)
    }

    // All of these.
    #[tactic(auto, using(crate::proofs::Counting::one_more_timer))]
    fn fire_all(&mut self, timers: Vec<Timer>) -> Result<(), OutOfMemory>
        ensures { OnOk result (self.new ≡ all_fired timers.items self.old) }
    {
        for timer in timers {
            self.fire(timer)?;
        }
        Ok(())
    }

    // The timers that are due next fire, and then all moves in this order until nothing does. Does nothing move any more?
    #[tactic(auto, unfolding(crate::specs::Doing::fired_next))]
    fn fire_next(&mut self, due: u64, most: u32, order: Order) -> Result<bool, OutOfMemory>
        ensures is_quiet { IfOk result
            (λ is_quiet. is_quiet ≡ is_settled_by most order (fired_next due self.old)) }
        ensures state { OnOk result (self.new ≡ settled most order (fired_next due self.old)) }
    {
        self.net.clock = due;
        let timers = self.net.timers.fire_next(self.alloc)?;
        self.fire_all(timers)?;
        self.settle(most, order)
    }

    // When the next timer is due, if it is until then.
    fn next_due(&self, end: u64) -> Option<u64>
        ensures { result ≡ next_until end self.now }
    {
        match self.net.timers.next_due() {
            Some((due, _)) if due <= end => Some(due),
            _ => None,
        }
    }

    // The timers that are due until then fire, so often at most. Are all of them over, and does nothing move?
    fn pass(&mut self, end: u64, most: u32, order: Order) -> Result<bool, OutOfMemory>
        ensures is_quiet { IfOk result
            (λ is_quiet. is_quiet ≡ is_past most end most order self.old) }
        ensures state { OnOk result (self.new ≡ passed most end most order self.old) }
    {
        for number in 0..most {
            let _number = number;
            let Some(due) = self.next_due(end) else {
                return Ok(true);
            };
            if !self.fire_next(due, most, order)? {
                return Ok(false);
            }
        }
        Ok(false)
    }

    /// Time passes until the clock stands there. So often at most something moves at a time, in this order; says whether nothing
    /// moves any more at the end. Of timers that are due at once, those of an earlier command fire first. After an error the system
    /// is good for nothing.
    #[tactic(auto, unfolding(crate::specs::Doing::ticked, crate::specs::Doing::is_ticked))]
    pub fn tick(&mut self, end: u64, most: u32, order: Order) -> Result<bool, OutOfMemory>
        ensures is_quiet { IfOk result (λ is_quiet. is_quiet ≡ is_ticked end most order self.old) }
        ensures state { OnOk result (self.new ≡ ticked end most order self.old) }
    {
        self.is_ticking = true;
        if !self.settle(most, order)? {
            return Ok(false);
        }
        let is_quiet = self.pass(end, most, order)?;
        self.net.clock = end;
        self.is_ticking = false;
        Ok(is_quiet)
    }
}

ghost use Rattle.rh_otp_system.specs.Moves.{settled, is_settled_by};
ghost use Rattle.rh_otp_system.specs.Doing.{all_fired, fired_next, next_until, passed, is_past, is_ticked};
