//! A command is over.

ghost use Rattle.std.specs.Prelude.{◌≡◌, ◌++◌, ◌∷◌, [], IfOk, OnOk, filter, not};
ghost use Rattle.rh_otp_system.specs.Resting.{held_back, sleeping_dists, call_held_back, sleeping_calls, rested, open_of, forgotten, crashed};
ghost use Rattle.rh_otp_system.specs.Calls.{is_done};

use crate::calls::{Call, Stage};
use crate::cell::Cell;
use crate::net::Net;
use crate::system::System;
use rh_base::OutOfMemory;
use rh_history::Draft;
use rh_model::Node;
use rh_otp_dist::Stand;
use rh_otp_model::{Event, Process, Requester, Role};

// Without those that were answered.
fn drop_done(calls: &mut Vec<Call>)
    ensures { calls.new.items ≡ open_of calls.old.items }
{
    calls.retain(|call| !call.is_done());
}

impl<'a> System<'a> {
    // Does the node's dist_ac wait for a lock that somebody holds?
    fn is_held_back(&self, node: Node) -> bool
        ensures { result ≡ held_back node self.now }
    {
        let Some(live) = self.live(node) else {
            return false;
        };
        let Some(dist) = live.dist() else {
            return false;
        };
        match dist.stand() {
            Stand::ForLock(nodes) => !self.net.locks.is_free(Requester::Sync, nodes.as_slice()),
            _ => false,
        }
    }

    // Those of these nodes' dist_acs that sleep now.
    fn sleeping_dists(&self, nodes: &[Node]) -> Result<Vec<Process>, OutOfMemory>
        ensures { IfOk result (λ found. found.items ≡ sleeping_dists nodes.now self.now) }
    {
        let mut found = Vec::new(self.alloc);
        for node in nodes {
            if self.is_held_back(*node) {
                found.push(self.process(*node, Role::DistAc))?;
            }
        }
        Ok(found)
    }

    // Does the call wait for a lock that somebody holds?
    fn is_call_held_back(&self, call: &Call) -> bool
        ensures { result ≡ call_held_back call.now self.now }
    {
        match &call.stage {
            Stage::Lock(nodes) => {
                let me = Requester::Alone(call.process());
                !self.net.locks.is_free(me, nodes.as_slice())
            }
            _ => false,
        }
    }

    // Those of these calls that sleep now.
    fn sleeping_calls(&self, calls: &[Call]) -> Result<Vec<Process>, OutOfMemory>
        ensures { IfOk result (λ found. found.items ≡ sleeping_calls calls.now self.now) }
    {
        let mut found = Vec::new(self.alloc);
        for call in calls {
            if self.is_call_held_back(call) {
                found.push(call.process())?;
            }
        }
        Ok(found)
    }

    /// A command is over: who waits for a lock that isn't free sleeps on when it becomes free, up to the next command, or until
    /// time passes. After an error the system is good for nothing.
    #[tactic(auto, unfolding(crate::specs::Resting::rested))]
    pub fn rest(&mut self) -> Result<(), OutOfMemory>
        ensures { OnOk result (self.new ≡ rested self.old) }
    {
        let mut asleep = self.sleeping_dists(self.net.alive.as_slice())?;
        let calls = self.sleeping_calls(self.net.calls.as_slice())?;
        asleep.extend_from_slice(calls.as_slice())?;
        self.net.asleep = asleep;
        Ok(())
    }

    /// A command begins: calls that were answered are forgotten, and it has the next number.
    #[tactic(auto, unfolding(crate::specs::Resting::forgotten))]
    pub fn begin_step(&mut self)
        ensures { self.new ≡ forgotten self.old }
    {
        drop_done(&mut self.net.calls);
        self.net.step = self.net.step.saturating_add(1);
    }

    /// A node ends at once.
    pub fn crash(&mut self, node: Node) -> Result<(), OutOfMemory>
        ensures { OnOk result (self.new ≡ crashed node self.old) }
    {
        self.end(node)
    }

    /// What has happened since the command began, as an observer has seen it.
    pub fn events(&self) -> &[Event]
        ensures { result.now ≡ self.now.events }
    {
        self.events.as_slice()
    }

    /// The calls that are open, and those that were answered.
    pub fn calls(&self) -> &[Call]
        ensures { result.now ≡ self.now.calls }
    {
        self.net.calls.as_slice()
    }

    /// The clock, in milliseconds.
    pub fn clock(&self) -> u64
        ensures { result ≡ self.now.clock }
    {
        self.net.clock
    }

    /// The nodes and what is between them.
    pub fn into_parts(self) -> (Draft<'a, Cell>, Net)
        ensures nodes { result.0 ≡ self.entry.nodes }
        ensures net { result.1 ≡ net_of self.entry }
    {
        let System {
            alloc: _,
            cluster: _,
            files: _,
            no_file: _,
            nodes,
            net,
            messages: _,
            slow: _,
            answers: _,
            events: _,
            is_ticking: _,
            ends_soon: _,
        } = self;
        (nodes, net)
    }
}

ghost use Rattle.rh_otp_system.specs.State.{net_of};
