//! The calls of an operator, as they go on.

ghost use Rattle.std.specs.Prelude.{◌≡◌, IfOk, OnOk, slice_get, position, ◌==◌};
ghost use Rattle.rh_otp_system.specs.Calls.{is_permit};
ghost use Rattle.rh_otp_system.specs.Calling.{with_stage, with_loaded, is_synchronised_at, is_asked_on, sent_second, lock_call, ask_nodes, wait_for_lock, go_on_call, can_go_on, done_with, answered_by, nodes_told, call_received, call_place};

use crate::calls::{Ask, Call, Stage};
use crate::system::System;
use rh_base::{Duplicate, OutOfMemory};
use rh_model::{App, Group, Node};
use rh_otp_model::{Event, Message, Outcome, Requester, Role};

// Does an answer of the controller send the call on to dist_ac?
fn is_asked_on(ask: Ask, outcome: Outcome) -> bool
    ensures { result ≡ is_asked_on ask outcome }
{
    matches!(ask, Ask::Permit(_)) && matches!(outcome, Outcome::IsStarted | Outcome::IsOnlyLoaded)
}

/// How a call stands.
impl<'a> System<'a> {
    // The place of the call of this number.
    fn call_place(&self, number: u32) -> Option<usize>
        ensures { result ≡ call_place number self.now }
    {
        self.net.calls.iter().position(|call| call.number == number)
    }

    // The call at this place waits for this now.
    fn set_stage(&mut self, place: usize, stage: Stage)
        ensures { self.new ≡ with_stage place stage self.old }
    {
        if let Some(call) = self.net.calls.get_mut(place) {
            call.stage = stage;
        }
    }

    // The controller has said whether the application of the call is started.
    fn set_loaded(&mut self, place: usize, only_loaded: bool)
        ensures { self.new ≡ with_loaded place only_loaded self.old }
    {
        if let Some(call) = self.net.calls.get_mut(place) {
            call.only_loaded = only_loaded;
        }
    }

    // Has the dist_ac of the node synchronised?
    fn is_synchronised(&self, node: Node) -> bool
        ensures { result ≡ is_synchronised_at node self.now }
    {
        let Some(live) = self.live(node) else {
            return false;
        };
        match live.dist() {
            Some(dist) => dist.is_synchronised(),
            None => false,
        }
    }

    // Can a call go on by itself?
    pub(crate) fn can_go_on(&self, call: &Call) -> Result<bool, OutOfMemory>
        ensures { IfOk result (λ can. can ≡ can_go_on call.now self.now) }
    {
        if !self.lives(call.process()) {
            return Ok(false);
        }
        let me = call.process();
        match &call.stage {
            Stage::Synchronised => Ok(self.is_synchronised(call.node)),
            Stage::Lock(nodes) => {
                let nodes = self.alive_of(nodes.as_slice())?;
                Ok(
                    self.net
                        .locks
                        .is_free(Requester::Alone(me), nodes.as_slice()),
                )
            }
            _ => Ok(false),
        }
    }

    // The call at this place, in memory of its own.
    fn call_at(&self, place: usize) -> Result<Option<Call>, OutOfMemory>
        ensures { IfOk result (λ call. call ≡ slice_get self.now.calls place) }
    {
        match self.net.calls.get(place) {
            Some(call) => Ok(Some(call.copy(self.alloc)?)),
            None => Ok(None),
        }
    }
}

/// How a call goes on.
impl<'a> System<'a> {
    // It asks its dist_ac, with the lock.
    fn send_second(&mut self, place: usize, call: &Call) -> Result<(), OutOfMemory>
        ensures { OnOk result (self.new ≡ sent_second place call.now self.old) }
    {
        self.set_stage(place, Stage::DistAc);
        let from = call.process();
        let to = self.process_of(from, Role::DistAc);
        self.send(from, to, call.second_message())
    }

    // global:trans/3: it takes the lock at these nodes, if it is free, and asks.
    #[tactic(auto, unfolding(crate::specs::Calling::lock_call))]
    fn lock_call(&mut self, place: usize, call: &Call, nodes: &[Node]) -> Result<(), OutOfMemory>
        ensures { OnOk result (self.new ≡ lock_call place call.now nodes.now self.old) }
    {
        let me = call.process();
        let alive = self.alive_of(nodes)?;
        if self
            .net
            .locks
            .take(Requester::Alone(me), me, alive.as_slice())?
        {
            return self.send_second(place, call);
        }
        Ok(())
    }

    // A takeover asks for the nodes of the application.
    fn ask_nodes(&mut self, place: usize, call: &Call) -> Result<(), OutOfMemory>
        ensures { OnOk result (self.new ≡ ask_nodes place call.now self.old) }
    {
        self.set_stage(place, Stage::Nodes);
        let from = call.process();
        let to = self.process_of(from, Role::DistAc);
        self.send(from, to, Message::GetNodes(call.app, from))
    }

    // It asks for the lock at these nodes.
    #[tactic(auto, unfolding(crate::specs::Calling::wait_for_lock))]
    fn wait_at(&mut self, place: usize, call: &Call, nodes: Group) -> Result<(), OutOfMemory>
        ensures { OnOk result (self.new ≡ wait_for_lock place call.now nodes self.old) }
    {
        let copy = nodes.copy(self.alloc)?;
        self.set_stage(place, Stage::Lock(copy));
        self.lock_call(place, call, nodes.as_slice())
    }

    // dist_ac:wait_for_sync_dacs/0 is over.
    #[tactic(auto, unfolding(crate::specs::Calling::behind_sync))]
    fn behind_sync(&mut self, place: usize, call: &Call) -> Result<(), OutOfMemory>
        ensures { OnOk result (self.new ≡ behind_sync place call.now self.old) }
    {
        if call.is_takeover() {
            return self.ask_nodes(place, call);
        }
        let nodes = self.around(call.node)?;
        self.wait_at(place, call, Group::of(nodes))
    }

    // A call goes on, if it can.
    fn go_on_with(&mut self, place: usize, call: &Call) -> Result<(), OutOfMemory>
        ensures { OnOk result (self.new ≡ go_on_with place call.now self.old) }
    {
        if !self.can_go_on(call)? {
            return Ok(());
        }
        match &call.stage {
            Stage::Synchronised => self.behind_sync(place, call),
            Stage::Lock(nodes) => self.lock_call(place, call, nodes.as_slice()),
            _ => Ok(()),
        }
    }

    // The call at this place goes on, if it can.
    #[tactic(auto, unfolding(crate::specs::Calling::go_on_call))]
    pub(crate) fn go_on_call(&mut self, place: usize) -> Result<(), OutOfMemory>
        ensures { OnOk result (self.new ≡ go_on_call place self.old) }
    {
        match self.call_at(place)? {
            Some(call) => self.go_on_with(place, &call),
            None => Ok(()),
        }
    }
}

ghost use Rattle.rh_otp_system.specs.Calling.{behind_sync, go_on_with};

/// What a call receives.
impl<'a> System<'a> {
    // It was answered, and its lock is free.
    fn finish_call(
        &mut self,
        place: usize,
        call: &Call,
        outcome: Outcome,
    ) -> Result<(), OutOfMemory>
        ensures { OnOk result (self.new ≡ done_with place call.now outcome self.old) }
    {
        let me = call.process();
        self.free(Requester::Alone(me), me);
        self.set_stage(place, Stage::Done(outcome));
        self.tell(Event::Answered(call.number))
    }

    // An answer of the controller or of dist_ac.
    fn take_answer(
        &mut self,
        place: usize,
        call: &Call,
        outcome: Outcome,
    ) -> Result<(), OutOfMemory>
        ensures { OnOk result (self.new ≡ answered_by place call.now outcome self.old) }
    {
        if matches!(call.stage, Stage::Controller) && is_asked_on(call.ask, outcome) {
            self.set_loaded(place, matches!(outcome, Outcome::IsOnlyLoaded));
            self.set_stage(place, Stage::Synchronised);
            return self.go_on_call(place);
        }
        self.finish_call(place, call, outcome)
    }

    // The nodes of its application.
    fn take_nodes(&mut self, place: usize, call: &Call, nodes: Group) -> Result<(), OutOfMemory>
        ensures { OnOk result (self.new ≡ nodes_told place call.now nodes self.old) }
    {
        if matches!(call.stage, Stage::Nodes) {
            self.set_stage(place, Stage::Lock(nodes));
            return self.go_on_call(place);
        }
        Ok(())
    }

    // The call at this place receives a message.
    fn call_receive_at(&mut self, place: usize, message: Message) -> Result<(), OutOfMemory>
        ensures { OnOk result (self.new ≡ received_at place message self.old) }
    {
        let Some(call) = self.call_at(place)? else {
            return Ok(());
        };
        match message {
            Message::Answer(outcome) => self.take_answer(place, &call, outcome),
            Message::Nodes(nodes) => self.take_nodes(place, &call, nodes),
            _ => Ok(()),
        }
    }

    // The call of this number receives a message.
    #[tactic(auto, unfolding(crate::specs::Calling::call_received))]
    pub(crate) fn call_receive(&mut self, number: u32, message: Message) -> Result<(), OutOfMemory>
        ensures { OnOk result (self.new ≡ call_received number message self.old) }
    {
        match self.call_place(number) {
            Some(place) => self.call_receive_at(place, message),
            None => Ok(()),
        }
    }
}

ghost use Rattle.rh_otp_system.specs.Calling.{received_at};
