//! Messages and timers.

ghost use Rattle.std.specs.Prelude.{◌≡◌, OnOk};
ghost use Rattle.rh_otp_system.specs.Sending.{sent, told, observed, after};

use crate::system::System;
use rh_base::OutOfMemory;
use rh_otp_model::{Envelope, Event, Message, Process, Role};
use rh_otp_net::Timer;

// Above this `receive after` ends its process: the timer never fires.
const LONGEST_TIMER: u64 = 4_294_967_295;

impl<'a> System<'a> {
    // Sends a message.
    pub(crate) fn send(
        &mut self,
        from: Process,
        to: Process,
        message: Message,
    ) -> Result<(), OutOfMemory>
        ensures { OnOk result (self.new ≡ sent from to message self.old) }
    {
        self.messages.push(Envelope { from, to, message })?;
        Ok(())
    }

    // An observer sees this.
    #[tactic(auto, unfolding(crate::specs::Sending::told))]
    pub(crate) fn tell(&mut self, event: Event) -> Result<(), OutOfMemory>
        ensures { OnOk result (self.new ≡ told event self.old) }
    {
        self.note(event)?;
        self.events.push(event)?;
        Ok(())
    }

    // Of a start an observer keeps the kind.
    #[tactic(auto, using(crate::proofs::Node::put_back))]
    fn note(&mut self, event: Event) -> Result<(), OutOfMemory>
        ensures { OnOk result (self.new ≡ observed event self.old) }
    {
        let Event::Started(app, node, kind) = event else {
            return Ok(());
        };
        let mut live = self.take_node(node)?;
        live.note_kind(app, kind)?;
        self.put_node(node, live);
        Ok(())
    }

    // erlang:send_after/3, in milliseconds. A time of 0 is over at once, and one that no clock reaches never.
    #[tactic(auto, unfolding(crate::specs::Sending::after))]
    pub(crate) fn after(
        &mut self,
        time: u64,
        to: Process,
        message: Message,
    ) -> Result<(), OutOfMemory>
        ensures { OnOk result (self.new ≡ after time to message self.old) }
    {
        if time == 0 {
            let from = self.process_of(to, Role::Timer);
            return self.send(from, to, message);
        }
        if time > LONGEST_TIMER {
            return Ok(());
        }
        let Some(due) = self.net.clock.checked_add(time) else {
            return Ok(());
        };
        let step = self.net.step;
        self.net.timers.add(Timer {
            due,
            step,
            to,
            message,
        })
    }

    // The process of this role beside another one.
    pub(crate) fn process_of(&self, other: Process, role: Role) -> Process
        ensures { result ≡ record other { role = role } }
    {
        Process {
            role,
            node: other.node,
            life: other.life,
        }
    }
}
