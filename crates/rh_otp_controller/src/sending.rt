//! What a controller sends and shows.

ghost use Rattle.std.specs.Prelude.{◌≡◌, OnOk};
ghost use Rattle.rh_otp_controller.specs.Sending.{with_output, send, tell, reply, reply_to, control, stop_appl};

use crate::state::Place;
use crate::turn::Turn;
use rh_base::OutOfMemory;
use rh_model::App;
use rh_otp_model::{Envelope, Event, Message, Outcome, Output, Process, Role};

impl<'a> Turn<'a> {
    // Does one more thing.
    pub(crate) fn output(&mut self, output: Output) -> Result<(), OutOfMemory>
        ensures { OnOk result (self.new ≡ with_output output self.old) }
    {
        self.out.push(output)?;
        Ok(())
    }

    // Sends a message.
    pub(crate) fn send(&mut self, to: Process, message: Message) -> Result<(), OutOfMemory>
        ensures { OnOk result (self.new ≡ send to message self.old) }
    {
        let from = self.here.process(Role::Controller);
        self.output(Output::Send(Envelope { from, to, message }))
    }

    // Shows an observer what happens.
    pub(crate) fn tell(&mut self, event: Event) -> Result<(), OutOfMemory>
        ensures { OnOk result (self.new ≡ tell event self.old) }
    {
        self.output(Output::Tell(event))
    }

    // gen_server:reply/2
    pub(crate) fn reply(&mut self, caller: Process, outcome: Outcome) -> Result<(), OutOfMemory>
        ensures { OnOk result (self.new ≡ reply caller outcome self.old) }
    {
        self.send(caller, Message::Answer(outcome))
    }

    // gen_server:reply/2 to who asked, if somebody did.
    pub(crate) fn reply_to(
        &mut self,
        caller: Option<Process>,
        outcome: Outcome,
    ) -> Result<(), OutOfMemory>
        ensures { OnOk result (self.new ≡ reply_to caller outcome self.old) }
    {
        match caller {
            Some(caller) => self.reply(caller, outcome),
            None => Ok(()),
        }
    }

    // cntrl/3
    pub(crate) fn control(&mut self, app: App, message: Message) -> Result<(), OutOfMemory>
        ensures { OnOk result (self.new ≡ control app message self.old) }
    {
        if self.own.controls(app) {
            let to = self.here.process(Role::DistAc);
            return self.send(to, message);
        }
        Ok(())
    }

    // stop_appl/3
    pub(crate) fn stop_appl(&mut self, app: App, place: Option<Place>) -> Result<(), OutOfMemory>
        ensures { OnOk result (self.new ≡ stop_appl app place self.old) }
    {
        if let Some(Place::Here) = place {
            let node = self.here.node;
            return self.tell(Event::Stopped(app, node));
        }
        Ok(())
    }
}
