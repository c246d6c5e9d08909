//! What a dist_ac sends, and what it asks of others.

ghost use Rattle.std.specs.Prelude.{◌≡◌, [], IfOk, OnOk};
ghost use Rattle.rh_otp_dist.specs.Sending.{with_output, me, send_to, to_controller, answer, monitor, demonitor, free_lock, answer_each, outcome_of, with_takeovers, del_t_reqs};

use crate::nodes::delete_node;
use crate::turn::Turn;
use rh_base::OutOfMemory;
use rh_model::{App, Dep, Node};
use rh_otp_model::{
    Envelope, Fault, Message, Outcome, Output, Process, Requester, Role, drop_rows,
};
use std::mem;

// The outcome of a start that lacked this, or nothing.
pub(crate) fn outcome_of(error: Option<Dep>) -> Outcome
    ensures { result ≡ outcome_of error }
{
    match error {
        None => Outcome::Done,
        Some(dep) => Outcome::Failed(Fault::NeedsRunning(dep)),
    }
}

impl<'a> Turn<'a> {
    // Does one more thing.
    pub(crate) fn output(&mut self, output: Output) -> Result<(), OutOfMemory>
        ensures { OnOk result (self.new ≡ with_output output self.old) }
    {
        self.out.push(output)?;
        Ok(())
    }

    // The process itself.
    pub(crate) fn me(&self) -> Process
        ensures { result ≡ me self.now }
    {
        self.here.process(Role::DistAc)
    }

    // {dist_ac, Node} ! Message
    pub(crate) fn send_to(&mut self, node: Node, message: Message) -> Result<(), OutOfMemory>
        ensures { OnOk result (self.new ≡ send_to node message self.old) }
    {
        self.output(Output::ToDist(node, message))
    }

    // To the controller of its node.
    pub(crate) fn to_controller(&mut self, message: Message) -> Result<(), OutOfMemory>
        ensures { OnOk result (self.new ≡ to_controller message self.old) }
    {
        let from = self.me();
        let to = self.here.process(Role::Controller);
        self.output(Output::Send(Envelope { from, to, message }))
    }

    // gen_server:reply/2
    pub(crate) fn answer(&mut self, caller: Process, outcome: Outcome) -> Result<(), OutOfMemory>
        ensures { OnOk result (self.new ≡ answer caller outcome self.old) }
    {
        let from = self.me();
        let message = Message::Answer(outcome);
        self.output(Output::Send(Envelope {
            from,
            to: caller,
            message,
        }))
    }

    // monitor_node(Node, true)
    pub(crate) fn monitor(&mut self, node: Node) -> Result<(), OutOfMemory>
        ensures { OnOk result (self.new ≡ monitor node self.old) }
    {
        self.output(Output::Monitor(node))
    }

    // monitor_node(Node, false)
    pub(crate) fn demonitor(&mut self, node: Node)
        ensures { self.new ≡ demonitor node self.old }
    {
        delete_node(&mut self.state.monitored, node);
    }

    // global:del_lock/2
    pub(crate) fn free_lock(
        &mut self,
        requester: Requester,
        owner: Process,
    ) -> Result<(), OutOfMemory>
        ensures { OnOk result (self.new ≡ free_lock requester owner self.old) }
    {
        self.output(Output::Free(requester, owner))
    }

    // Answers to all of these that wait for the application.
    pub(crate) fn answer_each(
        &mut self,
        app: App,
        outcome: Outcome,
        rows: &[(App, Process)],
    ) -> Result<(), OutOfMemory>
        ensures { OnOk result (self.new ≡ answer_each app outcome rows.now self.old) }
    {
        for row in rows {
            if row.0.0 == app.0 {
                self.answer(row.1, outcome)?;
            }
        }
        Ok(())
    }

    // Takes out who waits for takeovers.
    fn take_takeovers(&mut self) -> Result<Vec<(App, Process)>, OutOfMemory>
        ensures rows { IfOk result (λ rows. rows.items ≡ self.old.state.t_reqs) }
        ensures left { OnOk result (self.new ≡ with_takeovers [] self.old) }
    {
        Ok(mem::try_take(&mut self.state.t_reqs)?)
    }

    // Puts these back.
    fn put_takeovers(&mut self, rows: Vec<(App, Process)>)
        ensures { self.new ≡ with_takeovers rows.items self.old }
    {
        self.state.t_reqs = rows;
    }

    // del_t_reqs/3
    #[tactic(auto, using(crate::proofs::Answers::takeovers_put_back))]
    pub(crate) fn del_t_reqs(&mut self, app: App, outcome: Outcome) -> Result<(), OutOfMemory>
        ensures { OnOk result (self.new ≡ del_t_reqs app outcome self.old) }
    {
        let mut rows = self.take_takeovers()?;
        self.answer_each(app, outcome, rows.as_slice())?;
        drop_rows(&mut rows, app);
        self.put_takeovers(rows);
        Ok(())
    }
}
