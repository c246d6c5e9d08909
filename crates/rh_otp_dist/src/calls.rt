//! Calls of a dist_ac.

ghost use Rattle.std.specs.Prelude.{◌≡◌, IfOk, OnOk};
ghost use Rattle.rh_otp_dist.specs.Calls.{take_over_from, take_over, before_permit, is_away, forbid_here, permit_by, tell_permission, permit, known_nodes, get_nodes};

use crate::attempt::{AskedBy, PermitCall};
use crate::reading::{among, backwards, permitted};
use crate::state::{PermitWait, Standing};
use crate::told::is_local;
use crate::turn::Turn;
use rh_base::OutOfMemory;
use rh_model::{App, Group, Node, Restart};
use rh_otp_model::{Change, Envelope, Fault, Message, Outcome, Output, Process};

// Does it run nowhere that is known, or elsewhere?
fn is_away(standing: Standing) -> bool
    ensures { result ≡ is_away standing }
{
    matches!(standing, Standing::Undefined | Standing::Distributed(_))
}

impl<'a> Turn<'a> {
    // From the node at which it runs.
    fn take_over_from(
        &mut self,
        app: App,
        restart: Restart,
        caller: Process,
        standing: Standing,
    ) -> Result<(), OutOfMemory>
        ensures { OnOk result (self.new ≡ take_over_from app restart caller standing self.old) }
    {
        match standing {
            Standing::Distributed(node) => {
                let change = Change::Takeover(node, Some(restart));
                self.to_controller(Message::Change(app, change))?;
                self.set_standing(app, Standing::Takeover);
                self.state.t_reqs.insert(0, (app, caller))?;
                Ok(())
            }
            Standing::Local => self.answer(caller, Outcome::Failed(Fault::RunsLocally(app))),
            _ => self.answer(caller, Outcome::Failed(Fault::RunsNowhere(app))),
        }
    }

    // handle_call({takeover_application, ..})
    #[tactic(auto, unfolding(crate::specs::Calls::take_over))]
    pub(crate) fn take_over(
        &mut self,
        app: App,
        restart: Restart,
        caller: Process,
    ) -> Result<(), OutOfMemory>
        ensures { OnOk result (self.new ≡ take_over app restart caller self.old) }
    {
        let standing = self.standing(app);
        self.take_over_from(app, restart, caller, standing)
    }

    // The parts of the state that a call of permit restores.
    fn before_permit(&self, app: App, caller: Process) -> Result<PermitCall, OutOfMemory>
        ensures { IfOk result (λ before. before ≡ before_permit app caller self.now.state) }
    {
        let state = &self.state;
        Ok(PermitCall {
            caller,
            standing: self.standing(app),
            remote_started: Vec::from_slice(self.alloc, state.remote_started.as_slice())?,
            started: Vec::from_slice(self.alloc, state.started.as_slice())?,
            tmp_locals: Vec::from_slice(self.alloc, state.tmp_locals.as_slice())?,
            tmp_weights: Vec::from_slice(self.alloc, state.tmp_weights.as_slice())?,
        })
    }

    // Of one that runs here, and is forbidden.
    fn forbid_here(
        &mut self,
        app: App,
        caller: Process,
        nodes: Vec<Node>,
    ) -> Result<(), OutOfMemory>
        ensures { OnOk result (self.new ≡ forbid_here app caller nodes.items self.old) }
    {
        if nodes.is_empty() {
            return self.stop_waiting(app, caller);
        }
        self.state
            .p_reqs
            .insert(0, (app, PermitWait { caller, nodes }))?;
        Ok(())
    }

    // Behind the permission, by how the application stands.
    fn permit_by(
        &mut self,
        app: App,
        allow: bool,
        only_loaded: bool,
        caller: Process,
        standing: Standing,
    ) -> Result<(), OutOfMemory>
        ensures { OnOk result
            (self.new ≡ permit_by app allow only_loaded caller standing self.old) }
    {
        if only_loaded || (allow && is_local(standing)) {
            return self.answer(caller, Outcome::Done);
        }
        if allow {
            let before = self.before_permit(app, caller)?;
            return self.start_appl(app, AskedBy::Nobody, Some(before));
        }
        if is_away(standing) {
            return self.answer(caller, Outcome::Done);
        }
        let nodes = permitted(self.alloc, &self.state, app)?;
        self.forbid_here(app, caller, nodes)
    }

    // The permission is set, and told to all nodes of the application's list.
    fn tell_permission(&mut self, app: App, allow: bool) -> Result<(), OutOfMemory>
        ensures { OnOk result (self.new ≡ tell_permission app allow self.old) }
    {
        let nodes = backwards(self.alloc, self.own, app)?;
        let here = self.here.node;
        let is_his = is_local(self.standing(app));
        self.set_permission(here, app, allow)?;
        self.send_all(
            nodes.as_slice(),
            &Message::NewPermission(here, app, allow, is_his),
        )
    }

    // handle_call({permit_application, ..}), permit/6
    #[tactic(auto, unfolding(crate::specs::Calls::permit))]
    pub(crate) fn permit(
        &mut self,
        app: App,
        allow: bool,
        only_loaded: bool,
        caller: Process,
    ) -> Result<(), OutOfMemory>
        ensures { OnOk result (self.new ≡ permit app allow only_loaded caller self.old) }
    {
        let standing = self.standing(app);
        self.tell_permission(app, allow)?;
        self.permit_by(app, allow, only_loaded, caller, standing)
    }

    // The nodes of the application's list that it knows.
    fn known_nodes(&self, app: App) -> Result<Vec<Node>, OutOfMemory>
        ensures { IfOk result (λ nodes. nodes.items ≡ known_nodes app self.now) }
    {
        let nodes = backwards(self.alloc, self.own, app)?;
        among(self.alloc, nodes.as_slice(), self.state.known.as_slice())
    }

    // handle_call({get_nodes, ..})
    #[tactic(auto, unfolding(crate::specs::Calls::get_nodes))]
    pub(crate) fn get_nodes(&mut self, app: App, caller: Process) -> Result<(), OutOfMemory>
        ensures { OnOk result (self.new ≡ get_nodes app caller self.old) }
    {
        let nodes = self.known_nodes(app)?;
        let from = self.me();
        let message = Message::Nodes(Group::of(nodes));
        self.output(Output::Send(Envelope {
            from,
            to: caller,
            message,
        }))
    }
}
