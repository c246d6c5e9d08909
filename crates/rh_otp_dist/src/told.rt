//! What its controller and other nodes tell a dist_ac.

ghost use Rattle.std.specs.Prelude.{◌≡◌, [], IfOk, OnOk};
ghost use Rattle.rh_otp_dist.specs.Told.{standing_behind, run, with_ends, answer_ends, add_remote, tell_end, not_run, stopped, is_local, goes_on, keep_weight, answer_weight, weight_told, restart, app_stopped};
ghost use Rattle.rh_otp_dist.specs.Sending.{send_all};

use crate::attempt::AskedBy;
use crate::sending::outcome_of;
use crate::state::{Standing, Told};
use crate::turn::Turn;
use rh_base::{Duplicate, OutOfMemory};
use rh_model::{App, Dep, Node};
use rh_otp_model::{Fault, Message, Outcome, Process, drop_app, drop_rows, key_delete, key_store};
use std::mem;

// What stands behind a start that lacked this, or nothing.
fn standing_behind(error: Option<Dep>) -> Standing
    ensures { result ≡ standing_behind error }
{
    match error {
        None => Standing::Local,
        Some(_) => Standing::Undefined,
    }
}

// Does the application run here?
pub(crate) fn is_local(standing: Standing) -> bool
    ensures { result ≡ is_local standing }
{
    matches!(standing, Standing::Local)
}

// Does it answer a weight of an application that stands so?
pub(crate) fn goes_on(standing: Standing) -> bool
    ensures { result ≡ goes_on standing }
{
    !matches!(standing, Standing::Undefined | Standing::Failover(_))
}

impl<'a> Turn<'a> {
    // send_msg/2: to each of these nodes but its own.
    pub(crate) fn send_all(&mut self, nodes: &[Node], message: &Message) -> Result<(), OutOfMemory>
        ensures { OnOk result (self.new ≡ send_all nodes.now message.now self.old) }
    {
        let here = self.here.node;
        for node in nodes {
            if node.0 != here.0 {
                let copy = message.copy(self.alloc)?;
                self.send_to(*node, copy)?;
            }
        }
        Ok(())
    }

    // The nodes that it knows.
    fn known(&self) -> Result<Vec<Node>, OutOfMemory>
        ensures { IfOk result (λ nodes. nodes.items ≡ self.now.state.known) }
    {
        Ok(Vec::from_slice(self.alloc, self.state.known.as_slice())?)
    }

    // To all nodes that it knows.
    fn send_known(&mut self, message: &Message) -> Result<(), OutOfMemory>
        ensures { OnOk result (self.new ≡ send_all self.old.state.known message.now self.old) }
    {
        let known = self.known()?;
        self.send_all(known.as_slice(), message)
    }

    // handle_info({ac_application_run, ..})
    #[tactic(auto, unfolding(crate::specs::Told::run))]
    pub(crate) fn run(&mut self, app: App, error: Option<Dep>) -> Result<(), OutOfMemory>
        ensures { OnOk result (self.new ≡ run app error self.old) }
    {
        let here = self.here.node;
        self.send_known(&Message::AppStarted(here, app, error))?;
        self.del_t_reqs(app, outcome_of(error))?;
        self.set_standing(app, standing_behind(error));
        Ok(())
    }

    // Takes out who waits for the end of an application.
    fn take_ends(&mut self) -> Result<Vec<(App, Process)>, OutOfMemory>
        ensures rows { IfOk result (λ rows. rows.items ≡ self.old.state.s_reqs) }
        ensures left { OnOk result (self.new ≡ with_ends [] self.old) }
    {
        Ok(mem::try_take(&mut self.state.s_reqs)?)
    }

    // Puts these back.
    fn put_ends(&mut self, rows: Vec<(App, Process)>)
        ensures { self.new ≡ with_ends rows.items self.old }
    {
        self.state.s_reqs = rows;
    }

    // Who waits for the end of an application is answered.
    #[tactic(auto, using(crate::proofs::Answers::ends_put_back))]
    fn answer_ends(&mut self, app: App) -> Result<(), OutOfMemory>
        ensures { OnOk result (self.new ≡ answer_ends app self.old) }
    {
        let mut rows = self.take_ends()?;
        self.answer_each(app, Outcome::Done, rows.as_slice())?;
        drop_rows(&mut rows, app);
        self.put_ends(rows);
        Ok(())
    }

    // It runs here no more.
    fn tell_end(&mut self, app: App, standing: Standing) -> Result<(), OutOfMemory>
        ensures { OnOk result (self.new ≡ tell_end app standing self.old) }
    {
        match standing {
            Standing::Local => self.send_known(&Message::AppStopped(app)),
            Standing::Distributed(node) => self.add_remote(app, node),
            _ => Ok(()),
        }
    }

    // It is known to run at a node.
    pub(crate) fn add_remote(&mut self, app: App, node: Node) -> Result<(), OutOfMemory>
        ensures { OnOk result (self.new ≡ add_remote app node self.old) }
    {
        self.state.remote_started.insert(0, (app, node))?;
        Ok(())
    }

    // handle_info({ac_application_not_run, ..})
    #[tactic(auto, unfolding(crate::specs::Told::not_run))]
    pub(crate) fn not_run(&mut self, app: App) -> Result<(), OutOfMemory>
        ensures { OnOk result (self.new ≡ not_run app self.old) }
    {
        self.del_t_reqs(app, Outcome::Failed(Fault::Stopped))?;
        self.answer_ends(app)?;
        let standing = self.standing(app);
        self.tell_end(app, standing)?;
        self.set_standing(app, Standing::Undefined);
        Ok(())
    }

    // handle_info({ac_application_stopped, ..})
    #[tactic(auto, unfolding(crate::specs::Told::stopped))]
    pub(crate) fn stopped(&mut self, app: App) -> Result<(), OutOfMemory>
        ensures { OnOk result (self.new ≡ stopped app self.old) }
    {
        self.not_run(app)?;
        drop_app(&mut self.state.started, app);
        Ok(())
    }

    // handle_info({dist_ac_app_stopped, ..})
    #[tactic(auto, unfolding(crate::specs::Told::app_stopped))]
    pub(crate) fn app_stopped(&mut self, app: App)
        ensures { self.new ≡ app_stopped app self.old }
    {
        self.set_standing(app, Standing::Undefined);
        key_delete(&mut self.state.remote_started, app);
    }

    // handle_info({internal_restart_appl, ..})
    #[tactic(auto, unfolding(crate::specs::Told::restart))]
    pub(crate) fn restart(&mut self, app: App) -> Result<(), OutOfMemory>
        ensures { OnOk result (self.new ≡ restart app self.old) }
    {
        match self.standing(app) {
            Standing::Failover(_) => self.start_appl(app, AskedBy::Nobody, None),
            _ => Ok(()),
        }
    }

    // An application's weight is kept.
    fn keep_weight(&mut self, app: App, weight: u32) -> Result<(), OutOfMemory>
        ensures { OnOk result (self.new ≡ keep_weight app weight self.old) }
    {
        key_store(&mut self.state.tmp_weights, app, weight)
    }

    // A weight that is left over is answered again, and so is the answer.
    fn answer_weight(&mut self, app: App, node: Node, standing: Standing) -> Result<(), OutOfMemory>
        ensures { OnOk result (self.new ≡ answer_weight app node standing self.old) }
    {
        let here = self.here.node;
        if standing == Standing::RunWaiting {
            return self.send_to(node, Message::Weight(app, 0, here));
        }
        let weight = self.cached_weight(app);
        self.send_to(node, Message::Weight(app, weight, here))?;
        self.keep_weight(app, weight)
    }

    // handle_info({dist_ac_weight, ..})
    #[tactic(auto, unfolding(crate::specs::Told::weight_told))]
    pub(crate) fn weight_told(
        &mut self,
        app: App,
        weight: u32,
        node: Node,
    ) -> Result<(), OutOfMemory>
        ensures { OnOk result (self.new ≡ weight_told app weight node self.old) }
    {
        let standing = self.standing(app);
        if !goes_on(standing) {
            self.state.tmp_locals.insert(0, Told { app, weight, node })?;
            return Ok(());
        }
        if self.burns {
            return Ok(());
        }
        self.answer_weight(app, node, standing)
    }
}
