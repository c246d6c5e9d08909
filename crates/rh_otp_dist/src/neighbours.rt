//! What other nodes tell a dist_ac.

ghost use Rattle.std.specs.Prelude.{◌≡◌, [], IfOk, OnOk, map, slice_get, unwrap_or};
ghost use Rattle.rh_otp_dist.specs.State.{with_state, with_permission};
ghost use Rattle.rh_otp_dist.specs.Told.{is_local, local_flags, answer_node, new_node, answer_waits, with_waits, answer_permits, standing_at, started_elsewhere, app_started, new_permission};

use crate::attempt::AskedBy;
use crate::attempts::has_app;
use crate::reading::may_run;
use crate::state::{Appl, PermitWait, Standing};
use crate::told::is_local;
use crate::turn::Turn;
use rh_base::OutOfMemory;
use rh_model::{App, Dep, Node};
use rh_otp_model::{Change, Flags, Message, Outcome, drop_rows, key_delete};
use std::alloc::Global;
use std::mem;

// For each of these applications, whether it runs here.
fn locals(alloc: Global, appls: &[Appl]) -> Result<Vec<bool>, OutOfMemory>
    ensures { IfOk result (λ set. set.items ≡ map (λ appl. is_local appl.standing) appls.now) }
{
    Ok(
        appls
            .iter()
            .map(|appl| is_local(appl.standing))
            .collect(alloc)?,
    )
}

// Where it runs, as another node tells.
fn standing_at(node: Node, error: Option<Dep>) -> Standing
    ensures { result ≡ standing_at node error }
{
    match error {
        None => Standing::Distributed(node),
        Some(_) => Standing::Undefined,
    }
}

impl<'a> Turn<'a> {
    // For each application, whether it runs here.
    fn local_flags(&self) -> Result<Flags, OutOfMemory>
        ensures { IfOk result (λ flags. flags ≡ local_flags self.now.state) }
    {
        let set = locals(self.alloc, self.state.appls.as_slice())?;
        Flags::of(self.alloc, set)
    }

    // Which applications a node may run, as far as it is known.
    pub(crate) fn flags_at(&self, node: Node) -> Result<Flags, OutOfMemory>
        ensures { IfOk result
            (λ flags. flags ≡ unwrap_or (slice_get self.now.state.may node.0) []) }
    {
        match self.state.may.get(node.0 as usize) {
            Some(flags) => flags.share(),
            None => Flags::none(self.alloc, 0),
        }
    }

    // A node may run the application, or may not.
    pub(crate) fn set_permission(
        &mut self,
        node: Node,
        app: App,
        allow: bool,
    ) -> Result<(), OutOfMemory>
        ensures { OnOk result
            (self.new ≡ with_state (with_permission node app allow self.old.state) self.old) }
    {
        let flags = self.flags_at(node)?;
        let flags = flags.with(self.alloc, app, allow)?;
        self.merge(node, flags);
        Ok(())
    }

    // An introduction is answered.
    fn answer_node(&mut self, node: Node) -> Result<(), OutOfMemory>
        ensures { OnOk result (self.new ≡ answer_node node self.old) }
    {
        let local = self.local_flags()?;
        if self.burns && !local.has_any() {
            return Ok(());
        }
        let here = self.here.node;
        let own = self.flags_at(here)?;
        self.send_to(node, Message::NewNode(here, own, local))
    }

    // handle_info({dist_ac_new_node, ..})
    #[tactic(auto, unfolding(crate::specs::Told::new_node))]
    pub(crate) fn new_node(
        &mut self,
        node: Node,
        allowed: Flags,
        started: Flags,
    ) -> Result<(), OutOfMemory>
        ensures { OnOk result (self.new ≡ new_node node allowed started self.old) }
    {
        if started.has_any() {
            return Ok(());
        }
        self.answer_node(node)?;
        self.merge(node, allowed);
        self.state.known.insert(0, node)?;
        Ok(())
    }

    // Answers to all of these that wait in permit/6 for a start of the application.
    fn answer_waits(&mut self, app: App, rows: &[(App, PermitWait)]) -> Result<(), OutOfMemory>
        ensures { OnOk result (self.new ≡ answer_waits app rows.now self.old) }
    {
        for row in rows {
            if row.0.0 == app.0 {
                self.answer(row.1.caller, Outcome::Done)?;
            }
        }
        Ok(())
    }

    // Takes out who waits in permit/6.
    pub(crate) fn take_waits(&mut self) -> Result<Vec<(App, PermitWait)>, OutOfMemory>
        ensures rows { IfOk result (λ rows. rows.items ≡ self.old.state.p_reqs) }
        ensures left { OnOk result (self.new ≡ with_waits [] self.old) }
    {
        Ok(mem::try_take(&mut self.state.p_reqs)?)
    }

    // Puts these back.
    pub(crate) fn put_waits(&mut self, rows: Vec<(App, PermitWait)>)
        ensures { self.new ≡ with_waits rows.items self.old }
    {
        self.state.p_reqs = rows;
    }

    // Who waits in permit/6 for a start of the application is answered.
    #[tactic(auto, using(crate::proofs::Answers::waits_put_back))]
    fn answer_permits(&mut self, app: App) -> Result<(), OutOfMemory>
        ensures { OnOk result (self.new ≡ answer_permits app self.old) }
    {
        let mut rows = self.take_waits()?;
        self.answer_waits(app, rows.as_slice())?;
        drop_rows(&mut rows, app);
        self.put_waits(rows);
        Ok(())
    }

    // Of an application that is started here, too.
    fn started_elsewhere(
        &mut self,
        node: Node,
        app: App,
        error: Option<Dep>,
    ) -> Result<(), OutOfMemory>
        ensures { OnOk result (self.new ≡ started_elsewhere node app error self.old) }
    {
        self.to_controller(Message::Change(app, Change::Started(node)))?;
        self.set_standing(app, standing_at(node, error));
        key_delete(&mut self.state.tmp_weights, app);
        self.answer_permits(app)
    }

    // handle_info({dist_ac_app_started, ..})
    #[tactic(auto, unfolding(crate::specs::Told::app_started))]
    pub(crate) fn app_started(
        &mut self,
        node: Node,
        app: App,
        error: Option<Dep>,
    ) -> Result<(), OutOfMemory>
        ensures { OnOk result (self.new ≡ app_started node app error self.old) }
    {
        if self.own.controls(app) && has_app(self.state.started.as_slice(), app) {
            return self.started_elsewhere(node, app, error);
        }
        self.add_remote(app, node)
    }

    // handle_info({dist_ac_new_permission, ..})
    #[tactic(auto, unfolding(crate::specs::Told::new_permission))]
    pub(crate) fn new_permission(
        &mut self,
        node: Node,
        app: App,
        allow: bool,
        is_his: bool,
    ) -> Result<(), OutOfMemory>
        ensures { OnOk result (self.new ≡ new_permission node app allow is_his self.old) }
    {
        if !self.own.controls(app) {
            return Ok(());
        }
        self.set_permission(node, app, allow)?;
        if !allow && is_his && may_run(&self.state, self.here.node, app) {
            return self.start_appl(app, AskedBy::Nobody, None);
        }
        Ok(())
    }
}
