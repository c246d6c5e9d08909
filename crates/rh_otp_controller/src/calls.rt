//! Calls of an operator.

ghost use Rattle.std.specs.Prelude.{◌≡◌, OnOk};
ghost use Rattle.rh_otp_model.specs.Rows.{keyfind};
ghost use Rattle.rh_otp_controller.specs.Calls.{is_forbidden, request_start, start_unless, start, stop_running, stop, update_permissions, permit_waiting, permit_started, permit_idle, permit_distributed, permit, ends_with, is_here, top_ends};

use crate::state::{Controller, Place};
use crate::turn::Turn;
use rh_base::OutOfMemory;
use rh_model::{App, Dep, Restart};
use rh_otp_model::{
    Event, Fault, Message, Outcome, Process, StartType, has_row, key_delete, key_find, key_store,
};

// Is an application forbidden that has this row among the permissions of a controller?
fn is_forbidden(allowed: Option<bool>) -> bool
    ensures { result ≡ is_forbidden allowed }
{
    matches!(allowed, Some(false))
}

// Does the end of an application end its node?
fn ends_with(restart: Option<Option<Restart>>, is_normal: bool) -> bool
    ensures { result ≡ ends_with restart is_normal }
{
    match restart {
        None | Some(Some(Restart::Permanent)) => true,
        Some(Some(Restart::Transient)) => !is_normal,
        Some(_) => false,
    }
}

// Does it run here?
fn is_here(place: Option<Place>) -> bool
    ensures { result ≡ is_here place }
{
    matches!(place, Some(Place::Here))
}

impl Controller {
    /// Is the application forbidden at its node, as far as the controller knows? Of those that dist_ac controls, dist_ac may know otherwise.
    pub fn is_forbidden(&self, app: App) -> bool
        ensures { result ≡ is_forbidden (keyfind app self.now.permissions) }
    {
        is_forbidden(key_find(self.permissions.as_slice(), app))
    }
}

impl<'a> Turn<'a> {
    // A start that nothing hinders.
    fn request_start(
        &mut self,
        app: App,
        restart: Restart,
        caller: Process,
    ) -> Result<(), OutOfMemory>
        ensures { OnOk result (self.new ≡ request_start app restart caller self.old) }
    {
        if self.own.controls(app) {
            self.control(app, Message::StartRequest(app))?;
        } else {
            self.spawn_starter(app, StartType::Normal)?;
        }
        self.add_starting(app, Some(restart), StartType::Normal)?;
        self.add_request(app, Some(caller))
    }

    // A start, unless something that it needs isn't started.
    fn start_unless(
        &mut self,
        app: App,
        restart: Restart,
        caller: Process,
        lacked: Option<Dep>,
    ) -> Result<(), OutOfMemory>
        ensures { OnOk result (self.new ≡ start_unless app restart caller lacked self.old) }
    {
        if let Some(dep) = lacked {
            return self.reply(caller, Outcome::Failed(Fault::NeedsStarted(dep)));
        }
        let allowed = key_find(self.state.permissions.as_slice(), app);
        if !self.own.controls(app) && is_forbidden(allowed) {
            self.state.start_p_false.insert(0, (app, restart))?;
            return self.reply(caller, Outcome::Done);
        }
        self.request_start(app, restart, caller)
    }

    // handle_call({start_application, ..}), check_start_cond/4
    #[tactic(auto, unfolding(crate::specs::Calls::start))]
    pub(crate) fn start(
        &mut self,
        app: App,
        restart: Restart,
        caller: Process,
    ) -> Result<(), OutOfMemory>
        ensures { OnOk result (self.new ≡ start app restart caller self.old) }
    {
        if has_row(self.state.start_req.as_slice(), app) {
            return self.add_request(app, Some(caller));
        }
        if has_row(self.state.running.as_slice(), app) {
            return self.reply(caller, Outcome::Failed(Fault::AlreadyStarted(app)));
        }
        let lacked = self.lacks_started(app);
        self.start_unless(app, restart, caller, lacked)
    }

    // It stops here, if it runs here, and stands in `running` no more.
    pub(crate) fn stop_running(&mut self, app: App) -> Result<(), OutOfMemory>
        ensures { OnOk result (self.new ≡ stop_running app self.old) }
    {
        let place = key_find(self.state.running.as_slice(), app);
        self.stop_appl(app, place)?;
        key_delete(&mut self.state.running, app);
        Ok(())
    }

    // handle_call({stop_application, ..})
    #[tactic(auto, unfolding(crate::specs::Calls::stop))]
    pub(crate) fn stop(&mut self, app: App, caller: Process) -> Result<(), OutOfMemory>
        ensures { OnOk result (self.new ≡ stop app caller self.old) }
    {
        let runs = has_row(self.state.running.as_slice(), app);
        if !runs && !has_row(self.state.started.as_slice(), app) {
            return self.reply(caller, Outcome::Failed(Fault::NotStarted(app)));
        }
        self.stop_running(app)?;
        key_delete(&mut self.state.started, app);
        self.control(app, Message::Stopped(app))?;
        self.reply(caller, Outcome::Done)
    }

    // update_permissions/2
    fn update_permissions(&mut self, app: App, allow: bool) -> Result<(), OutOfMemory>
        ensures { OnOk result (self.new ≡ update_permissions app allow self.old) }
    {
        key_store(&mut self.state.permissions, app, allow)
    }

    // Of a local application that doesn't run.
    fn permit_waiting(
        &mut self,
        app: App,
        allow: bool,
        caller: Process,
        waits: Option<Option<Restart>>,
    ) -> Result<(), OutOfMemory>
        ensures { OnOk result (self.new ≡ permit_waiting app allow caller waits self.old) }
    {
        let Some(restart) = waits else {
            return self.reply(caller, Outcome::Done);
        };
        if !allow {
            return self.reply(caller, Outcome::Done);
        }
        self.spawn_starter(app, StartType::Normal)?;
        self.add_starting(app, restart, StartType::Normal)?;
        self.add_request(app, Some(caller))
    }

    // Of a local application that was started before.
    fn permit_started(
        &mut self,
        app: App,
        allow: bool,
        caller: Process,
        restart: Option<Restart>,
    ) -> Result<(), OutOfMemory>
        ensures { OnOk result (self.new ≡ permit_started app allow caller restart self.old) }
    {
        if allow {
            key_delete(&mut self.state.started, app);
            return self.permit_waiting(app, true, caller, Some(restart));
        }
        self.permit_waiting(app, false, caller, Some(restart))
    }

    // Of a local application that doesn't run, and was started before, or not.
    fn permit_idle(
        &mut self,
        app: App,
        allow: bool,
        caller: Process,
        started: Option<Option<Restart>>,
    ) -> Result<(), OutOfMemory>
        ensures { OnOk result (self.new ≡ permit_idle app allow caller started self.old) }
    {
        if let Some(restart) = started {
            return self.permit_started(app, allow, caller, restart);
        }
        let waits = key_find(self.state.start_p_false.as_slice(), app).map(Some);
        key_delete(&mut self.state.start_p_false, app);
        self.permit_waiting(app, allow, caller, waits)
    }

    // Of an application that dist_ac controls: it is to be asked, too.
    fn permit_distributed(
        &mut self,
        app: App,
        allow: bool,
        caller: Process,
    ) -> Result<(), OutOfMemory>
        ensures { OnOk result (self.new ≡ permit_distributed app allow caller self.old) }
    {
        let is_started = has_row(self.state.started.as_slice(), app);
        let is_known = is_started || has_row(self.state.starting.as_slice(), app);
        self.update_permissions(app, allow)?;
        let outcome = if is_known {
            Outcome::IsStarted
        } else {
            Outcome::IsOnlyLoaded
        };
        self.reply(caller, outcome)
    }

    // handle_call({permit_application, ..})
    #[tactic(auto, unfolding(crate::specs::Calls::permit))]
    pub(crate) fn permit(
        &mut self,
        app: App,
        allow: bool,
        caller: Process,
    ) -> Result<(), OutOfMemory>
        ensures { OnOk result (self.new ≡ permit app allow caller self.old) }
    {
        if self.own.controls(app) {
            return self.permit_distributed(app, allow, caller);
        }
        if has_row(self.state.running.as_slice(), app) {
            if !allow {
                self.stop_running(app)?;
            }
            return self.reply(caller, Outcome::Done);
        }
        self.update_permissions(app, allow)?;
        let started = key_find(self.state.started.as_slice(), app);
        self.permit_idle(app, allow, caller, started)
    }

    // handle_info({'EXIT', ..})
    #[tactic(auto, unfolding(crate::specs::Calls::top_ends))]
    pub(crate) fn top_ends(
        &mut self,
        app: App,
        is_normal: bool,
        caller: Process,
    ) -> Result<(), OutOfMemory>
        ensures { OnOk result (self.new ≡ top_ends app is_normal caller self.old) }
    {
        if !is_here(key_find(self.state.running.as_slice(), app)) {
            return self.reply(caller, Outcome::Failed(Fault::NotRunning));
        }
        self.reply(caller, Outcome::Done)?;
        key_delete(&mut self.state.running, app);
        self.forget_end(app);
        self.state.ended.insert(0, app)?;
        let node = self.here.node;
        self.tell(Event::Stopped(app, node))?;
        self.control(app, Message::Stopped(app))?;
        let restart = key_find(self.state.started.as_slice(), app);
        self.state.is_ending = ends_with(restart, is_normal);
        Ok(())
    }
}
