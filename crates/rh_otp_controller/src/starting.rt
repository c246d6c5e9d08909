//! How an application is started, and what becomes of its start.

ghost use Rattle.std.specs.Prelude.{◌≡◌, OnOk};
ghost use Rattle.rh_otp_model.specs.Rows.{has_row};
ghost use Rattle.rh_otp_controller.specs.Starting.{has_need, lacks, lacks_started, lacks_running, answer_start, forget_end, spawned, spawn_starter, add_starting, add_request};

use crate::reading::{has_platform, needs_of};
use crate::state::Starting;
use crate::turn::Turn;
use rh_base::OutOfMemory;
use rh_model::{App, Dep, Restart};
use rh_otp_model::{Envelope, Event, Message, Output, Process, Role, StartType, drop_app, has_row};

impl<'a> Turn<'a> {
    // Has the node what an application needs, where the applications of these rows count?
    fn has_need<T: Copy>(&self, rows: &[(App, T)], dep: Dep) -> bool
        ensures { result ≡ has_need (λ b. has_row b rows.now) self.now dep }
    {
        match dep {
            Dep::Listed(app) => has_row(rows, app),
            Dep::Platform(platform) => has_platform(self.cluster, self.here.node, platform),
        }
    }

    // The first that the application needs and that isn't there, where the applications of these rows count.
    fn lacks<T: Copy>(&self, rows: &[(App, T)], app: App) -> Option<Dep>
        ensures { result ≡ lacks (λ b. has_row b rows.now) self.now app }
    {
        for dep in needs_of(self.cluster, app) {
            if !self.has_need(rows, *dep) {
                return Some(*dep);
            }
        }
        None
    }

    // Of what the application needs, the first that isn't started here.
    pub(crate) fn lacks_started(&self, app: App) -> Option<Dep>
        ensures { result ≡ lacks_started self.now app }
    {
        self.lacks(self.state.started.as_slice(), app)
    }

    // Of what the application needs, the first that isn't running, here or elsewhere.
    fn lacks_running(&self, app: App) -> Option<Dep>
        ensures { result ≡ lacks_running self.now app }
    {
        self.lacks(self.state.running.as_slice(), app)
    }

    // The starter's answer.
    fn answer_start(&mut self, app: App, error: Option<Dep>) -> Result<(), OutOfMemory>
        ensures { OnOk result (self.new ≡ answer_start app error self.old) }
    {
        let from = self.here.process(Role::Starter(app));
        let to = self.here.process(Role::Controller);
        let message = Message::ApplicationStarted(app, error);
        self.output(Output::Send(Envelope { from, to, message }))
    }

    // The application hasn't ended by itself since its last start.
    pub(crate) fn forget_end(&mut self, app: App)
        ensures { self.new ≡ forget_end app self.old }
    {
        drop_app(&mut self.state.ended, app);
    }

    // It starts, or lacks something.
    fn spawned(&mut self, app: App, kind: StartType, lacked: Option<Dep>) -> Result<(), OutOfMemory>
        ensures { OnOk result (self.new ≡ spawned app kind lacked self.old) }
    {
        if lacked.is_none() {
            self.forget_end(app);
            let node = self.here.node;
            self.tell(Event::Started(app, node, kind))?;
        }
        self.answer_start(app, lacked)
    }

    // spawn_starter/4, start_appl/3
    #[tactic(auto, unfolding(crate::specs::Starting::spawn_starter))]
    pub(crate) fn spawn_starter(&mut self, app: App, kind: StartType) -> Result<(), OutOfMemory>
        ensures { OnOk result (self.new ≡ spawn_starter app kind self.old) }
    {
        let lacked = self.lacks_running(app);
        self.spawned(app, kind, lacked)
    }

    // An application is being started.
    pub(crate) fn add_starting(
        &mut self,
        app: App,
        restart: Option<Restart>,
        kind: StartType,
    ) -> Result<(), OutOfMemory>
        ensures { OnOk result (self.new ≡ add_starting app restart kind self.old) }
    {
        self.state
            .starting
            .insert(0, (app, Starting { restart, kind }))?;
        Ok(())
    }

    // One more asks for the start of an application.
    pub(crate) fn add_request(
        &mut self,
        app: App,
        caller: Option<Process>,
    ) -> Result<(), OutOfMemory>
        ensures { OnOk result (self.new ≡ add_request app caller self.old) }
    {
        self.state.start_req.insert(0, (app, caller))?;
        Ok(())
    }
}
