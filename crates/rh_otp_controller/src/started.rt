//! What becomes of a start.

ghost use Rattle.std.specs.Prelude.{◌≡◌, [], IfOk, OnOk, Some};
ghost use Rattle.rh_otp_controller.specs.Starting.{reply_each, with_requests, reply_to_requester, end_starting, set_running, ends_node, outcome_of, started_by, has_started, is_permanent, replied, start_reply, spawn_starter, add_starting};

use crate::state::{Place, Starting};
use crate::turn::Turn;
use rh_base::OutOfMemory;
use rh_model::{App, Dep, Restart};
use rh_otp_model::{
    Fault, Message, Outcome, Process, Reply, StartType, drop_rows, key_delete, key_find, key_store,
};
use std::mem;

// The answer that a start has.
fn outcome_of(error: Option<Dep>) -> Outcome
    ensures { result ≡ outcome_of error }
{
    match error {
        None => Outcome::Done,
        Some(dep) => Outcome::Failed(Fault::NeedsRunning(dep)),
    }
}

// Does the end of an application with this restart type end its node, where it can't be started?
fn ends_node(restart: Option<Restart>) -> bool
    ensures { result ≡ ends_node restart }
{
    !matches!(restart, Some(Restart::Temporary))
}

// The restart type that ends a node whatever it ends by.
fn is_permanent(restart: Option<Restart>) -> bool
    ensures { result ≡ is_permanent restart }
{
    matches!(restart, Some(Restart::Permanent))
}

impl<'a> Turn<'a> {
    // Answers to all of these that have asked for the application.
    fn reply_each(
        &mut self,
        app: App,
        outcome: Outcome,
        rows: &[(App, Option<Process>)],
    ) -> Result<(), OutOfMemory>
        ensures { OnOk result (self.new ≡ reply_each app outcome rows.now self.old) }
    {
        for row in rows {
            if row.0.0 == app.0 {
                self.reply_to(row.1, outcome)?;
            }
        }
        Ok(())
    }

    // Takes out who has asked for starts.
    fn take_requests(&mut self) -> Result<Vec<(App, Option<Process>)>, OutOfMemory>
        ensures rows { IfOk result (λ rows. rows.items ≡ self.old.state.start_req) }
        ensures left { OnOk result (self.new ≡ with_requests [] self.old) }
    {
        Ok(mem::try_take(&mut self.state.start_req)?)
    }

    // Puts these back.
    fn put_requests(&mut self, rows: Vec<(App, Option<Process>)>)
        ensures { self.new ≡ with_requests rows.items self.old }
    {
        self.state.start_req = rows;
    }

    // reply_to_requester/3
    #[tactic(auto, using(crate::proofs::Replies::requests_put_back))]
    fn reply_to_requester(&mut self, app: App, outcome: Outcome) -> Result<(), OutOfMemory>
        ensures { OnOk result (self.new ≡ reply_to_requester app outcome self.old) }
    {
        let mut rows = self.take_requests()?;
        self.reply_each(app, outcome, rows.as_slice())?;
        drop_rows(&mut rows, app);
        self.put_requests(rows);
        Ok(())
    }

    // It isn't being started any more.
    fn end_starting(&mut self, app: App)
        ensures { self.new ≡ end_starting app self.old }
    {
        key_delete(&mut self.state.starting, app);
    }

    // It runs at this place, and is started with this restart type.
    fn set_running(
        &mut self,
        app: App,
        place: Place,
        restart: Option<Restart>,
    ) -> Result<(), OutOfMemory>
        ensures { OnOk result (self.new ≡ set_running app place restart self.old) }
    {
        key_store(&mut self.state.running, app, place)?;
        key_store(&mut self.state.started, app, restart)
    }

    // It was being started, so it runs, or was lacking something.
    fn started_by(
        &mut self,
        app: App,
        place: Place,
        error: Option<Dep>,
        row: Starting,
    ) -> Result<(), OutOfMemory>
        ensures { OnOk result (self.new ≡ started_by app place error (Some row) self.old) }
    {
        self.end_starting(app);
        if error.is_some() {
            self.control(app, Message::Run(app, error))?;
            self.state.is_ending = ends_node(row.restart);
            return Ok(());
        }
        if place == Place::Here {
            self.control(app, Message::Run(app, None))?;
        }
        self.set_running(app, place, row.restart)
    }

    // handle_application_started/3
    #[tactic(auto, unfolding(crate::specs::Starting::has_started))]
    pub(crate) fn has_started(
        &mut self,
        app: App,
        place: Place,
        error: Option<Dep>,
    ) -> Result<(), OutOfMemory>
        ensures { OnOk result (self.new ≡ has_started app place error self.old) }
    {
        self.reply_to_requester(app, outcome_of(error))?;
        match key_find(self.state.starting.as_slice(), app) {
            Some(row) => self.started_by(app, place, error, row),
            None => Ok(()),
        }
    }

    // No node can run it: it counts as started.
    fn count_started(&mut self, app: App, row: Starting) -> Result<(), OutOfMemory>
        ensures { OnOk result (self.new ≡ replied app Reply.NotStarted (Some row) self.old) }
    {
        self.reply_to_requester(app, Outcome::Done)?;
        self.end_starting(app);
        self.state.started.insert(0, (app, row.restart))?;
        Ok(())
    }

    // It is started in place of another one.
    fn start_in_place(
        &mut self,
        app: App,
        kind: StartType,
        row: Starting,
    ) -> Result<(), OutOfMemory>
        ensures { OnOk result (self.new ≡ spawn_starter app kind
            (add_starting app row.restart kind (end_starting app self.old))) }
    {
        self.end_starting(app);
        self.add_starting(app, row.restart, kind)?;
        self.spawn_starter(app, kind)
    }

    // It can't be started.
    fn fail_start(&mut self, app: App, fault: Fault, row: Starting) -> Result<(), OutOfMemory>
        ensures { OnOk result (self.new ≡ replied app (Reply.Error fault) (Some row) self.old) }
    {
        self.reply_to_requester(app, Outcome::Failed(fault))?;
        if is_permanent(row.restart) {
            self.state.is_ending = true;
        } else {
            self.end_starting(app);
        }
        Ok(())
    }

    // handle_info({ac_start_application_reply, ..})
    #[tactic(auto, unfolding(crate::specs::Starting::start_reply))]
    pub(crate) fn start_reply(&mut self, app: App, what: Reply) -> Result<(), OutOfMemory>
        ensures { OnOk result (self.new ≡ start_reply app what self.old) }
    {
        let Some(row) = key_find(self.state.starting.as_slice(), app) else {
            return Ok(());
        };
        match what {
            Reply::StartIt => self.spawn_starter(app, row.kind),
            Reply::Started(node) => self.has_started(app, Place::At(node), None),
            Reply::NotStarted => self.count_started(app, row),
            Reply::Takeover(node) => self.start_in_place(app, StartType::Takeover(node), row),
            Reply::Error(fault) => self.fail_start(app, fault, row),
        }
    }
}
