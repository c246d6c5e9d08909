//! What dist_ac wants of a controller, and its messages as a whole.

ghost use Rattle.std.specs.Prelude.{◌≡◌, OnOk};
ghost use Rattle.rh_otp_controller.specs.Changes.{kept_restart, do_start, set_elsewhere, start_here, change_running, change_idle, changed, change, handled, received};

use crate::reading::has_phases;
use crate::state::Place;
use crate::turn::Turn;
use rh_base::OutOfMemory;
use rh_model::{App, Restart};
use rh_otp_model::{Change, Message, StartType, has_row, key_delete, key_find, key_replace};

// The first of two restart types that is known.
fn kept_restart(restart: Option<Restart>, started: Option<Option<Restart>>) -> Option<Restart>
    ensures { result ≡ kept_restart restart started }
{
    match restart {
        Some(restart) => Some(restart),
        None => started.unwrap_or(None),
    }
}

impl<'a> Turn<'a> {
    // do_start/5
    #[tactic(auto, unfolding(crate::specs::Changes::do_start))]
    fn do_start(
        &mut self,
        app: App,
        restart: Option<Restart>,
        kind: StartType,
    ) -> Result<(), OutOfMemory>
        ensures { OnOk result (self.new ≡ do_start app restart kind self.old) }
    {
        if has_row(self.state.start_req.as_slice(), app) {
            return Ok(());
        }
        let kept = kept_restart(restart, key_find(self.state.started.as_slice(), app));
        self.spawn_starter(app, kind)?;
        if !has_row(self.state.starting.as_slice(), app) {
            self.add_starting(app, kept, kind)?;
        }
        self.add_request(app, None)
    }

    // It runs at this place now.
    fn set_elsewhere(&mut self, app: App, place: Place) -> Result<(), OutOfMemory>
        ensures { OnOk result (self.new ≡ set_elsewhere app place self.old) }
    {
        key_delete(&mut self.state.running, app);
        self.state.running.insert(0, (app, place))?;
        Ok(())
    }

    // It stops, and runs nowhere.
    fn stop_it(&mut self, app: App, place: Place) -> Result<(), OutOfMemory>
        ensures { OnOk result (self.new ≡ change_running app Change.StopIt place self.old) }
    {
        self.stop_appl(app, Some(place))?;
        self.control(app, Message::NotRun(app))?;
        key_replace(&mut self.state.running, app, Place::Nowhere);
        Ok(())
    }

    // Of one that runs elsewhere, or nowhere: it is to start here.
    fn start_here(&mut self, app: App, what: Change) -> Result<(), OutOfMemory>
        ensures { OnOk result (self.new ≡ start_here app what self.old) }
    {
        match what {
            Change::Failover(node) => {
                let has = has_phases(self.cluster, app);
                self.do_start(
                    app,
                    None,
                    if has {
                        StartType::Failover(node)
                    } else {
                        StartType::Normal
                    },
                )
            }
            Change::Takeover(node, restart) => self.do_start(
                app,
                restart,
                StartType::Takeover(node),
            ),
            _ => self.do_start(app, None, StartType::Normal),
        }
    }

    // Of one that runs at this place and is started.
    fn change_running(&mut self, app: App, what: Change, place: Place) -> Result<(), OutOfMemory>
        ensures { OnOk result (self.new ≡ change_running app what place self.old) }
    {
        match what {
            Change::Started(node) => {
                self.stop_appl(app, Some(place))?;
                self.set_elsewhere(app, Place::At(node))
            }
            Change::StopIt => self.stop_it(app, place),
            Change::NotRunning => {
                key_delete(&mut self.state.running, app);
                Ok(())
            }
            _ if place == Place::Here => self.control(app, Message::Run(app, None)),
            _ => self.start_here(app, what),
        }
    }

    // Of one that is started, and doesn't run: it is to start.
    fn start_idle(&mut self, app: App) -> Result<(), OutOfMemory>
        ensures { OnOk result (self.new ≡ change_idle app Change.StartIt self.old) }
    {
        if has_row(self.state.running.as_slice(), app) {
            return Ok(());
        }
        if has_row(self.state.started.as_slice(), app) {
            self.do_start(app, None, StartType::Normal)?;
            key_delete(&mut self.state.started, app);
            return Ok(());
        }
        if has_row(self.state.starting.as_slice(), app) {
            return self.do_start(app, None, StartType::Normal);
        }
        Ok(())
    }

    // Of one that doesn't run, or isn't started.
    fn change_idle(&mut self, app: App, what: Change) -> Result<(), OutOfMemory>
        ensures { OnOk result (self.new ≡ change_idle app what self.old) }
    {
        match what {
            Change::Started(node) => self.set_elsewhere(app, Place::At(node)),
            Change::StartIt => self.start_idle(app),
            _ => Ok(()),
        }
    }

    // handle_info({ac_change_application_req, ..})
    #[tactic(auto, unfolding(crate::specs::Changes::change))]
    fn change(&mut self, app: App, what: Change) -> Result<(), OutOfMemory>
        ensures { OnOk result (self.new ≡ change app what self.old) }
    {
        let place = key_find(self.state.running.as_slice(), app);
        let is_started = has_row(self.state.started.as_slice(), app);
        match place {
            Some(place) if is_started => self.change_running(app, what, place),
            _ => self.change_idle(app, what),
        }
    }

    /// Handles a message; one that isn't the controller's is dropped. A controller that ends handles none. Where memory is refused
    /// the turn is of no use any more.
    #[tactic(auto, unfolding(crate::specs::Changes::received))]
    pub fn receive(&mut self, message: Message) -> Result<(), OutOfMemory>
        ensures { OnOk result (self.new ≡ received message self.old) }
    {
        if self.state.is_ending {
            return Ok(());
        }
        match message {
            Message::Start(app, restart, caller) => self.start(app, restart, caller),
            Message::Stop(app, caller) => self.stop(app, caller),
            Message::Permit(app, allow, caller) => self.permit(app, allow, caller),
            Message::TopEnds(app, is_normal, caller) => self.top_ends(app, is_normal, caller),
            Message::ApplicationStarted(app, error) => self.has_started(app, Place::Here, error),
            Message::Reply(app, what) => self.start_reply(app, what),
            Message::Change(app, what) => self.change(app, what),
            _ => Ok(()),
        }
    }
}
