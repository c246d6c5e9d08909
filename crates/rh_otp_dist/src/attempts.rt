//! The end of a start: what the controller is told, and what comes behind it.

ghost use Rattle.std.specs.Prelude.{◌≡◌, OnOk};
ghost use Rattle.rh_otp_dist.specs.State.{with_state, with_standing};
ghost use Rattle.rh_otp_dist.specs.Attempts.{reply_of, change_of, message_of, tell_controller, has_app, add_started, without_told, settled, restored, permitted_then, behind_start, finish, runs_elsewhere};

use crate::attempt::{AskedBy, Attempt, PermitCall};
use crate::state::{Stand, Standing, Told};
use crate::turn::Turn;
use crate::verdict::Verdict;
use rh_base::OutOfMemory;
use rh_model::{App, Node};
use rh_otp_model::{Change, Message, Outcome, Reply, Requester, key_delete};

// What the controller is told.
fn message_of(asked_by: AskedBy, app: App, verdict: Verdict) -> Message
    ensures { result ≡ message_of asked_by app verdict }
{
    match asked_by {
        AskedBy::Controller => Message::Reply(app, reply_of(verdict)),
        AskedBy::Nobody => Message::Change(app, change_of(verdict)),
    }
}

// The same as a reply. A failover is never one.
fn reply_of(verdict: Verdict) -> Reply
    ensures { result ≡ reply_of verdict }
{
    match verdict {
        Verdict::StartIt | Verdict::Failover(_) => Reply::StartIt,
        Verdict::NotStarted => Reply::NotStarted,
        Verdict::Started(node) => Reply::Started(node),
        Verdict::Takeover(node) => Reply::Takeover(node),
    }
}

// The same as a change.
fn change_of(verdict: Verdict) -> Change
    ensures { result ≡ change_of verdict }
{
    match verdict {
        Verdict::StartIt => Change::StartIt,
        Verdict::NotStarted => Change::StopIt,
        Verdict::Started(node) => Change::Started(node),
        Verdict::Takeover(node) => Change::Takeover(node, None),
        Verdict::Failover(node) => Change::Failover(node),
    }
}

// Without the weights that were told of an application.
pub(crate) fn drop_told(told: &mut Vec<Told>, app: App)
    ensures { told.new.items ≡ without_told app told.old.items }
{
    told.retain(|one| one.app.0 != app.0);
}

// Is the application one of these?
pub(crate) fn has_app(apps: &[App], app: App) -> bool
    ensures { result ≡ has_app app apps.now }
{
    apps.iter().any(|other| other.0 == app.0)
}

// With an application that is started here.
fn add_started(started: &mut Vec<App>, app: App) -> Result<(), OutOfMemory>
    ensures { OnOk result (started.new.items ≡ add_started app started.old.items) }
{
    if !has_app(started.as_slice(), app) {
        started.insert(0, app)?;
    }
    Ok(())
}

impl<'a> Turn<'a> {
    // Tells the controller.
    pub(crate) fn tell_controller(
        &mut self,
        asked_by: AskedBy,
        app: App,
        verdict: Verdict,
    ) -> Result<(), OutOfMemory>
        ensures { OnOk result (self.new ≡ tell_controller asked_by app verdict self.old) }
    {
        self.to_controller(message_of(asked_by, app, verdict))
    }

    // How an application stands.
    pub(crate) fn set_standing(&mut self, app: App, standing: Standing)
        ensures { self.new ≡ with_state (with_standing app standing self.old.state) self.old }
    {
        if let Some(appl) = self.state.appls.get_mut(app.0 as usize) {
            appl.standing = standing;
        }
    }

    // The state behind a start.
    fn settle(&mut self, app: App, standing: Standing) -> Result<(), OutOfMemory>
        ensures { OnOk result
            (self.new ≡ with_state (settled app standing self.old.state) self.old) }
    {
        self.set_standing(app, standing);
        self.state.stand = Stand::Idle;
        drop_told(&mut self.state.tmp_locals, app);
        key_delete(&mut self.state.tmp_weights, app);
        key_delete(&mut self.state.remote_started, app);
        add_started(&mut self.state.started, app)
    }

    // The state as it was before a call of permit.
    fn restore(&mut self, app: App, before: PermitCall)
        ensures { self.new ≡ with_state (restored app before self.old.state) self.old }
    {
        let PermitCall {
            caller: _,
            standing,
            remote_started,
            started,
            tmp_locals,
            tmp_weights,
        } = before;
        self.set_standing(app, standing);
        self.state.remote_started = remote_started;
        self.state.started = started;
        self.state.tmp_locals = tmp_locals;
        self.state.tmp_weights = tmp_weights;
    }

    // permit/6, behind the start.
    fn permitted_then(
        &mut self,
        app: App,
        is_waiting: bool,
        before: PermitCall,
    ) -> Result<(), OutOfMemory>
        ensures { OnOk result (self.new ≡ permitted_then app is_waiting before self.old) }
    {
        let caller = before.caller;
        if is_waiting {
            self.free_lock(Requester::Alone(caller), caller)?;
            self.state.t_reqs.insert(0, (app, caller))?;
            return Ok(());
        }
        self.restore(app, before);
        self.answer(caller, Outcome::Done)
    }

    // What the one who asked for the start does behind it.
    pub(crate) fn behind_start(
        &mut self,
        attempt: Attempt,
        is_waiting: bool,
    ) -> Result<(), OutOfMemory>
        ensures { OnOk result (self.new ≡ behind_start attempt is_waiting self.old) }
    {
        let Attempt {
            app,
            asked_by,
            permitted: _,
            permit,
        } = attempt;
        self.state.stand = Stand::Idle;
        match asked_by {
            AskedBy::Controller => {
                let me = self.me();
                self.free_lock(Requester::Alone(me), me)
            }
            AskedBy::Nobody => match permit {
                Some(before) => self.permitted_then(app, is_waiting, before),
                None => Ok(()),
            },
        }
    }

    // The end of start_appl/3.
    #[tactic(auto, unfolding(crate::specs::Attempts::finish))]
    pub(crate) fn finish(
        &mut self,
        attempt: Attempt,
        standing: Standing,
        is_waiting: bool,
    ) -> Result<(), OutOfMemory>
        ensures { OnOk result (self.new ≡ finish attempt standing is_waiting self.old) }
    {
        let app = attempt.app();
        self.settle(app, standing)?;
        self.behind_start(attempt, is_waiting)
    }

    // start_distributed/6: it runs at another node.
    #[tactic(auto, unfolding(crate::specs::Attempts::runs_elsewhere))]
    pub(crate) fn runs_elsewhere(&mut self, attempt: Attempt, node: Node) -> Result<(), OutOfMemory>
        ensures { OnOk result (self.new ≡ runs_elsewhere attempt node self.old) }
    {
        self.tell_controller(attempt.asked_by(), attempt.app(), Verdict::Started(node))?;
        self.finish(attempt, Standing::Distributed(node), false)
    }
}
