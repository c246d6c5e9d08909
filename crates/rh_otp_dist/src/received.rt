//! What a dist_ac does at a message.

ghost use Rattle.std.specs.Prelude.{◌≡◌, ◌<◌, OnOk, length};
ghost use Rattle.rh_otp_dist.specs.Received.{start_request, handled, resumed, next_mail, handle_next};

use crate::attempt::AskedBy;
use crate::state::Stand;
use crate::turn::Turn;
use rh_base::OutOfMemory;
use rh_model::App;
use rh_otp_model::Message;
use std::mem;

impl<'a> Turn<'a> {
    // handle_info({ac_start_application_req, ..})
    fn start_request(&mut self, app: App) -> Result<(), OutOfMemory>
        ensures { OnOk result (self.new ≡ start_request app self.old) }
    {
        if self.has_lock {
            return self.start_appl(app, AskedBy::Controller, None);
        }
        self.state.parked.push(app)?;
        Ok(())
    }

    // A message that it takes where it waits for any.
    fn handle(&mut self, message: Message) -> Result<(), OutOfMemory>
        ensures { OnOk result (self.new ≡ handled message self.old) }
    {
        match message {
            Message::StartRequest(app) => self.start_request(app),
            Message::Run(app, error) => self.run(app, error),
            Message::NotRun(app) => self.not_run(app),
            Message::Stopped(app) => self.stopped(app),
            Message::NewNode(node, allowed, started) => self.new_node(node, allowed, started),
            Message::AppStarted(node, app, error) => self.app_started(node, app, error),
            Message::AppStopped(app) => {
                self.app_stopped(app);
                Ok(())
            }
            Message::Weight(app, weight, node) => self.weight_told(app, weight, node),
            Message::NodeDown(node) => self.node_down(node),
            Message::RestartAppl(app, _) => self.restart(app),
            Message::NewPermission(node, app, allow, is_his) => {
                self.new_permission(node, app, allow, is_his)
            }
            Message::TakeOver(app, restart, caller) => self.take_over(app, restart, caller),
            Message::PermitDistributed(app, allow, only_loaded, caller) => {
                self.permit(app, allow, only_loaded, caller)
            }
            Message::GetNodes(app, caller) => self.get_nodes(app, caller),
            _ => Ok(()),
        }
    }

    // How it goes on where it stood in the middle of something.
    fn resume(&mut self, stand: Stand, message: Message) -> Result<(), OutOfMemory>
        ensures { OnOk result (self.new ≡ resumed stand message self.old) }
    {
        match stand {
            Stand::Idle => self.handle(message),
            Stand::ForGo | Stand::ForLock(_) => Ok(()),
            Stand::ForIntroduction(stand) => self.introduced(stand, message),
            Stand::ForWeight(stand) => self.weighed(stand, message),
            Stand::ForStart(attempt, node) => self.started_there(attempt, node, message),
            Stand::ForAnyStart(attempt) => self.started_anywhere(attempt, message),
        }
    }

    /// The place in its mailbox of the first message that it takes where it stands.
    pub fn next_mail(&self) -> Option<usize>
        ensures { result ≡ next_mail self.now.state }
    {
        self.state.next_mail()
    }

    /// Takes the message at this place out of its mailbox, and handles it. After an error the turn is good for nothing.
    #[tactic(auto, unfolding(crate::specs::Received::handle_next))]
    pub fn handle_next(&mut self, place: usize) -> Result<(), OutOfMemory>
        requires { place < length self.old.state.mail }
        ensures { OnOk result (self.new ≡ handle_next place self.old) }
    {
        let message = self.state.mail.remove(place);
        let stand = mem::replace(&mut self.state.stand, Stand::Idle);
        self.resume(stand, message)
    }
}
