//! What comes of it where a live OTP looks for the node of an application.

ghost use Rattle.std.specs.Prelude.{◌≡◌, true};
ghost use Rattle.rh_step_findings.specs.Candidates.{is_available};
ghost use Rattle.rh_step_findings.specs.Tries.{tries};
ghost use Rattle.rh_step_findings.specs.Touched.{trial_of};

use crate::step::Step;
use rh_model::{App, Node};
use rh_step_findings::Trial;

impl<'a> Step<'a> {
    // What comes of a trial at a node that may run the application. Each answer that several kinds ask for is looked for once.
    #[tactic(auto, using(crate::proofs::Unlikely::trial_there_is))]
    fn trial_there(&self, node: Node, app: App) -> Trial
        requires tried { tries self.now.state self.now.event node app ≡ true }
        requires available { is_available self.now.state self.now.event app node ≡ true }
        ensures { result ≡ trial_of self.now.state self.now.event node app }
    {
        let homeless = self.runner(app).is_none();
        let best = !self.is_outranked(app, node);
        let behind = self.is_behind(app);
        Trial {
            waits: (homeless || best && behind) && self.has_spare(app),
            forbidden: false,
            below: !best && behind && !self.is_regained(app),
            back: best && behind,
            weighs: best && homeless && self.is_behind_tuple(app, node),
        }
    }

    // What comes of a trial. Of a node that may not run it one kind alone speaks: who ranks before it is asked only where that matters.
    #[tactic(auto, using(crate::proofs::Unlikely::trial_nowhere_is))]
    fn trial_made(&self, node: Node, app: App) -> Trial
        requires { tries self.now.state self.now.event node app ≡ true }
        ensures { result ≡ trial_of self.now.state self.now.event node app }
    {
        if self.is_available(app, node) {
            self.trial_there(node, app)
        } else {
            Trial {
                waits: false,
                forbidden: self.starts_forbidden(node, app),
                below: false,
                back: false,
                weighs: false,
            }
        }
    }

    /// What comes of a trial at a node, if there is one.
    #[tactic(auto, using(crate::proofs::Unlikely::no_trial))]
    pub(crate) fn trial(&self, node: Node, app: App) -> Trial
        ensures { result ≡ trial_of self.now.state self.now.event node app }
    {
        if self.tries(node, app) {
            self.trial_made(node, app)
        } else {
            Trial {
                waits: false,
                forbidden: false,
                below: false,
                back: false,
                weighs: false,
            }
        }
    }
}
