//! Where a step has a live OTP look for the node that is to run an application.

ghost use Rattle.std.specs.Prelude.{◌≡◌};
ghost use Rattle.rh_state.specs.Shape.{IsAppOf};
ghost use Rattle.rh_step_findings.specs.Tries.{runner, times_out, fails_over, is_called, is_permitted_by, tries, stays, is_open_from, asks_others};

use crate::step::Step;
use rh_model::{App, Node};
use rh_rules::Event;
use rh_state::{Standing, Timer};

impl<'a> Step<'a> {
    /// Where an application runs, if it runs and its node doesn't end.
    #[tactic(auto, unfolding(rh_step_findings::specs::Tries::runner))]
    pub(crate) fn runner(&self, app: App) -> Option<Node>
        ensures { result ≡ runner self.now.state self.now.event app }
    {
        match self.standing_of(app) {
            Standing::Running(node) if !self.ends(node) => Some(node),
            _ => None,
        }
    }

    // Does its failover timer fire within the tick?
    fn times_out(&self, app: App) -> bool
        requires { IsAppOf self.now.state.cluster app }
        ensures { result ≡ times_out self.now.state self.now.event app }
    {
        match self.event {
            Event::Tick { ms } => self.fires_within(ms, Timer::Failover(app)),
            _ => false,
        }
    }

    /// Is it lost without a timeout, or is its time over?
    #[tactic(auto, unfolding(rh_step_findings::specs::Tries::fails_over), using(crate::proofs::Beyond::is_below, crate::proofs::Beyond::standing_beyond))]
    pub(crate) fn fails_over(&self, app: App) -> bool
        ensures { result ≡ fails_over self.now.state self.now.event app }
    {
        self.state.formed();
        if !self.knows_app(app) {
            return false;
        }
        match self.standing_of(app) {
            Standing::Running(node) => self.ends(node) && self.timeout(app) == 0,
            Standing::Lost(_) => self.times_out(app),
            Standing::Quiet | Standing::Wanted(_) => false,
        }
    }

    /// Does it fail over to a node that is up and holds it ready?
    #[tactic(auto, unfolding(rh_step_findings::specs::Tries::is_called))]
    pub(crate) fn is_called(&self, node: Node, app: App) -> bool
        ensures { result ≡ is_called self.now.state self.now.event node app }
    {
        // Of all nodes few have it started: the others aren't asked what takes longer.
        self.is_started(node, app) && self.fails_over(app) && self.is_up_after(node)
    }

    /// Is it permitted at a node that holds it ready?
    #[tactic(auto, unfolding(rh_step_findings::specs::Tries::is_permitted_by))]
    pub(crate) fn is_permitted_by(&self, node: Node, app: App) -> bool
        ensures { result ≡ is_permitted_by self.now.state self.now.event node app }
    {
        match self.event {
            Event::Permit {
                node: at,
                app: one,
                allow,
            } => at.0 == node.0 && one.0 == app.0 && allow && self.waits(node, app),
            _ => false,
        }
    }

    /// Does a live OTP look for its node there?
    #[tactic(auto, unfolding(rh_step_findings::specs::Tries::tries))]
    pub(crate) fn tries(&self, node: Node, app: App) -> bool
        ensures { result ≡ tries self.now.state self.now.event node app }
    {
        !self.is_local(app)
            && (self.starts_now(node, app)
                || self.is_called(node, app)
                || self.is_permitted_by(node, app) && !self.is_quiet(app))
    }

    /// Does it stay where it runs?
    #[tactic(auto, unfolding(rh_step_findings::specs::Tries::stays))]
    pub(crate) fn stays(&self, app: App) -> bool
        ensures { result ≡ stays self.now.state self.now.event app }
    {
        match self.runner(app) {
            None => false,
            Some(at) => self.is_best(app, at),
        }
    }

    // Doesn't it stay where it runs?
    fn is_open(&self, node: Node, app: App) -> bool
        ensures { result ≡ is_open_from self.now.state self.now.event node app
            (runner self.now.state self.now.event app) }
    {
        match self.runner(app) {
            None => true,
            Some(at) => self.is_best(app, node) && !self.is_best(app, at),
        }
    }

    /// Does a node that may run it wait for others?
    #[tactic(auto, unfolding(rh_step_findings::specs::Tries::asks_others))]
    pub(crate) fn asks_others(&self, node: Node, app: App) -> bool
        ensures { result ≡ asks_others self.now.state self.now.event node app }
    {
        self.tries(node, app) && self.is_available(app, node) && self.is_open(node, app)
    }
}
