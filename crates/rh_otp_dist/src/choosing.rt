//! At which node an application is to run.

ghost use Rattle.std.specs.Prelude.{◌≡◌, IfOk, OnOk};
ghost use Rattle.rh_otp_dist.specs.State.{standing_of};
ghost use Rattle.rh_otp_dist.specs.Choosing.{candidates_of, remote, runs_at, cached_weight, wait, verdict_here, start_here, is_node, is_to_start, if_among, check_running, runs_there, outside, start_distributed, start_appl};

use crate::attempt::{AskedBy, Attempt, PermitCall};
use crate::reading::{among, backwards, permitted, runs_at};
use crate::state::{Stand, Standing};
use crate::turn::Turn;
use crate::verdict::Verdict;
use rh_base::OutOfMemory;
use rh_model::{App, Node, is_in};
use rh_otp_model::key_find;

// What the controller of the chosen node is told.
fn verdict_here(standing: Standing, asked_by: AskedBy, runner: Option<Node>) -> Verdict
    ensures { result ≡ verdict_here standing asked_by runner }
{
    match asked_by {
        AskedBy::Nobody => match standing {
            Standing::Failover(node) => Verdict::Failover(node),
            Standing::Distributed(node) => Verdict::Takeover(node),
            _ => Verdict::StartIt,
        },
        AskedBy::Controller => match runner {
            Some(node) => Verdict::Takeover(node),
            None => Verdict::StartIt,
        },
    }
}

// Is it this node?
pub(crate) fn is_node(node: Node, other: Option<Node>) -> bool
    ensures { result ≡ is_node node other }
{
    match other {
        Some(other) => other.0 == node.0,
        None => false,
    }
}

// This node, if it is one of these.
fn if_among(nodes: &[Node], node: Option<Node>) -> Option<Node>
    ensures { result ≡ if_among nodes.now node }
{
    let node = node?;
    if is_in(node, nodes) { Some(node) } else { None }
}

impl<'a> Turn<'a> {
    // How an application stands.
    pub(crate) fn standing(&self, app: App) -> Standing
        ensures { result ≡ standing_of self.now.state app }
    {
        self.state.standing(app)
    }

    // The node of which it knows that the application runs there, though it isn't started here.
    pub(crate) fn remote(&self, app: App) -> Option<Node>
        ensures { result ≡ remote self.now.state app }
    {
        key_find(self.state.remote_started.as_slice(), app)
    }

    // get_cached_weight/2
    pub(crate) fn cached_weight(&self, app: App) -> u32
        ensures { result ≡ cached_weight self.now app }
    {
        key_find(self.state.tmp_weights.as_slice(), app).unwrap_or(self.weight)
    }

    // It stands in the middle of something from now on.
    pub(crate) fn wait(&mut self, stand: Stand)
        ensures { self.new ≡ wait stand self.old }
    {
        self.state.stand = stand;
    }

    // start_distributed/6: this node is to run it.
    #[tactic(auto, unfolding(crate::specs::Choosing::start_here))]
    fn start_here(&mut self, attempt: Attempt) -> Result<(), OutOfMemory>
        ensures { OnOk result (self.new ≡ start_here attempt self.old) }
    {
        let app = attempt.app();
        let verdict = verdict_here(self.standing(app), attempt.asked_by(), self.remote(app));
        self.tell_controller(attempt.asked_by(), app, verdict)?;
        self.finish(attempt, Standing::RunWaiting, true)
    }

    // start_distributed/6: a node is chosen.
    #[tactic(auto, unfolding(crate::specs::Choosing::is_to_start))]
    pub(crate) fn is_to_start(&mut self, attempt: Attempt, node: Node) -> Result<(), OutOfMemory>
        ensures { OnOk result (self.new ≡ is_to_start attempt node self.old) }
    {
        if node.0 == self.here.node.0 {
            return self.start_here(attempt);
        }
        if is_node(node, runs_at(self.standing(attempt.app()))) {
            return self.runs_elsewhere(attempt, node);
        }
        self.monitor(node)?;
        self.wait(Stand::ForStart(attempt, node));
        Ok(())
    }

    // check_running/3
    pub(crate) fn check_running(&self, app: App, group: &[Node]) -> Option<Node>
        ensures { result ≡ check_running self.now.state app group.now }
    {
        let runner = self.remote(app).or(runs_at(self.standing(app)));
        if_among(group, runner)
    }

    // Does the application run at this node, as far as is known here?
    pub(crate) fn runs_there(&self, app: App, node: Node) -> bool
        ensures { result ≡ runs_there self.now.state app node }
    {
        is_node(node, runs_at(self.standing(app))) || is_node(node, self.remote(app))
    }

    // The nodes of the list that may run it.
    fn candidates_of(&self, attempt: &Attempt) -> Result<Vec<Node>, OutOfMemory>
        ensures { IfOk result (λ nodes. nodes.items ≡ candidates_of self.now.own attempt.now) }
    {
        let nodes = backwards(self.alloc, self.own, attempt.app())?;
        among(self.alloc, nodes.as_slice(), attempt.permitted())
    }

    // Of a node that may not run it.
    fn outside(
        &mut self,
        attempt: Attempt,
        candidates: &[Node],
        runner: Option<Node>,
    ) -> Result<(), OutOfMemory>
        ensures { OnOk result (self.new ≡ outside attempt candidates.now runner self.old) }
    {
        if let Some(node) = runner {
            return self.runs_elsewhere(attempt, node);
        }
        if candidates.is_empty() {
            self.tell_controller(attempt.asked_by(), attempt.app(), Verdict::NotStarted)?;
            return self.finish(attempt, Standing::Undefined, false);
        }
        self.wait(Stand::ForAnyStart(attempt));
        Ok(())
    }

    // start_distributed/6 with find_start_node/4.
    #[tactic(auto, unfolding(crate::specs::Choosing::start_distributed))]
    pub(crate) fn start_distributed(&mut self, attempt: Attempt) -> Result<(), OutOfMemory>
        ensures { OnOk result (self.new ≡ start_distributed attempt self.old) }
    {
        let candidates = self.candidates_of(&attempt)?;
        if is_in(self.here.node, candidates.as_slice()) {
            return self.find_start_node(attempt, candidates, 0);
        }
        let runner = self.remote(attempt.app());
        self.outside(attempt, candidates.as_slice(), runner)
    }

    // start_appl/3
    #[tactic(auto, unfolding(crate::specs::Choosing::start_appl))]
    pub(crate) fn start_appl(
        &mut self,
        app: App,
        asked_by: AskedBy,
        permit: Option<PermitCall>,
    ) -> Result<(), OutOfMemory>
        ensures { OnOk result (self.new ≡ start_appl app asked_by permit self.old) }
    {
        let permitted = permitted(self.alloc, &self.state, app)?;
        let attempt = Attempt {
            app,
            asked_by,
            permitted,
            permit,
        };
        match self.standing(app) {
            Standing::Local => self.behind_start(attempt, false),
            _ => self.start_distributed(attempt),
        }
    }
}
