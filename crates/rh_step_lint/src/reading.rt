//! What stands in the state before a step. Each reader takes any number: of a node or an application that the cluster hasn't it
//! tells what the definitions tell of it, that it is down, runs nothing and may do nothing.

ghost use Rattle.std.specs.Prelude.{◌≡◌};
ghost use Rattle.rh_model.specs.ClusterView.{boot_of, mandatory_of, optional_of, sync_wait_of, group_of, has_phases};
ghost use Rattle.rh_model.specs.Needs.{needed_apps};
ghost use Rattle.rh_state.specs.StateView.{mode_of, is_up, is_alive, is_waiting, runs_at, waits_at, is_started, place_of, is_allowed, restart_of, standing_of};
ghost use Rattle.rh_state.specs.Standings.{is_quiet};
ghost use Rattle.rh_rules.specs.Course.{is_local};
ghost use Rattle.rh_rules.specs.NodesEnd.{timeout_of};
ghost use Rattle.rh_step_findings.specs.Ranked.{groups_at};

use crate::step::Step;
use rh_model::{App, Group, Node, Restart, SyncWait};
use rh_state::{Mode, Place, Standing};

impl<'a> Step<'a> {
    /// What a node does.
    #[tactic(auto, using(crate::proofs::Beyond::is_below, crate::proofs::Beyond::mode_beyond))]
    pub(crate) fn mode(&self, node: Node) -> Mode
        ensures { result ≡ mode_of self.now.state node }
    {
        self.state.formed();
        if !self.knows(node) {
            return Mode::Down;
        }
        self.state.mode(node)
    }

    /// Is it up?
    pub(crate) fn is_up(&self, node: Node) -> bool
        ensures { result ≡ is_up (mode_of self.now.state node) }
    {
        self.mode(node) == Mode::Up
    }

    /// Does it wait?
    pub(crate) fn is_waiting(&self, node: Node) -> bool
        ensures { result ≡ is_waiting (mode_of self.now.state node) }
    {
        self.mode(node) == Mode::Waiting
    }

    /// Is it alive?
    pub(crate) fn is_alive(&self, node: Node) -> bool
        ensures { result ≡ is_alive (mode_of self.now.state node) }
    {
        self.mode(node) != Mode::Down
    }

    // In which list of a node an application stands.
    #[tactic(auto, using(crate::proofs::Beyond::is_below, crate::proofs::Beyond::place_beyond_node, crate::proofs::Beyond::place_beyond_app))]
    fn place(&self, node: Node, app: App) -> Place
        ensures { result ≡ place_of self.now.state node app }
    {
        self.state.formed();
        if self.knows(node) && self.knows_app(app) {
            self.state.place_of(node, app)
        } else {
            Place::Off
        }
    }

    /// Does it run there?
    pub(crate) fn runs(&self, node: Node, app: App) -> bool
        ensures { result ≡ runs_at self.now.state node app }
    {
        matches!(self.place(node, app), Place::InRunning)
    }

    /// Does it wait there?
    pub(crate) fn waits(&self, node: Node, app: App) -> bool
        ensures { result ≡ waits_at self.now.state node app }
    {
        self.state.formed();
        matches!(self.place(node, app), Place::InWaiting)
    }

    /// Is it started there?
    pub(crate) fn is_started(&self, node: Node, app: App) -> bool
        ensures { result ≡ is_started self.now.state node app }
    {
        !matches!(self.place(node, app), Place::Off)
    }

    /// May it run there (kernel(6), `permissions`)?
    #[tactic(auto, using(crate::proofs::Beyond::is_below, crate::proofs::Beyond::allowed_beyond_node, crate::proofs::Beyond::allowed_beyond_app))]
    pub(crate) fn allows(&self, node: Node, app: App) -> bool
        ensures { result ≡ is_allowed self.now.state node app }
    {
        self.state.formed();
        if self.knows(node) && self.knows_app(app) {
            self.state.allowed(node, app)
        } else {
            false
        }
    }

    /// The restart type that it was last given there (application(3)).
    #[tactic(auto, using(crate::proofs::Beyond::is_below, crate::proofs::Beyond::restart_beyond_node, crate::proofs::Beyond::restart_beyond_app))]
    pub(crate) fn restart(&self, node: Node, app: App) -> Restart
        ensures { result ≡ restart_of self.now.state node app }
    {
        self.state.formed();
        if self.knows(node) && self.knows_app(app) {
            self.state.restart_of(node, app)
        } else {
            Restart::Temporary
        }
    }

    /// Where an application stands.
    #[tactic(auto, using(crate::proofs::Beyond::is_below, crate::proofs::Beyond::standing_beyond))]
    pub(crate) fn standing_of(&self, app: App) -> Standing
        ensures { result ≡ standing_of self.now.state app }
    {
        self.state.formed();
        if self.knows_app(app) {
            self.state.standing(app)
        } else {
            Standing::Quiet
        }
    }

    /// Is it to run nowhere?
    pub(crate) fn is_quiet(&self, app: App) -> bool
        ensures { result ≡ is_quiet (standing_of self.now.state app) }
    {
        self.standing_of(app) == Standing::Quiet
    }

    /// Isn't it distributed?
    #[tactic(auto, using(crate::proofs::Beyond::is_below, crate::proofs::Beyond::local_beyond))]
    pub(crate) fn is_local(&self, app: App) -> bool
        ensures { result ≡ is_local self.now.state.cluster app }
    {
        self.within();
        if self.knows_app(app) {
            self.state.cluster().spread(app).is_none()
        } else {
            true
        }
    }

    /// How long it stays lost, in milliseconds (kernel(6), `distributed`).
    #[tactic(auto, using(crate::proofs::Beyond::is_below, crate::proofs::Beyond::timeout_beyond))]
    pub(crate) fn timeout(&self, app: App) -> u64
        ensures { result ≡ timeout_of self.now.state.cluster app }
    {
        self.within();
        if !self.knows_app(app) {
            return 0;
        }
        match self.state.cluster().spread(app) {
            Some(spread) => spread.timeout,
            None => 0,
        }
    }

    /// Has it start phases (app(4), `start_phases`)?
    #[tactic(auto, using(crate::proofs::Beyond::is_below, crate::proofs::Beyond::phases_beyond))]
    pub(crate) fn has_phases(&self, app: App) -> bool
        ensures { result ≡ has_phases self.now.state.cluster app }
    {
        self.within();
        if self.knows_app(app) {
            self.state.cluster().phases(app)
        } else {
            false
        }
    }

    /// The place of the group of its list that has the node.
    #[tactic(auto, using(crate::proofs::Beyond::is_below, crate::proofs::Beyond::group_beyond))]
    pub(crate) fn group(&self, app: App, node: Node) -> Option<usize>
        ensures { result ≡ group_of self.now.state.cluster app node }
    {
        self.within();
        if self.knows_app(app) {
            self.state.cluster().group_of(app, node)
        } else {
            None
        }
    }

    /// The groups of its list.
    #[tactic(auto, using(crate::proofs::Beyond::is_below, crate::proofs::Ranks::groups_beyond))]
    pub(crate) fn groups(&self, app: App) -> &[Group]
        ensures { result.now ≡ groups_at self.now.state.cluster app }
    {
        self.within();
        if !self.knows_app(app) {
            return &[];
        }
        match self.state.cluster().spread(app) {
            Some(spread) => spread.groups.as_slice(),
            None => &[],
        }
    }

    /// The applications that it needs, in written order (app(4), `applications`).
    #[tactic(auto, using(crate::proofs::Beyond::is_below, crate::proofs::Beyond::needs_beyond))]
    pub(crate) fn needs(&self, app: App) -> &[App]
        ensures { result.now ≡ needed_apps self.now.state.cluster app }
    {
        self.within();
        if self.knows_app(app) {
            self.state.cluster().needs(app)
        } else {
            &[]
        }
    }

    /// What a node boots, in order.
    #[tactic(auto, using(crate::proofs::Beyond::is_below, crate::proofs::Beyond::boot_beyond))]
    pub(crate) fn boot_list(&self, node: Node) -> &[(App, Restart)]
        ensures { result.now ≡ boot_of self.now.state.cluster node }
    {
        self.within();
        if self.knows(node) {
            self.state.cluster().boot(node)
        } else {
            &[]
        }
    }

    /// The nodes without which it ends (kernel(6), `sync_nodes_mandatory`).
    #[tactic(auto, using(crate::proofs::Beyond::is_below, crate::proofs::Beyond::mandatory_beyond))]
    pub(crate) fn mandatory(&self, node: Node) -> &[Node]
        ensures { result.now ≡ mandatory_of self.now.state.cluster node }
    {
        self.within();
        if self.knows(node) {
            self.state.cluster().mandatory(node)
        } else {
            &[]
        }
    }

    /// The others for which it waits (kernel(6), `sync_nodes_optional`).
    #[tactic(auto, using(crate::proofs::Beyond::is_below, crate::proofs::Beyond::optional_beyond))]
    pub(crate) fn optional(&self, node: Node) -> &[Node]
        ensures { result.now ≡ optional_of self.now.state.cluster node }
    {
        self.within();
        if self.knows(node) {
            self.state.cluster().optional(node)
        } else {
            &[]
        }
    }

    /// How long it waits (kernel(6), `sync_nodes_timeout`).
    #[tactic(auto, using(crate::proofs::Beyond::is_below, crate::proofs::Beyond::wait_beyond))]
    pub(crate) fn sync_wait(&self, node: Node) -> SyncWait
        ensures { result ≡ sync_wait_of self.now.state.cluster node }
    {
        self.within();
        if self.knows(node) {
            self.state.cluster().sync_wait(node)
        } else {
            SyncWait::Unset
        }
    }
}
