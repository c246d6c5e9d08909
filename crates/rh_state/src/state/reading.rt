//! The readers of a state.

ghost use Rattle.std.specs.Prelude.{◌≡◌, ◌<◌, ◌≤◌, IfSome, length, slice_get};
ghost use Rattle.rh_model.specs.ClusterView.{node_count, app_count};
ghost use Rattle.rh_state.specs.Limits.{time_limit, incarnation_limit};
ghost use Rattle.rh_state.specs.StateView.{mode_of, incarnation_of, running_at, waiting_at, running_count, place_of, next_in_list, restart_of, kind_of, is_allowed, standing_of};
ghost use Rattle.rh_state.specs.Shape.{IsAppOf, IsKindOf, IsStandingOf};
ghost use Rattle.rh_state.specs.Tables.{row};
ghost use Rattle.rh_state.specs.Stored.{read};

use crate::state::State;
use crate::status::{Kind, Mode, Place, Standing};
use rh_model::{App, Cluster, Node, Restart};

#[tactic(auto, unfolding(crate::specs::Stored::read))]
impl State {
    /// The cluster.
    pub fn cluster(&self) -> &Cluster
        ensures { result.now ≡ (read self.now).cluster }
    {
        &self.cluster
    }

    /// The time in milliseconds since the first state: at most [`State::TIME_LIMIT`].
    pub fn now(&self) -> u64
        ensures time { result ≡ (read self.now).time }
        ensures limit { result ≤ time_limit }
    {
        self.time
    }

    /// What a node does.
    pub fn mode(&self, node: Node) -> Mode
        requires { node.0 < node_count (read self.now).cluster }
        ensures { result ≡ mode_of (read self.now) node }
    {
        self.modes[node.0 as usize]
    }

    /// How often a node was started: at most [`State::INCARNATION_LIMIT`] times.
    pub fn incarnation(&self, node: Node) -> u16
        requires { node.0 < node_count (read self.now).cluster }
        ensures incarnation { result ≡ incarnation_of (read self.now) node }
        ensures limit { result ≤ incarnation_limit }
    {
        self.incarnations[node.0 as usize]
    }

    /// In which list of a node an application stands.
    pub fn place_of(&self, node: Node, app: App) -> Place
        requires node { node.0 < node_count (read self.now).cluster }
        requires app { app.0 < app_count (read self.now).cluster }
        ensures { result ≡ place_of (read self.now) node app }
    {
        match self.links.list_of(self.pair(node, app)) {
            None => Place::Off,
            Some(list) => {
                if list == node.0 as u32 {
                    Place::InRunning
                } else {
                    Place::InWaiting
                }
            }
        }
    }

    /// The application that stands first among those that run at a node.
    pub fn first_running(&self, node: Node) -> Option<App>
        requires { node.0 < node_count (read self.now).cluster }
        ensures first { result ≡ slice_get (running_at (read self.now) node) 0 }
        ensures number { IfSome result (λ app. IsAppOf (read self.now).cluster app) }
    {
        self.app_at(node, self.links.first(node.0 as u32))
    }

    /// The application that stands first among those that wait at a node.
    pub fn first_waiting(&self, node: Node) -> Option<App>
        requires { node.0 < node_count (read self.now).cluster }
        ensures first { result ≡ slice_get (waiting_at (read self.now) node) 0 }
        ensures number { IfSome result (λ app. IsAppOf (read self.now).cluster app) }
    {
        self.app_at(node, self.links.first(self.waiting_list(node)))
    }

    /// The application that stands behind this one in its list at a node; `None` for the last one of a list, and for one that
    /// stands in none.
    pub fn next_in_list(&self, node: Node, app: App) -> Option<App>
        requires node { node.0 < node_count (read self.now).cluster }
        requires app { app.0 < app_count (read self.now).cluster }
        ensures next { result ≡ next_in_list (read self.now) node app }
        ensures number { IfSome result (λ app. IsAppOf (read self.now).cluster app) }
    {
        let pair = self.pair(node, app);
        match self.links.list_of(pair) {
            None => None,
            Some(_) => self.app_at(node, self.links.next(pair)),
        }
    }

    /// How many applications run at a node.
    pub fn running_count(&self, node: Node) -> usize
        requires { node.0 < node_count (read self.now).cluster }
        ensures { result ≡ running_count (read self.now) node }
    {
        self.links.count(node.0 as u32) as usize
    }

    /// How many applications wait at a node.
    pub fn waiting_count(&self, node: Node) -> usize
        requires { node.0 < node_count (read self.now).cluster }
        ensures { result ≡ length (waiting_at (read self.now) node) }
    {
        self.links.count(self.waiting_list(node)) as usize
    }

    /// The restart type that an application was last given at a node, also where it isn't started: temporary at first
    /// (application(3)).
    pub fn restart_of(&self, node: Node, app: App) -> Restart
        requires node { node.0 < node_count (read self.now).cluster }
        requires app { app.0 < app_count (read self.now).cluster }
        ensures { result ≡ restart_of (read self.now) node app }
    {
        self.restarts.at(node.0, app.0)
    }

    /// How an application was last started at a node, also where it doesn't run: normally at first (application(3)).
    pub fn kind_of(&self, node: Node, app: App) -> Kind
        requires node { node.0 < node_count (read self.now).cluster }
        requires app { app.0 < app_count (read self.now).cluster }
        ensures kind { result ≡ kind_of (read self.now) node app }
        ensures number { IsKindOf (read self.now).cluster result }
    {
        self.kinds.at(node.0, app.0)
    }

    /// May an application run at a node (kernel(6), `permissions`)?
    pub fn allowed(&self, node: Node, app: App) -> bool
        requires node { node.0 < node_count (read self.now).cluster }
        requires app { app.0 < app_count (read self.now).cluster }
        ensures { result ≡ is_allowed (read self.now) node app }
    {
        self.allowed.at(node.0, app.0)
    }

    /// Which applications may run at a node, one answer for each application, in application order.
    pub fn permissions(&self, node: Node) -> &[bool]
        requires { node.0 < node_count (read self.now).cluster }
        ensures { result.now ≡ row (read self.now).allowed node.0 }
    {
        self.allowed.row(node.0)
    }

    /// Where an application stands; a local one is always quiet.
    pub fn standing(&self, app: App) -> Standing
        requires { app.0 < app_count (read self.now).cluster }
        ensures standing { result ≡ standing_of (read self.now) app }
        ensures number { IsStandingOf (read self.now).cluster result }
    {
        self.standings[app.0 as usize]
    }

    /// Where each application stands, in application order.
    pub fn standings(&self) -> &[Standing]
        ensures { result.now ≡ (read self.now).standings }
    {
        self.standings.as_slice()
    }
}
