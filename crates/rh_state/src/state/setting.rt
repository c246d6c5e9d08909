//! The setters of a state. Each sets the one part that it names, and all else stays; it answers the edit that takes this back.
//! None takes memory.

ghost use Rattle.std.specs.Prelude.{true, ◌≡◌, ◌<◌, ◌≤◌, ◌≢◌};
ghost use Rattle.rh_model.specs.ClusterView.{node_count, app_count};
ghost use Rattle.rh_state.specs.Limits.{time_limit, incarnation_limit};
ghost use Rattle.rh_state.specs.StateView.{place_of};
ghost use Rattle.rh_state.specs.Setters.{with_time, with_mode, with_incarnation, with_restart, with_kind, with_allowed, with_standing, with_running, with_waiting, unlisted};
ghost use Rattle.rh_state.specs.Shape.{IsKindOf, IsStandingOf};
ghost use Rattle.rh_state.specs.Stored.{read};
ghost use Rattle.rh_state.specs.Edits.{exchange, is_done};
ghost use Rattle.rh_state.specs.declared.status.Place.TheVariants.{Off};

use crate::edit::{Change, Edit};
use crate::state::State;
use crate::state::exchanging::exchanged_cell;
use crate::status::{Kind, Mode, Standing};
use rh_model::{App, Node, Restart};

#[tactic(auto, unfolding(crate::specs::Stored::read, crate::specs::Edits::exchange))]
impl State {
    /// Sets the time, in milliseconds: at most [`State::TIME_LIMIT`].
    pub fn set_now(&mut self, time: u64) -> Edit
        requires { time ≤ time_limit }
        ensures part { read self.new ≡ with_time (read self.old) time }
        ensures done { is_done result ≡ true }
        ensures exact { exchange self.new result ≡ self.old }
    {
        let before = self.time;
        self.time = time;
        Edit::Part(true, Change::Now(before))
    }

    /// Says what a node does from now on.
    pub fn set_mode(&mut self, node: Node, mode: Mode) -> Edit
        requires { node.0 < node_count (read self.old).cluster }
        ensures part { read self.new ≡ with_mode (read self.old) node mode }
        ensures done { is_done result ≡ true }
        ensures exact { exchange self.new result ≡ self.old }
    {
        let index = node.0 as usize;
        let before = self.modes[index];
        self.modes[index] = mode;
        Edit::Part(true, Change::Mode(node, before))
    }

    /// Says how often a node was started: at most [`State::INCARNATION_LIMIT`] times.
    pub fn set_incarnation(&mut self, node: Node, incarnation: u16) -> Edit
        requires node { node.0 < node_count (read self.old).cluster }
        requires incarnation { incarnation ≤ incarnation_limit }
        ensures part { read self.new ≡ with_incarnation (read self.old) node incarnation }
        ensures done { is_done result ≡ true }
        ensures exact { exchange self.new result ≡ self.old }
    {
        let index = node.0 as usize;
        let before = self.incarnations[index];
        self.incarnations[index] = incarnation;
        Edit::Part(true, Change::Incarnation(node, before))
    }

    /// Says whether an application may run at a node.
    pub fn set_allowed(&mut self, node: Node, app: App, allow: bool) -> Edit
        requires node { node.0 < node_count (read self.old).cluster }
        requires app { app.0 < app_count (read self.old).cluster }
        ensures part { read self.new ≡ with_allowed (read self.old) node app allow }
        ensures done { is_done result ≡ true }
        ensures exact { exchange self.new result ≡ self.old }
    {
        let before = exchanged_cell(&mut self.allowed, node, app, allow);
        Edit::Part(true, Change::Allowed(node, app, before))
    }

    /// Gives an application a restart type at a node.
    pub fn set_restart(&mut self, node: Node, app: App, restart: Restart) -> Edit
        requires node { node.0 < node_count (read self.old).cluster }
        requires app { app.0 < app_count (read self.old).cluster }
        ensures part { read self.new ≡ with_restart (read self.old) node app restart }
        ensures done { is_done result ≡ true }
        ensures exact { exchange self.new result ≡ self.old }
    {
        let before = exchanged_cell(&mut self.restarts, node, app, restart);
        Edit::Part(true, Change::Restart(node, app, before))
    }

    /// Says how an application was started at a node.
    pub fn set_kind(&mut self, node: Node, app: App, kind: Kind) -> Edit
        requires node { node.0 < node_count (read self.old).cluster }
        requires app { app.0 < app_count (read self.old).cluster }
        requires kind { IsKindOf (read self.old).cluster kind }
        ensures part { read self.new ≡ with_kind (read self.old) node app kind }
        ensures done { is_done result ≡ true }
        ensures exact { exchange self.new result ≡ self.old }
    {
        let before = exchanged_cell(&mut self.kinds, node, app, kind);
        Edit::Part(true, Change::Kind(node, app, before))
    }

    /// Says where an application stands.
    pub fn set_standing(&mut self, app: App, standing: Standing) -> Edit
        requires app { app.0 < app_count (read self.old).cluster }
        requires standing { IsStandingOf (read self.old).cluster standing }
        ensures part { read self.new ≡ with_standing (read self.old) app standing }
        ensures done { is_done result ≡ true }
        ensures exact { exchange self.new result ≡ self.old }
    {
        let index = app.0 as usize;
        let before = self.standings[index];
        self.standings[index] = standing;
        Edit::Part(true, Change::Standing(app, before))
    }

    /// Puts an application that isn't started at a node at the end of those that run there.
    pub fn push_running(&mut self, node: Node, app: App) -> Edit
        requires node { node.0 < node_count (read self.old).cluster }
        requires app { app.0 < app_count (read self.old).cluster }
        requires off { place_of (read self.old) node app ≡ Off }
        ensures part { read self.new ≡ with_running (read self.old) node app }
        ensures done { is_done result ≡ true }
        ensures exact { exchange self.new result ≡ self.old }
    {
        let pair = self.pair(node, app);
        let edit = self.links.push_back(node.0 as u32, pair);
        self.links.formed();
        Edit::Links(edit)
    }

    /// Puts an application that isn't started at a node at the end of those that wait there.
    pub fn push_waiting(&mut self, node: Node, app: App) -> Edit
        requires node { node.0 < node_count (read self.old).cluster }
        requires app { app.0 < app_count (read self.old).cluster }
        requires off { place_of (read self.old) node app ≡ Off }
        ensures part { read self.new ≡ with_waiting (read self.old) node app }
        ensures done { is_done result ≡ true }
        ensures exact { exchange self.new result ≡ self.old }
    {
        let pair = self.pair(node, app);
        let list = self.waiting_list(node);
        let edit = self.links.push_back(list, pair);
        self.links.formed();
        Edit::Links(edit)
    }

    /// Takes an application that is started at a node out of its list.
    pub fn unlink(&mut self, node: Node, app: App) -> Edit
        requires node { node.0 < node_count (read self.old).cluster }
        requires app { app.0 < app_count (read self.old).cluster }
        requires on { place_of (read self.old) node app ≢ Off }
        ensures part { read self.new ≡ unlisted (read self.old) node app }
        ensures done { is_done result ≡ true }
        ensures exact { exchange self.new result ≡ self.old }
    {
        let pair = self.pair(node, app);
        let edit = self.links.remove(pair);
        self.links.formed();
        Edit::Links(edit)
    }
}
