//! What is asked of the states that are reached.

ghost use Rattle.std.specs.Prelude.{◌≡◌, ◌≤◌, [], IfOk, OnOk, if◌then◌else◌};
ghost use Rattle.std.specs.List.{list_any, list_all};
ghost use Rattle.rh_state.specs.StateView.{is_up, mode_of, runs_at};
ghost use Rattle.rh_state.specs.Stored.{read};
ghost use Rattle.rh_trace.specs.Validity.{IsValid};
ghost use Rattle.rh_explore.specs.Asking.{runs_somewhere, places, is_so, is_met, is_met_at, holds_in};

use crate::moves::ms_to;
use crate::trial::Trial;
use rh_base::OutOfMemory;
use rh_model::{App, Node};
use rh_state::{Mode, Place, State, Timer};
use rh_step::{Event, Pick, refusal_of};
use std::alloc::Global;

/// A condition of a state. An unknown node isn't up, and an unknown application runs nowhere.
#[derive(Clone, Copy, Debug, PartialEq, Eq)]
pub enum Condition {
    /// The application runs at some node.
    RunsSomewhere(App),
    /// It runs at no node.
    RunsNowhere(App),
    /// It runs at this node.
    RunsAt(App, Node),
    /// The node is up.
    IsUp(Node),
    /// The node waits or is down.
    IsNotUp(Node),
    /// The application runs at no two nodes.
    RunsAtMostOnce(App),
    /// Nothing waits for ever. By the manual's rules nothing does.
    NothingHangs,
}

/// What is asked of each state: that it is met, at once or soon. It is met where all conditions of one of its lists are so.
#[derive(Drop)]
pub struct Ask {
    /// It is asked of every state; else only of those in which no sync timer and no failover timer is set (kernel(6),
    /// `sync_nodes_timeout`, `distributed`).
    pub always: bool,
    /// In how many milliseconds it has to be met, if not at once: no event comes but that time passes. At the limit of time no more of
    /// it does.
    pub within: Option<u64>,
    /// The lists of conditions.
    pub any_of: Vec<Vec<Condition>>,
}

impl Ask {
    /// Does what is asked hold in a state? Time that passes for it is taken back.
    pub(crate) fn holds_in(
        &self,
        alloc: Global,
        state: &mut State,
        pick: Pick,
        trial: &mut Trial,
    ) -> Result<bool, OutOfMemory>
        requires valid { IsValid (read state.old) }
        requires none { trial.old.edits.items ≡ [] }
        ensures holds { IfOk result (λ holds. holds ≡ holds_in pick self.now (read state.old)) }
        ensures state { OnOk result (state.new ≡ state.old) }
        ensures none { OnOk result (trial.new.edits.items ≡ []) }
    {
        if !self.always && state.earliest().is_some() {
            return Ok(true);
        }
        if self.is_met(state) {
            return Ok(true);
        }
        match self.within {
            None => Ok(false),
            Some(ms) => self.is_met_soon(alloc, state, pick, trial, ms),
        }
    }

    // Is it met at one of the timers that are set?
    fn is_met_soon(
        &self,
        alloc: Global,
        state: &mut State,
        pick: Pick,
        trial: &mut Trial,
        ms: u64,
    ) -> Result<bool, OutOfMemory>
        requires valid { IsValid (read state.old) }
        requires none { trial.old.edits.items ≡ [] }
        ensures met { IfOk result (λ met.
            met ≡ list_any (is_met_at pick self.now ms (read state.old)) (read state.old).timers) }
        ensures state { OnOk result (state.new ≡ state.old) }
        ensures none { OnOk result (trial.new.edits.items ≡ []) }
    {
        let timers = state.timers(alloc)?;
        'timers: for entry in timers.as_slice() {
            if self.is_met_at(alloc, state, pick, trial, ms, *entry)? {
                return Ok(true);
            }
        }
        Ok(false)
    }

    // Is it met when a timer is due, if that is within so many milliseconds?
    fn is_met_at(
        &self,
        alloc: Global,
        state: &mut State,
        pick: Pick,
        trial: &mut Trial,
        ms: u64,
        entry: (u64, Timer),
    ) -> Result<bool, OutOfMemory>
        requires valid { IsValid (read state.old) }
        requires none { trial.old.edits.items ≡ [] }
        ensures met { IfOk result (λ met. met ≡ is_met_at pick self.now ms (read state.old) entry) }
        ensures state { OnOk result (state.new ≡ state.old) }
        ensures none { OnOk result (trial.new.edits.items ≡ []) }
    {
        let tick = ms_to(state, entry);
        if tick > ms {
            return Ok(false);
        }
        let event = Event::Tick { ms: tick };
        if refusal_of(state, &event).is_some() {
            return Ok(false);
        }
        trial.make(alloc, state, &event, pick)?;
        let met = self.is_met(state);
        trial.take_back(state);
        Ok(met)
    }

    // Are all conditions of one of its lists so?
    fn is_met(&self, state: &State) -> bool
        ensures { result ≡ is_met self.now (read state.now) }
    {
        self.any_of
            .iter()
            .any(|conditions| are_so(conditions.as_slice(), state))
    }
}

// Are all of these conditions so?
fn are_so(conditions: &[Condition], state: &State) -> bool
    ensures { result ≡ list_all (is_so (read state.now)) conditions.now }
{
    conditions.iter().all(|condition| is_so(*condition, state))
}

// Is a condition so?
fn is_so(condition: Condition, state: &State) -> bool
    ensures { result ≡ is_so (read state.now) condition }
{
    match condition {
        Condition::RunsSomewhere(app) => runs_somewhere(app, state),
        Condition::RunsNowhere(app) => !runs_somewhere(app, state),
        Condition::RunsAt(app, node) => runs_at(app, node, state),
        Condition::IsUp(node) => is_up(node, state),
        Condition::IsNotUp(node) => !is_up(node, state),
        Condition::RunsAtMostOnce(app) => places(app, state) <= 1,
        Condition::NothingHangs => true,
    }
}

// Does an application run at some node?
#[tactic(auto, unfolding(rh_state::specs::Numbers::nodes_of))]
fn runs_somewhere(app: App, state: &State) -> bool
    ensures { result ≡ runs_somewhere (read state.now) app }
{
    let count = state.cluster().node_count();
    'nodes: for number in 0..count {
        if runs_at(app, Node(number as u8), state) {
            return true;
        }
    }
    false
}

// At how many nodes does an application run?
#[tactic(auto, unfolding(rh_state::specs::Numbers::nodes_of))]
fn places(app: App, state: &State) -> usize
    ensures { result ≡ places (read state.now) app }
{
    let mut places = 0;
    let count = state.cluster().node_count();
    for number in 0..count {
        places += one_if_runs(app, Node(number as u8), state);
    }
    places
}

// 1 for a node at which it runs, and 0 for another one.
fn one_if_runs(app: App, node: Node, state: &State) -> usize
    ensures one { result ≡ (if runs_at (read state.now) node app then 1 else 0) }
    ensures few { result ≤ 1 }
{
    if runs_at(app, node, state) { 1 } else { 0 }
}

// Does an application run at a node?
fn runs_at(app: App, node: Node, state: &State) -> bool
    ensures { result ≡ runs_at (read state.now) node app }
{
    state.formed();
    let cluster = state.cluster();
    let nodes = cluster.node_count();
    if node.0 as usize >= nodes {
        return false;
    }
    let apps = cluster.app_count();
    if app.0 as usize >= apps {
        return false;
    }
    state.place_of(node, app) == Place::InRunning
}

// Is a node up?
fn is_up(node: Node, state: &State) -> bool
    ensures { result ≡ is_up (mode_of (read state.now) node) }
{
    state.formed();
    if (node.0 as usize) < state.cluster().node_count() {
        return state.mode(node) == Mode::Up;
    }
    false
}
