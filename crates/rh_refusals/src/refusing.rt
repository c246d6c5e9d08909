//! What refuses an event.

ghost use Rattle.std.specs.Prelude.{◌≡◌, ◌∷◌, Bool, List, None, not};
ghost use Rattle.std.specs.Option.{option_or};
ghost use Rattle.rh_model.specs.ClusterView.{is_listed_at};
ghost use Rattle.rh_state.specs.Shape.{IsNodeOf, IsAppOf};
ghost use Rattle.rh_state.specs.Stored.{read};
ghost use Rattle.rh_rules.specs.Placing.{missing_dep};
ghost use Rattle.rh_rules.specs.declared.event.Event.TheVariants.{Boot, Crash, Tick, Start, Stop, Permit, Takeover, Exit};
ghost use Rattle.rh_rules.specs.declared.refusal.Refusal.{Refusal};
ghost use Rattle.rh_rules.specs.declared.refusal.Refusal.TheVariants.{NotRunning, RunsHere};
ghost use Rattle.rh_rules.specs.Refusals.{refused, tests_by_hand, first_that_applies, dep_tests};
ghost use Rattle.rh_state.specs.Standings.{is_running, is_running_at};

use crate::targets::{start_all_refusal, stop_all_refusal};
use rh_model::{App, Node, Restart};
use rh_place::missing_dep;
use rh_rules::{Event, Refusal};
use rh_state::{Mode, Place, Standing, State};

/// Why an event is refused in a state: the first reason that applies, or `None`.
/// `TrailFull` and `OutOfMemory` are the answers of a simulation's steps alone. Takes no memory.
pub fn refusal_of(state: &State, event: &Event) -> Option<Refusal>
    ensures { result ≡ refused (read state.now) event.now }
{
    match *event {
        Event::Boot { node } => boot_refusal(state, node),
        Event::Crash { node } => crash_refusal(state, node),
        Event::Tick { ms } => tick_refusal(state, ms),
        Event::Start { node, app, restart } => start_refusal(state, node, app, restart),
        Event::Stop { node, app } => stop_refusal(state, node, app),
        Event::Permit { node, app, allow } => permit_refusal(state, node, app, allow),
        Event::Takeover { node, app, restart } => takeover_refusal(state, node, app, restart),
        Event::Exit { node, app, normal } => exit_refusal(state, node, app, normal),
        Event::StartAll { app, restart } => start_all_refusal(state, app, restart),
        Event::StopAll { app } => stop_all_refusal(state, app),
    }
}

// Why a node can't start.
#[tactic(auto, unfolding(rh_rules::specs::Refusals::refused))]
fn boot_refusal(state: &State, node: Node) -> Option<Refusal>
    ensures { result ≡ refused (read state.now) (Boot node) }
{
    if node.0 as usize >= state.cluster().node_count() {
        return Some(Refusal::UnknownNode);
    }
    match state.mode(node) {
        Mode::Waiting | Mode::Up => Some(Refusal::AlreadyAlive),
        Mode::Down => {
            if state.incarnation(node) == State::INCARNATION_LIMIT {
                Some(Refusal::IncarnationLimit)
            } else {
                None
            }
        }
    }
}

// Why a node can't end.
#[tactic(auto, unfolding(rh_rules::specs::Refusals::refused))]
fn crash_refusal(state: &State, node: Node) -> Option<Refusal>
    ensures { result ≡ refused (read state.now) (Crash node) }
{
    if node.0 as usize >= state.cluster().node_count() {
        return Some(Refusal::UnknownNode);
    }
    match state.mode(node) {
        Mode::Waiting | Mode::Up => None,
        Mode::Down => Some(Refusal::NotAlive),
    }
}

// Why so much time can't pass.
#[tactic(auto, unfolding(rh_rules::specs::Refusals::refused))]
fn tick_refusal(state: &State, ms: u64) -> Option<Refusal>
    ensures { result ≡ refused (read state.now) (Tick ms) }
{
    if ms == 0 {
        Some(Refusal::ZeroTick)
    } else if ms > State::TIME_LIMIT - state.now() {
        Some(Refusal::TimeLimit)
    } else {
        None
    }
}

// Why nothing can be done by hand with an application at a node: the three tests that all such events have.
fn refusal_by_hand(state: &State, node: Node, app: App) -> Option<Refusal>
    ensures tests { (others : List (Bool × Refusal))
        → first_that_applies (tests_by_hand (read state.now) node app others)
        ≡ option_or result (first_that_applies others) }
    ensures node { result ≡ None → IsNodeOf (read state.now).cluster node }
    ensures app { result ≡ None → IsAppOf (read state.now).cluster app }
{
    if node.0 as usize >= state.cluster().node_count() {
        Some(Refusal::UnknownNode)
    } else if app.0 as usize >= state.cluster().app_count() {
        Some(Refusal::UnknownApp)
    } else if state.mode(node) != Mode::Up {
        Some(Refusal::NodeNotUp)
    } else {
        None
    }
}

/// May the application be started at the node, as its list has it?
pub fn is_listed_at(state: &State, app: App, node: Node) -> bool
    requires { IsAppOf (read state.now).cluster app }
    ensures { result ≡ is_listed_at (read state.now).cluster app node }
{
    state.cluster().spread(app).is_none() || state.cluster().group_of(app, node).is_some()
}

// The refusal for what an application lacks at a node.
fn dep_refusal(state: &State, node: Node, app: App) -> Option<Refusal>
    requires node { IsNodeOf (read state.now).cluster node }
    requires app { IsAppOf (read state.now).cluster app }
    ensures { result ≡ first_that_applies (dep_tests (missing_dep (read state.now) node app)) }
{
    match missing_dep(state, node, app) {
        Some(dep) => Some(Refusal::DependencyNotStarted { dep }),
        None => None,
    }
}

// Why an application can't be started.
#[tactic(auto, unfolding(rh_rules::specs::Refusals::refused))]
fn start_refusal(state: &State, node: Node, app: App, restart: Restart) -> Option<Refusal>
    ensures { result ≡ refused (read state.now) (Start node app restart) }
{
    let _ = restart;
    if let Some(refusal) = refusal_by_hand(state, node, app) {
        return Some(refusal);
    }
    if !is_listed_at(state, app, node) {
        Some(Refusal::NotListed)
    } else if state.place_of(node, app) != Place::Off {
        Some(Refusal::AlreadyStarted)
    } else {
        dep_refusal(state, node, app)
    }
}

// Why it can't be stopped.
#[tactic(auto, unfolding(rh_rules::specs::Refusals::refused))]
fn stop_refusal(state: &State, node: Node, app: App) -> Option<Refusal>
    ensures { result ≡ refused (read state.now) (Stop node app) }
{
    if let Some(refusal) = refusal_by_hand(state, node, app) {
        return Some(refusal);
    }
    match state.place_of(node, app) {
        Place::Off => Some(Refusal::NeverStarted),
        Place::InRunning | Place::InWaiting => None,
    }
}

// Why its permission can't be set.
#[tactic(auto, unfolding(rh_rules::specs::Refusals::refused))]
fn permit_refusal(state: &State, node: Node, app: App, allow: bool) -> Option<Refusal>
    ensures { result ≡ refused (read state.now) (Permit node app allow) }
{
    let _ = allow;
    refusal_by_hand(state, node, app)
}

// Why it can't be taken over by the node from where it stands.
fn standing_refusal(node: Node, standing: Standing) -> Option<Refusal>
    ensures { (others : List (Bool × Refusal)) → first_that_applies
        ((not (is_running standing), NotRunning) ∷ (is_running_at node standing, RunsHere) ∷ others)
        ≡ option_or result (first_that_applies others) }
{
    match standing {
        Standing::Running(from) if from.0 == node.0 => Some(Refusal::RunsHere),
        Standing::Running(_) => None,
        Standing::Quiet | Standing::Wanted(_) | Standing::Lost(_) => Some(Refusal::NotRunning),
    }
}

// Why it can't be taken over.
#[tactic(auto, unfolding(rh_rules::specs::Refusals::refused))]
fn takeover_refusal(state: &State, node: Node, app: App, restart: Restart) -> Option<Refusal>
    ensures { result ≡ refused (read state.now) (Takeover node app restart) }
{
    let _ = restart;
    if let Some(refusal) = refusal_by_hand(state, node, app) {
        return Some(refusal);
    }
    if state.cluster().spread(app).is_none() {
        return Some(Refusal::NotDistributed);
    }
    if !is_listed_at(state, app, node) {
        return Some(Refusal::NotListed);
    }
    if let Some(refusal) = standing_refusal(node, state.standing(app)) {
        return Some(refusal);
    }
    if !state.allowed(node, app) {
        return Some(Refusal::NotPermitted);
    }
    dep_refusal(state, node, app)
}

// Why it can't end there.
#[tactic(auto, unfolding(rh_rules::specs::Refusals::refused))]
fn exit_refusal(state: &State, node: Node, app: App, normal: bool) -> Option<Refusal>
    ensures { result ≡ refused (read state.now) (Exit node app normal) }
{
    let _ = normal;
    if let Some(refusal) = refusal_by_hand(state, node, app) {
        return Some(refusal);
    }
    match state.place_of(node, app) {
        Place::InRunning => None,
        Place::Off | Place::InWaiting => Some(Refusal::NotRunningHere),
    }
}
