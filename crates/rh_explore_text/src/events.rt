//! Events of which a name may be left open, so that they stand for one with each name.

ghost use Rattle.std.specs.Prelude.{◌≡◌, ◌++◌, map, OnOk, IfOk};
ghost use Rattle.std.specs.List.{flat_map};
ghost use Rattle.rh_state.specs.Numbers.{nodes_of, apps_of};
ghost use Rattle.rh_explore_text.specs.OpenEvents.{node_in, app_in, event_with, at_node, at_app, is_open_node, is_open_app, app_place, is_meant, each_app, each_move};

use crate::words::is_star_at;
use rh_base::OutOfMemory;
use rh_calls::Call;
use rh_cluster::{App, Cluster, Node};
use rh_explore::Move;
use rh_script::{Given, call_of, said};
use rh_step::Event;

// The node of an event, if it has one: that which its command is given.
fn node_in(event: Event) -> Option<Node>
    ensures { result ≡ node_in event }
{
    said(Call::Step(event)).1.node
}

// Its application, if it has one.
fn app_in(event: Event) -> Option<App>
    ensures { result ≡ app_in event }
{
    said(Call::Step(event)).1.app
}

// The event of the same command with this given to it, or the same event where it makes none.
fn event_with(event: Event, given: Given) -> Event
    ensures { result ≡ event_with event given }
{
    let (verb, _) = said(Call::Step(event));
    match call_of(verb, given) {
        Some(Call::Step(other)) => other,
        _ => event,
    }
}

// The same event with another node, where it has one.
fn at_node(event: Event, node: Node) -> Event
    ensures { result ≡ at_node event node }
{
    let (_, given) = said(Call::Step(event));
    if given.node.is_some() {
        event_with(event, given.with_node(node))
    } else {
        event
    }
}

// The same event with another application, where it has one.
fn at_app(event: Event, app: App) -> Event
    ensures { result ≡ at_app event app }
{
    let (_, given) = said(Call::Step(event));
    if given.app.is_some() {
        event_with(event, given.with_app(app))
    } else {
        event
    }
}

// Has the event a node that isn't of the cluster?
fn is_open_node(cluster: &Cluster, event: Event) -> bool
    ensures { result ≡ is_open_node cluster.now event }
{
    match node_in(event) {
        Some(node) => node.0 as usize >= cluster.node_count(),
        None => false,
    }
}

// Has it an application that isn't?
fn is_open_app(cluster: &Cluster, event: Event) -> bool
    ensures { result ≡ is_open_app cluster.now event }
{
    match app_in(event) {
        Some(app) => app.0 as usize >= cluster.app_count(),
        None => false,
    }
}

// The place of the application's name in the command: behind that of a node, if there is one.
fn app_place(event: Event) -> usize
    ensures { result ≡ app_place event }
{
    if node_in(event).is_some() { 2 } else { 1 }
}

// Is each name that the cluster hasn't left open in the words of the event's command?
pub fn is_meant(cluster: &Cluster, words: &[&str], event: Event) -> bool
    ensures { result ≡ is_meant cluster.now (map (λ word. word.now) words.now) event }
{
    let node_is = !is_open_node(cluster, event) || is_star_at(words, 1);
    let app_is = !is_open_app(cluster, event) || is_star_at(words, app_place(event));
    node_is && app_is
}

// Adds the event as a move, for each application where that is left open.
#[tactic(auto, unfolding(rh_state::specs::Numbers::apps_of))]
fn push_each_app(moves: &mut Vec<Move>, cluster: &Cluster, event: Event) -> Result<(), OutOfMemory>
    ensures { OnOk result (moves.new.items ≡ moves.old.items ++ each_app cluster.now event) }
{
    if !is_open_app(cluster, event) {
        moves.push(Move::Make(event))?;
        return Ok(());
    }
    let count = cluster.app_count();
    'apps: for number in 0..count {
        moves.push(Move::Make(at_app(event, App(number as u8))))?;
    }
    Ok(())
}

// Adds the event as a move, for each node and each application where these are left open.
#[tactic(auto, unfolding(rh_state::specs::Numbers::nodes_of))]
pub fn push_each(moves: &mut Vec<Move>, cluster: &Cluster, event: Event) -> Result<(), OutOfMemory>
    ensures { OnOk result (moves.new.items ≡ moves.old.items ++ each_move cluster.now event) }
{
    if !is_open_node(cluster, event) {
        return push_each_app(moves, cluster, event);
    }
    let count = cluster.node_count();
    'nodes: for number in 0..count {
        push_each_app(moves, cluster, at_node(event, Node(number as u8)))?;
    }
    Ok(())
}
