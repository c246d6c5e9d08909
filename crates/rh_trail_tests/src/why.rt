//! Why applications and nodes wait, asked of states that rehearsals reach.

use crate::support::{make_all, sim_on};
use rh_cluster::{App, Cluster, Node};
use rh_samples::{CAVE, TWO_NODES};
use rh_state::State;
use rh_step::Event;
use rh_trail::Sim;
use rh_why::{
    Awaited, Reason, Reasons, awaited_text, push_reason, reason_text, reasons_of, why_app_waits,
    why_node_waits,
};
use std::alloc::Global;
use std::process::Abort;

static FIRST_BOOTS: [Event; 1] = [Event::Boot { node: Node(0) }];

static SECOND_BOOTS: [Event; 1] = [Event::Boot { node: Node(1) }];

static THIRD_BOOTS: [Event; 1] = [Event::Boot { node: Node(2) }];

static FIRST_ENDS: [Event; 2] = [Event::Tick { ms: 1_000 }, Event::Crash { node: Node(0) }];

static FORBIDDEN: [Event; 1] = [Event::Permit {
    node: Node(1),
    app: App(0),
    allow: false,
}];

static STOPPED: [Event; 2] = [
    Event::Tick { ms: 5_000 },
    Event::Stop {
        node: Node(2),
        app: App(0),
    },
];

// Adds the line of a reason, if there is one.
fn push_line(rt: &impl Abort, text: &mut String, cluster: &Cluster, reason: Option<Reason>) {
    if let Some(reason) = reason {
        push_reason(text, cluster, &reason)
            .ok()
            .expect(rt, "memory");
        text.push_str("\n").ok().expect(rt, "memory");
    }
}

// The reasons of an application at a node, as a list.
fn listed(rt: &impl Abort, alloc: Global, state: &State, app: App, node: Node) -> Vec<Reason> {
    let cluster = state.cluster();
    assert!(rt; (node.0 as usize) < cluster.node_count() && (app.0 as usize) < cluster.app_count());
    why_app_waits(alloc, state, app, node)
        .ok()
        .expect(rt, "memory")
}

// The same without a list.
fn unlisted(rt: &impl Abort, state: &State, app: App, node: Node) -> Reasons {
    let cluster = state.cluster();
    assert!(rt; (node.0 as usize) < cluster.node_count() && (app.0 as usize) < cluster.app_count());
    reasons_of(state, app, node)
}

// The lines of a list of reasons.
fn lines_of(rt: &impl Abort, alloc: Global, cluster: &Cluster, found: &[Reason]) -> String {
    let mut text = String::new(alloc);
    for reason in found {
        let line = reason_text(alloc, cluster, reason)
            .ok()
            .expect(rt, "memory");
        writeln!(text, "{line}").ok().expect(rt, "memory");
    }
    text
}

// The lines of reasons that come without a list.
fn lines_of_each(rt: &impl Abort, alloc: Global, cluster: &Cluster, reasons: Reasons) -> String {
    let mut text = String::new(alloc);
    push_line(rt, &mut text, cluster, reasons.lacking);
    push_line(rt, &mut text, cluster, reasons.forbidding);
    push_line(rt, &mut text, cluster, reasons.by_standing);
    text
}

fn listed_are(rt: &impl Abort, alloc: Global, state: &State, app: App, node: Node, lines: &str) {
    let found = listed(rt, alloc, state, app, node);
    let text = lines_of(rt, alloc, state.cluster(), found.as_slice());
    assert!(rt; text.as_str() == lines);
}

fn unlisted_are(rt: &impl Abort, alloc: Global, state: &State, app: App, node: Node, lines: &str) {
    let reasons = unlisted(rt, state, app, node);
    let text = lines_of_each(rt, alloc, state.cluster(), reasons);
    assert!(rt; text.as_str() == lines);
}

// The reasons of an application at a node are these lines, with a list and without one.
fn app_waits(rt: &impl Abort, alloc: Global, sim: &Sim, app: App, node: Node, lines: &str) {
    let state = sim.state();
    listed_are(rt, alloc, state, app, node, lines);
    unlisted_are(rt, alloc, state, app, node, lines);
}

// For whom a node waits.
fn awaited_at(rt: &impl Abort, alloc: Global, state: &State, node: Node) -> Awaited {
    assert!(rt; (node.0 as usize) < state.cluster().node_count());
    why_node_waits(alloc, state, node).ok().expect(rt, "memory")
}

fn awaited_is(rt: &impl Abort, alloc: Global, state: &State, node: Node, line: &str) {
    let found = awaited_at(rt, alloc, state, node);
    let text = awaited_text(alloc, state.cluster(), &found)
        .ok()
        .expect(rt, "memory");
    assert!(rt; text.as_str() == line);
}

// For whom a node waits is this line.
fn node_waits(rt: &impl Abort, alloc: Global, sim: &Sim, node: Node, line: &str) {
    awaited_is(rt, alloc, sim.state(), node, line);
}

// A node waits for those of its lists that aren't alive, and one that waits is alive.
#[test]
fn nodes_wait_for_nodes(rt: HostRuntime) {
    let mut sim = sim_on(&rt, rt.alloc(), CAVE);
    make_all(&rt, rt.alloc(), &mut sim, FIRST_BOOTS.as_slice());
    node_waits(
        &rt,
        rt.alloc(),
        &sim,
        Node(0),
        "waits for cp2@cave cp3@cave until 5000",
    );
    make_all(&rt, rt.alloc(), &mut sim, SECOND_BOOTS.as_slice());
    node_waits(
        &rt,
        rt.alloc(),
        &sim,
        Node(0),
        "waits for cp3@cave until 5000",
    );
}

fn all_boot(rt: &impl Abort, alloc: Global, sim: &mut Sim) {
    make_all(rt, alloc, sim, FIRST_BOOTS.as_slice());
    make_all(rt, alloc, sim, SECOND_BOOTS.as_slice());
    make_all(rt, alloc, sim, THIRD_BOOTS.as_slice());
}

// The application runs at the first node, where it doesn't wait.
fn waits_for_the_first(rt: &impl Abort, alloc: Global, sim: &Sim) {
    app_waits(rt, alloc, sim, App(0), Node(0), "");
    app_waits(rt, alloc, sim, App(0), Node(1), "runs at cp1@cave\n");
}

fn first_ends(rt: &impl Abort, alloc: Global, sim: &mut Sim) {
    make_all(rt, alloc, sim, FIRST_ENDS.as_slice());
    make_all(rt, alloc, sim, FORBIDDEN.as_slice());
}

// The first node was lost, and the second has no permission.
fn waits_for_its_time(rt: &impl Abort, alloc: Global, sim: &Sim) {
    app_waits(
        rt,
        alloc,
        sim,
        App(0),
        Node(1),
        "forbidden\nlost with cp1@cave until 6000\n",
    );
    app_waits(
        rt,
        alloc,
        sim,
        App(0),
        Node(2),
        "lost with cp1@cave until 6000\n",
    );
}

// It was stopped at the third node.
fn waits_for_its_start(rt: &impl Abort, alloc: Global, sim: &mut Sim) {
    make_all(rt, alloc, sim, STOPPED.as_slice());
    app_waits(rt, alloc, sim, App(0), Node(1), "forbidden\nquiet\n");
}

// A standby waits for the node that runs it, then for the time of the one that was lost, then for its permission; and one that was
// stopped elsewhere waits until it is started.
#[test]
fn standbys_wait(rt: HostRuntime) {
    let mut sim = sim_on(&rt, rt.alloc(), CAVE);
    all_boot(&rt, rt.alloc(), &mut sim);
    waits_for_the_first(&rt, rt.alloc(), &sim);
    first_ends(&rt, rt.alloc(), &mut sim);
    waits_for_its_time(&rt, rt.alloc(), &sim);
    waits_for_its_start(&rt, rt.alloc(), &mut sim);
}

// An application waits for the first that it needs and that doesn't run there.
#[test]
fn dependencies_are_waited_for(rt: HostRuntime) {
    let mut sim = sim_on(&rt, rt.alloc(), TWO_NODES);
    make_all(&rt, rt.alloc(), &mut sim, SECOND_BOOTS.as_slice());
    app_waits(&rt, rt.alloc(), &sim, App(0), Node(1), "needs d2\n");
}
