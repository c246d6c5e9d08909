//! What a live OTP does otherwise at a step, asked of states that rehearsals reach.

use rh_cluster::{App, Node, Restart, read_cluster};
use rh_samples::CAVE;
use rh_step::{Event, Pick};
use rh_step_findings::StepFinding;
use rh_step_lint::step_findings;
use rh_trail::Sim;
use std::alloc::Global;
use std::process::Abort;

static ALL_BOOT: [Event; 3] = [
    Event::Boot { node: Node(0) },
    Event::Boot { node: Node(1) },
    Event::Boot { node: Node(2) },
];

static MOVED: [Event; 2] = [
    Event::Takeover {
        node: Node(1),
        app: App(0),
        restart: Restart::Permanent,
    },
    Event::Crash { node: Node(2) },
];

static MOVED_AND_BACK: [Event; 4] = [
    Event::Takeover {
        node: Node(1),
        app: App(0),
        restart: Restart::Permanent,
    },
    Event::Crash { node: Node(2) },
    Event::Crash { node: Node(0) },
    Event::Boot { node: Node(0) },
];

static STOPPED_AND_LOST: [Event; 4] = [
    Event::Takeover {
        node: Node(1),
        app: App(0),
        restart: Restart::Permanent,
    },
    Event::Stop {
        node: Node(0),
        app: App(0),
    },
    Event::Crash { node: Node(1) },
    Event::Tick { ms: 1_000 },
];

static MOVED_AND_FORBIDDEN: [Event; 2] = [
    Event::Takeover {
        node: Node(1),
        app: App(0),
        restart: Restart::Permanent,
    },
    Event::Permit {
        node: Node(0),
        app: App(0),
        allow: false,
    },
];

// A simulation of three nodes that have booted one after the other, behind these events, all of which are accepted.
fn sim_behind(rt: &impl Abort, alloc: Global, events: &[Event]) -> Sim {
    let cluster = read_cluster(alloc, CAVE.as_bytes())
        .ok()
        .expect(rt, "a cluster");
    let mut sim = Sim::open(alloc, cluster, Pick::First)
        .ok()
        .expect(rt, "memory");
    for event in ALL_BOOT.as_slice() {
        assert!(rt; sim.step(alloc, *event).is_ok());
    }
    for event in events {
        assert!(rt; sim.step(alloc, *event).is_ok());
    }
    sim
}

// The findings of an event are these.
fn are_found(rt: &impl Abort, alloc: Global, sim: &Sim, event: Event, wanted: &[StepFinding]) {
    let found = step_findings(alloc, sim.state(), &event)
        .ok()
        .expect(rt, "memory");
    assert!(rt; found.as_slice() == wanted);
}

// A node that boots where nothing is otherwise has no finding.
#[test]
fn nothing_at_a_boot(rt: HostRuntime) {
    let sim = sim_behind(&rt, rt.alloc(), &[Event::Crash { node: Node(2) }]);
    are_found(&rt, rt.alloc(), &sim, Event::Boot { node: Node(2) }, &[]);
}

// Behind a takeover to a worse node one that boots hangs.
#[test]
fn boot_beside_a_worse_runner(rt: HostRuntime) {
    let sim = sim_behind(&rt, rt.alloc(), MOVED.as_slice());
    let wanted = StepFinding::RunsAtAWorseNode {
        node: Node(2),
        app: App(0),
        runner: Node(1),
    };
    are_found(
        &rt,
        rt.alloc(),
        &sim,
        Event::Boot { node: Node(2) },
        &[wanted],
    );
    assert!(rt; wanted.is_warning() && wanted.hangs());
}

// Where the best node comes up with it, that one takes the application over, and nothing hangs.
#[test]
fn boot_beside_the_best_node(rt: HostRuntime) {
    let sim = sim_behind(&rt, rt.alloc(), MOVED_AND_BACK.as_slice());
    are_found(&rt, rt.alloc(), &sim, Event::Boot { node: Node(2) }, &[]);
}

// Where it is stopped at the best node it doesn't fail over; a millisecond before its time nothing is tried.
#[test]
fn failover_beside_a_stopped_one(rt: HostRuntime) {
    let sim = sim_behind(&rt, rt.alloc(), STOPPED_AND_LOST.as_slice());
    let wanted = StepFinding::BetterNodeNotStarted {
        node: Node(2),
        app: App(0),
        other: Node(0),
    };
    are_found(&rt, rt.alloc(), &sim, Event::Tick { ms: 4_000 }, &[wanted]);
    are_found(&rt, rt.alloc(), &sim, Event::Tick { ms: 3_999 }, &[]);
}

// A takeover where it is forbidden is refused, and made by live nodes.
#[test]
fn takeover_where_it_is_forbidden(rt: HostRuntime) {
    let sim = sim_behind(&rt, rt.alloc(), MOVED_AND_FORBIDDEN.as_slice());
    let event = Event::Takeover {
        node: Node(0),
        app: App(0),
        restart: Restart::Permanent,
    };
    let wanted = StepFinding::TakeoverWhereForbidden {
        node: Node(0),
        app: App(0),
    };
    are_found(&rt, rt.alloc(), &sim, event, &[wanted]);
    assert!(rt; wanted.is_warning() && !wanted.hangs());
}
