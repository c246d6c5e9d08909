//! Searches through all states of the clusters of the tests.

use crate::support::{make_all, sim_on};
use rh_cluster::{App, Node};
use rh_explore::{
    Alone, Ask, Bounds, Condition, Covered, Explored, Move, Nobody, Search, Threaded, Verdict,
    explore,
};
use rh_samples::{CAVE, ONE_NODE};
use rh_step::{Event, Pick};
use rh_trail::Sim;
use std::alloc::Global;
use std::process::Abort;
use std::thread::Threads;

// What may happen to three nodes: crashes, boots, and a second that passes.
static FAILURES: [Move; 7] = [
    Move::Make(Event::Crash { node: Node(0) }),
    Move::Make(Event::Crash { node: Node(1) }),
    Move::Make(Event::Crash { node: Node(2) }),
    Move::Make(Event::Boot { node: Node(0) }),
    Move::Make(Event::Boot { node: Node(1) }),
    Move::Make(Event::Boot { node: Node(2) }),
    Move::Make(Event::Tick { ms: 1_000 }),
];

static ALL_BOOT: [Event; 3] = [
    Event::Boot { node: Node(0) },
    Event::Boot { node: Node(1) },
    Event::Boot { node: Node(2) },
];

static ONE_BOOTS: [Move; 2] = [
    Move::Make(Event::Boot { node: Node(0) }),
    Move::Make(Event::Crash { node: Node(0) }),
];

// A simulation on the cluster that a text describes, behind the first events.
fn sim_behind(rt: &impl Abort, alloc: Global, text: &str, first: &[Event]) -> Sim {
    let mut sim = sim_on(rt, alloc, text);
    make_all(rt, alloc, &mut sim, first);
    sim
}

// What is found on the cluster that a text describes, from the state behind the first events.
fn answers_on(
    rt: &impl Abort,
    alloc: Global,
    text: &str,
    first: &[Event],
    may: &[Move],
    bounds: &Bounds,
    asks: &[Ask],
) -> Explored {
    let sim = sim_behind(rt, alloc, text, first);
    answers_from(rt, alloc, &sim, may, bounds, asks)
}

// What is found from the state of a simulation.
fn answers_from(
    rt: &impl Abort,
    alloc: Global,
    sim: &Sim,
    may: &[Move],
    bounds: &Bounds,
    asks: &[Ask],
) -> Explored {
    let search = Search {
        base: sim.state(),
        pick: Pick::First,
        moves: may,
        bounds: *bounds,
        asks,
    };
    explore(&Alone, &mut Nobody, alloc, &search)
        .ok()
        .expect(rt, "memory")
}

// The same on the cluster of three nodes that wait for one another, all of which are up.
fn answers_to_failures(rt: &impl Abort, alloc: Global, bounds: &Bounds, asks: &[Ask]) -> Explored {
    answers_on(
        rt,
        alloc,
        CAVE,
        ALL_BOOT.as_slice(),
        FAILURES.as_slice(),
        bounds,
        asks,
    )
}

// At most so many steps, with any number of nodes not up.
fn up_to(steps: u32) -> Bounds {
    Bounds {
        down: 3,
        steps,
        states: 1_000_000,
        mebibytes: 1_024,
    }
}

// The conditions of one list.
fn all_of(rt: &impl Abort, alloc: Global, conditions: &[Condition]) -> Vec<Condition> {
    Vec::from_slice(alloc, conditions).ok().expect(rt, "memory")
}

// An ask with one of these lists.
fn ask_of(rt: &impl Abort, alloc: Global, always: bool, lists: &[&[Condition]]) -> Ask {
    let mut any_of = Vec::new(alloc);
    for conditions in lists {
        any_of
            .push(all_of(rt, alloc, conditions))
            .ok()
            .expect(rt, "memory");
    }
    Ask {
        always,
        within: None,
        any_of,
    }
}

// As many states as a search by another program counts, which merges states that are alike, too; and a model checker.
#[test]
fn counts_are_those_of_another_search(rt: HostRuntime) {
    let no_asks = Vec::new(rt.alloc());
    let eight = answers_to_failures(&rt, rt.alloc(), &up_to(8), no_asks.as_slice());
    assert!(rt; eight.states == 399);
    assert!(rt; eight.deepest == 8);
    assert!(rt; eight.covered == Covered::UpTo(8));
    let ten = answers_to_failures(&rt, rt.alloc(), &up_to(10), no_asks.as_slice());
    assert!(rt; ten.states == 776);
    let all = answers_to_failures(&rt, rt.alloc(), &up_to(100), no_asks.as_slice());
    assert!(rt; all.states == 1_755);
    assert!(rt; all.covered == Covered::All);
}

// A node that is down can only boot, and one that is up only crash: there are two states, whatever the number of starts.
#[test]
fn one_node_is_up_or_down(rt: HostRuntime) {
    let no_asks = Vec::new(rt.alloc());
    let found = answers_on(
        &rt,
        rt.alloc(),
        ONE_NODE,
        [].as_slice(),
        ONE_BOOTS.as_slice(),
        &up_to(3),
        no_asks.as_slice(),
    );
    assert!(rt; found.states == 2);
    assert!(rt; found.deepest == 1);
    assert!(rt; found.covered == Covered::All);
}

// Where all nodes have to stay up, only time passes.
#[test]
fn few_nodes_may_be_down(rt: HostRuntime) {
    let bounds = Bounds {
        down: 0,
        steps: 5,
        states: 100,
        mebibytes: 1_024,
    };
    let no_asks = Vec::new(rt.alloc());
    let found = answers_to_failures(&rt, rt.alloc(), &bounds, no_asks.as_slice());
    assert!(rt; found.states == 1);
    assert!(rt; found.deepest == 0);
    assert!(rt; found.covered == Covered::All);
}

// An event that a limit of time refuses might be accepted in a state that is alike: so longer lists aren't covered.
#[test]
fn limit_of_time_ends_a_search(rt: HostRuntime) {
    let a_while = [Event::Tick { ms: 1 }];
    let for_ever = [Move::Make(Event::Tick {
        ms: 1_000_000_000_000,
    })];
    let no_asks = Vec::new(rt.alloc());
    let at_first = answers_on(
        &rt,
        rt.alloc(),
        ONE_NODE,
        [].as_slice(),
        for_ever.as_slice(),
        &up_to(9),
        no_asks.as_slice(),
    );
    assert!(rt; at_first.covered == Covered::All);
    let later = answers_on(
        &rt,
        rt.alloc(),
        ONE_NODE,
        a_while.as_slice(),
        for_ever.as_slice(),
        &up_to(9),
        no_asks.as_slice(),
    );
    assert!(rt; later.covered == Covered::UpTo(0));
}

// Where nothing may happen, all is known of lists of any length.
#[test]
fn nothing_may_happen(rt: HostRuntime) {
    let down = ask_of(
        &rt,
        rt.alloc(),
        true,
        [[Condition::IsNotUp(Node(0))].as_slice()].as_slice(),
    );
    let found = answers_on(
        &rt,
        rt.alloc(),
        ONE_NODE,
        [].as_slice(),
        [].as_slice(),
        &up_to(9),
        [down].as_slice(),
    );
    assert!(rt; found.states == 1);
    assert!(rt; found.deepest == 0);
    assert!(rt; found.covered == Covered::All);
    assert_eq!(rt; found.verdicts.len(), 1);
    assert!(rt; matches!(found.verdicts[0], Verdict::Holds));
}

// A search that has no room for all states says how far it is whole.
#[test]
fn room_is_wanting(rt: HostRuntime) {
    let bounds = Bounds {
        down: 3,
        steps: 8,
        states: 100,
        mebibytes: 1_024,
    };
    let no_asks = Vec::new(rt.alloc());
    let found = answers_to_failures(&rt, rt.alloc(), &bounds, no_asks.as_slice());
    assert!(rt; found.states == 100);
    let whole = match found.covered {
        Covered::All => 9,
        Covered::UpTo(steps) => steps,
    };
    assert!(rt; whole < 8);
}

// Nor does one that has no room for keys: the base alone is kept.
#[test]
fn room_for_keys_is_wanting(rt: HostRuntime) {
    let bounds = Bounds {
        down: 3,
        steps: 8,
        states: 100,
        mebibytes: 0,
    };
    let no_asks = Vec::new(rt.alloc());
    let found = answers_to_failures(&rt, rt.alloc(), &bounds, no_asks.as_slice());
    assert!(rt; found.states == 1);
    assert!(rt; found.covered == Covered::UpTo(0));
}

// Two asks: that the application doesn't run at the third node; and that it runs somewhere as long as two nodes are up and no timer
// is set.
fn two_asks(rt: &impl Abort, alloc: Global) -> [Ask; 2] {
    let app = App(0);
    let elsewhere = ask_of(
        rt,
        alloc,
        true,
        [
            [Condition::RunsNowhere(app)].as_slice(),
            [Condition::RunsAt(app, Node(0))].as_slice(),
            [Condition::RunsAt(app, Node(1))].as_slice(),
        ]
        .as_slice(),
    );
    let somewhere = ask_of(
        rt,
        alloc,
        false,
        [
            [Condition::RunsSomewhere(app)].as_slice(),
            [Condition::IsNotUp(Node(0)), Condition::IsNotUp(Node(1))].as_slice(),
            [Condition::IsNotUp(Node(0)), Condition::IsNotUp(Node(2))].as_slice(),
            [Condition::IsNotUp(Node(1)), Condition::IsNotUp(Node(2))].as_slice(),
        ]
        .as_slice(),
    );
    [elsewhere, somewhere]
}

// The first of them fails behind seven events, no fewer (so tells another search), and the second holds.
fn are_right(rt: &impl Abort, found: &Explored) {
    assert_eq!(rt; found.verdicts.len(), 2);
    let length = match &found.verdicts[0] {
        Verdict::Holds => 0,
        Verdict::Fails(events) => events.len(),
    };
    assert!(rt; length == 7);
    assert!(rt; matches!(found.verdicts[1], Verdict::Holds));
}

#[test]
fn verdicts_are_told(rt: HostRuntime) {
    let asks = two_asks(&rt, rt.alloc());
    let found = answers_to_failures(&rt, rt.alloc(), &up_to(8), asks.as_slice());
    are_right(&rt, &found);
}

// What so many workers find of the three nodes, each in a thread of its own.
fn answers_by<R: Threads + Abort + Sync>(
    rt: &R,
    alloc: Global,
    workers: usize,
    bounds: &Bounds,
    asks: &[Ask],
) -> Explored {
    let sim = sim_behind(rt, alloc, CAVE, ALL_BOOT.as_slice());
    answers_by_from(rt, alloc, &sim, workers, bounds, asks)
}

// What they find from the state of a simulation.
fn answers_by_from<R: Threads + Abort + Sync>(
    rt: &R,
    alloc: Global,
    sim: &Sim,
    workers: usize,
    bounds: &Bounds,
    asks: &[Ask],
) -> Explored {
    let search = Search {
        base: sim.state(),
        pick: Pick::First,
        moves: FAILURES.as_slice(),
        bounds: *bounds,
        asks,
    };
    let crew = Threaded::new(rt, workers);
    explore(&crew, &mut Nobody, alloc, &search)
        .ok()
        .expect(rt, "memory")
}

fn find_up_to_eight<R: Threads + Abort + Sync>(
    rt: &R,
    alloc: Global,
    workers: usize,
    asks: &[Ask],
) {
    let eight = answers_by(rt, alloc, workers, &up_to(8), asks);
    assert!(rt; eight.states == 399);
    assert!(rt; eight.covered == Covered::UpTo(8));
    are_right(rt, &eight);
}

fn find_all<R: Threads + Abort + Sync>(rt: &R, alloc: Global, workers: usize, no_asks: &[Ask]) {
    let all = answers_by(rt, alloc, workers, &up_to(100), no_asks);
    assert!(rt; all.states == 1_755);
    assert!(rt; all.covered == Covered::All);
}

// What others count and tell (above) is found by any number of workers.
fn find_the_same<R: Threads + Abort + Sync>(rt: &R, alloc: Global) {
    let asks = two_asks(rt, alloc);
    let no_asks = Vec::new(alloc);
    for workers in [1, 2, 4, 16] {
        find_up_to_eight(rt, alloc, workers, asks.as_slice());
        find_all(rt, alloc, workers, no_asks.as_slice());
    }
}

#[test]
fn the_number_of_workers_has_no_effect(rt: HostRuntime) {
    find_the_same(&rt, rt.alloc());
}

// It is asked whether an application runs somewhere in so many milliseconds.
fn runs_within(rt: &impl Abort, alloc: Global, app: App, ms: u64) -> Ask {
    let ask = ask_of(
        rt,
        alloc,
        true,
        [[Condition::RunsSomewhere(app)].as_slice()].as_slice(),
    );
    Ask {
        always: true,
        within: Some(ms),
        any_of: ask.any_of,
    }
}

// Where the first node ends, the application is lost until its timer fires, and a wait is as long as that; then no timer is set.
#[test]
fn time_passes_to_the_next_timer(rt: HostRuntime) {
    let app = App(0);
    let soon = runs_within(&rt, rt.alloc(), app, 5_000);
    let too_soon = runs_within(&rt, rt.alloc(), app, 4_999);
    let may = [Move::Make(Event::Crash { node: Node(0) }), Move::Wait];
    let found = answers_on(
        &rt,
        rt.alloc(),
        CAVE,
        ALL_BOOT.as_slice(),
        may.as_slice(),
        &up_to(9),
        [soon, too_soon].as_slice(),
    );
    assert!(rt; found.states == 3);
    assert!(rt; found.deepest == 2);
    assert!(rt; found.covered == Covered::All);
    assert_eq!(rt; found.verdicts.len(), 2);
    assert!(rt; matches!(found.verdicts[0], Verdict::Holds));
    let length = match &found.verdicts[1] {
        Verdict::Holds => 0,
        Verdict::Fails(events) => events.len(),
    };
    assert!(rt; length == 1);
}

// A node that waits for others in vain ends when its time is over: then all are down again.
#[test]
fn waiting_ends_a_node(rt: HostRuntime) {
    let may = [Move::Make(Event::Boot { node: Node(0) }), Move::Wait];
    let no_asks = Vec::new(rt.alloc());
    let found = answers_on(
        &rt,
        rt.alloc(),
        CAVE,
        [].as_slice(),
        may.as_slice(),
        &up_to(9),
        no_asks.as_slice(),
    );
    assert!(rt; found.states == 2);
    assert!(rt; found.deepest == 1);
    assert!(rt; found.covered == Covered::All);
}
