//! The courses of the manual's cluster, and of two applications that come back at different times of one tick.

use crate::support::{make_all, sim_on};
use rh_cluster::{App, Node};
use rh_courses::{Course, course_text, courses_of};
use rh_samples::CAVE;
use rh_step::Event;
use rh_trail::Sim;
use std::alloc::Global;
use std::process::Abort;

// Two applications that wait 2000 and 5000 ms for a node that was lost.
static PAIR: &str = "\
{node, a@x, [{kernel, [{distributed, [{alpha, 2000, [a@x, b@x]}, {beta, 5000, [a@x, b@x]}]}]},
  {rehearse, [{boot, [{alpha, permanent}, {beta, permanent}]}]}]}.
{node, b@x, [{kernel, [{distributed, [{alpha, 2000, [a@x, b@x]}, {beta, 5000, [a@x, b@x]}]}]},
  {rehearse, [{boot, [{alpha, permanent}, {beta, permanent}]}]}]}.
{application, alpha, []}. {application, beta, []}.
";

// All three nodes come up at 0, where the last one boots. The first is lost at 6000, and comes back at 16000.
static CAVE_BOOTS: [Event; 3] = [
    Event::Boot { node: Node(0) },
    Event::Boot { node: Node(1) },
    Event::Boot { node: Node(2) },
];

static FIRST_IS_LOST: [Event; 3] = [
    Event::Tick { ms: 6000 },
    Event::Crash { node: Node(0) },
    Event::Tick { ms: 10000 },
];

static FIRST_COMES_BACK: [Event; 1] = [Event::Boot { node: Node(0) }];

// Both nodes are up at 0, and the first is lost at 1000.
static PAIR_LOSES_ONE: [Event; 5] = [
    Event::Boot { node: Node(0) },
    Event::Boot { node: Node(1) },
    Event::Tick { ms: 1000 },
    Event::Crash { node: Node(0) },
    Event::Tick { ms: 10000 },
];

static ALPHA_STOPS: [Event; 1] = [Event::Stop {
    node: Node(1),
    app: App(0),
}];

static LATER: [Event; 1] = [Event::Tick { ms: 500 }];

// Is this the line of a course?
fn reads(rt: &impl Abort, alloc: Global, sim: &Sim, course: &Course, wanted: &str) -> bool {
    let text = course_text(alloc, sim.cluster(), course)
        .ok()
        .expect(rt, "memory");
    text.as_str() == wanted
}

// The courses of a simulation, which then stands where it stood.
fn all_courses(rt: &impl Abort, alloc: Global, sim: &mut Sim) -> Vec<Course> {
    let before = sim.cursor();
    let courses = courses_of(alloc, sim).ok().expect(rt, "memory");
    assert!(rt; sim.cursor() == before);
    courses
}

// The course of this number has this line, and the simulation stands where it stood.
fn is(rt: &impl Abort, alloc: Global, sim: &mut Sim, number: usize, wanted: &str) {
    let courses = all_courses(rt, alloc, sim);
    assert!(rt; number < courses.len());
    assert!(rt; reads(rt, alloc, sim, &courses[number], wanted));
}

// Behind these events, too, the first course has this line.
fn is_behind(rt: &impl Abort, alloc: Global, sim: &mut Sim, events: &[Event], wanted: &str) {
    make_all(rt, alloc, sim, events);
    is(rt, alloc, sim, 0, wanted);
}

fn undo(rt: &impl Abort, sim: &mut Sim) {
    assert!(rt; sim.undo().is_ok());
}

fn redo(rt: &impl Abort, sim: &mut Sim) {
    assert!(rt; sim.redo().is_ok());
}

fn undo_all(sim: &mut Sim) {
    let _ = sim.undo_all();
}

static NEVER: &str = "myapp never ran";

static BOOTED: &str = "myapp ran at cp1@cave 0 to now";

static LOST: &str =
    "myapp ran at cp1@cave 0 to 6000, at cp2@cave 11000 to now; nowhere for 5000 ms in 1 piece";

static BACK: &str =
    "myapp ran at cp1@cave 0 to 6000, at cp2@cave 11000 to 16000, at cp1@cave 16000 to now; nowhere for 5000 ms in 1 piece";

fn cave_in_turn(rt: &impl Abort, alloc: Global, sim: &mut Sim) {
    is(rt, alloc, sim, 0, NEVER);
    is_behind(rt, alloc, sim, CAVE_BOOTS.as_slice(), BOOTED);
    is_behind(rt, alloc, sim, FIRST_IS_LOST.as_slice(), LOST);
}

// What was taken back doesn't count.
fn takeover_and_back(rt: &impl Abort, alloc: Global, sim: &mut Sim) {
    is_behind(rt, alloc, sim, FIRST_COMES_BACK.as_slice(), BACK);
    undo(rt, sim);
    is(rt, alloc, sim, 0, LOST);
}

// It counts again where it is made again.
fn takeover_again(rt: &impl Abort, alloc: Global, sim: &mut Sim) {
    redo(rt, sim);
    is(rt, alloc, sim, 0, BACK);
    undo_all(sim);
    is(rt, alloc, sim, 0, NEVER);
}

#[test]
fn the_cluster_of_the_manual(rt: HostRuntime) {
    let mut sim = sim_on(&rt, rt.alloc(), CAVE);
    cave_in_turn(&rt, rt.alloc(), &mut sim);
    takeover_and_back(&rt, rt.alloc(), &mut sim);
    takeover_again(&rt, rt.alloc(), &mut sim);
}

static ALPHA: &str =
    "alpha ran at a@x 0 to 1000, at b@x 3000 to now; nowhere for 2000 ms in 1 piece";

static BETA: &str = "beta ran at a@x 0 to 1000, at b@x 6000 to now; nowhere for 5000 ms in 1 piece";

static STOPPED: &str =
    "alpha ran at a@x 0 to 1000, at b@x 3000 to 11000; nowhere for 2000 ms in 2 pieces";

static STILL_STOPPED: &str =
    "alpha ran at a@x 0 to 1000, at b@x 3000 to 11000; nowhere for 2500 ms in 2 pieces";

fn pair_in_turn(rt: &impl Abort, alloc: Global, sim: &mut Sim) {
    is_behind(rt, alloc, sim, PAIR_LOSES_ONE.as_slice(), ALPHA);
    is(rt, alloc, sim, 1, BETA);
    is_behind(rt, alloc, sim, ALPHA_STOPS.as_slice(), STOPPED);
    is_behind(rt, alloc, sim, LATER.as_slice(), STILL_STOPPED);
}

#[test]
fn two_come_back_in_one_tick(rt: HostRuntime) {
    let mut sim = sim_on(&rt, rt.alloc(), PAIR);
    pair_in_turn(&rt, rt.alloc(), &mut sim);
}
