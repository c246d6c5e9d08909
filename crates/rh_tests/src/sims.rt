//! Simulations by themselves: what one was opened with, copies, and replies that are shared.

use crate::support::{make_all, sim_on, state_of};
use rh_calls::{Call, Replies, Reply, report};
use rh_cluster::Node;
use rh_samples::ONE_NODE;
use rh_step::{Event, Pick, Refusal};
use rh_trail::Sim;
use std::alloc::Global;
use std::process::Abort;

// The node boots.
static BOOT: [Event; 1] = [Event::Boot { node: Node(0) }];

fn is_opened(rt: &impl Abort, sim: &Sim) {
    assert!(rt; sim.pick() == Pick::First && sim.cluster().node_count() == 1);
    assert!(rt; sim.trail().is_empty() && sim.cursor() == 0);
}

fn is_reported(rt: &impl Abort, alloc: Global, sim: &Sim) {
    let text = report(alloc, state_of(sim)).ok().expect(rt, "memory");
    assert!(rt; text.as_slice() == b"now 0\nnode one@lab down 0\n".as_slice());
}

fn is_new(rt: &impl Abort, alloc: Global, sim: &Sim) {
    is_opened(rt, sim);
    is_reported(rt, alloc, sim);
}

fn copy_of_sim(rt: &impl Abort, alloc: Global, sim: &Sim) -> Sim {
    sim.copy(alloc).ok().expect(rt, "memory")
}

fn is_new_in_copy(rt: &impl Abort, alloc: Global, sim: &Sim) {
    let copy = copy_of_sim(rt, alloc, sim);
    is_new(rt, alloc, &copy);
}

#[test]
fn a_simulation_tells_what_it_was_opened_with(rt: HostRuntime) {
    let sim = sim_on(&rt, rt.alloc(), ONE_NODE);
    is_new(&rt, rt.alloc(), &sim);
    is_new_in_copy(&rt, rt.alloc(), &sim);
}

// Does a reply have so many notices?
fn tells(reply: &Reply, count: usize) -> bool {
    match reply {
        Reply::Done(notices) => notices.as_slice().len() == count,
        _ => false,
    }
}

// What is answered where the node boots.
fn replies_to_boot(rt: &impl Abort, alloc: Global, sim: &mut Sim) -> Replies {
    let [boot] = BOOT;
    sim.answer(alloc, Call::Step(boot))
        .ok()
        .expect(rt, "memory")
}

fn share_of(rt: &impl Abort, reply: &Reply) -> Reply {
    reply.share().ok().expect(rt, "few who share it")
}

fn are_same(one: &Reply, other: &Reply) -> bool {
    one.same(other)
}

// The three replies and one that is shared are equal, and tell of the boot.
fn tell_of_boot(rt: &impl Abort, replies: Replies) {
    let (logged, kept, told) = replies.into_three();
    let shared = share_of(rt, &told);
    assert!(rt; are_same(&logged, &kept) && are_same(&kept, &told) && are_same(&told, &shared));
    assert!(rt; tells(&logged, 4) && tells(&shared, 4));
}

fn boots(rt: &impl Abort, alloc: Global, sim: &mut Sim) {
    tell_of_boot(rt, replies_to_boot(rt, alloc, sim));
    assert!(rt; sim.cursor() == 1);
}

fn tell_of_refusal(rt: &impl Abort, replies: Replies) {
    let reply = replies.into_one();
    assert!(rt; reply.same(&Reply::Refused(Refusal::AlreadyAlive)) && !tells(&reply, 4));
    assert!(rt; Refusal::OutOfMemory.is_memory() && !Refusal::AlreadyAlive.is_memory());
}

fn is_refused(rt: &impl Abort, alloc: Global, sim: &mut Sim) {
    tell_of_refusal(rt, replies_to_boot(rt, alloc, sim));
    assert!(rt; sim.cursor() == 1);
}

#[test]
fn a_step_answers_in_equal_replies(rt: HostRuntime) {
    let mut sim = sim_on(&rt, rt.alloc(), ONE_NODE);
    boots(&rt, rt.alloc(), &mut sim);
    is_refused(&rt, rt.alloc(), &mut sim);
}

// What a look at the simulation shows.
fn reply_to_look(rt: &impl Abort, alloc: Global, sim: &Sim) -> Reply {
    sim.look(alloc).ok().expect(rt, "memory")
}

// Do looks at the two show the same?
fn look_same(rt: &impl Abort, alloc: Global, one: &Sim, other: &Sim) -> bool {
    let shown = reply_to_look(rt, alloc, one);
    let copy = share_of(rt, &shown);
    are_same(&copy, &reply_to_look(rt, alloc, other))
}

fn is_copied(rt: &impl Abort, alloc: Global, sim: &Sim) {
    let copy = copy_of_sim(rt, alloc, sim);
    assert!(rt; look_same(rt, alloc, sim, &copy));
}

#[test]
fn a_copy_of_a_simulation_shows_the_same(rt: HostRuntime) {
    let mut sim = sim_on(&rt, rt.alloc(), ONE_NODE);
    make_all(&rt, rt.alloc(), &mut sim, BOOT.as_slice());
    is_copied(&rt, rt.alloc(), &sim);
}
