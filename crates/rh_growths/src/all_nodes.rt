//! Steps that stop and start an application at all its nodes, and one that gives a permission back in the second profile. Behind
//! each a step was undone, which stays where memory is refused.

use crate::clusters::{BOOT_1, BOOT_2, BOOT_3, PAIR, SECOND_PAIR, sim_before_last};
use crate::kept::Kept;
use rh_cluster::{App, Node, Restart};
use rh_marks::{Answer, begin, end};
use rh_state::Kind;
use rh_step::{Event, Notice};
use rh_trail::Sim;
use std::alloc::Global;

static SECOND: Event = Event::Tick { ms: 1_000 };

static STOP_ALL: Event = Event::StopAll { app: App(0) };

static START_ALL: Event = Event::StartAll {
    app: App(0),
    restart: Restart::Permanent,
};

// What comes of a permission of the service at the first node.
fn permission(allow: bool) -> Event {
    Event::Permit {
        node: Node(0),
        app: App(0),
        allow,
    }
}

// The service starts at a node.
fn notice_of_start(node: u8, kind: Kind) -> Notice {
    Notice::Started {
        app: App(0),
        node: Node(node),
        kind,
        lost: None,
    }
}

// It stops at a node.
fn notice_of_stop(node: u8) -> Notice {
    Notice::Stopped {
        app: App(0),
        node: Node(node),
    }
}

// It waits at a node.
fn notice_of_wait(node: u8) -> Notice {
    Notice::Waits {
        app: App(0),
        node: Node(node),
    }
}

/// What comes of the call of this name, if it is here.
pub fn answer(alloc: Global, name: &str) -> Option<Answer> {
    if name == "Sim::step of stop_all" {
        step_of_stop_all(alloc)
    } else if name == "Sim::step of start_all" {
        step_of_start_all(alloc)
    } else if name == "Sim::step of a permission" {
        step_of_a_permission(alloc)
    } else {
        None
    }
}

// The service runs at the first node, and waits at the second.
fn step_of_stop_all(alloc: Global) -> Option<Answer> {
    let events = [BOOT_1, BOOT_2, SECOND, BOOT_3];
    let mut sim = sim_before_last(alloc, PAIR, events.as_slice())?;
    call_step(alloc, &mut sim, STOP_ALL, [notice_of_stop(0)].as_slice())
}

// It is started nowhere then.
fn step_of_start_all(alloc: Global) -> Option<Answer> {
    let events = [BOOT_1, BOOT_2, SECOND, STOP_ALL, BOOT_3];
    let mut sim = sim_before_last(alloc, PAIR, events.as_slice())?;
    let told = [notice_of_start(0, Kind::Normal), notice_of_wait(1)];
    call_step(alloc, &mut sim, START_ALL, told.as_slice())
}

// It runs at the second node, since it may not at the first.
fn step_of_a_permission(alloc: Global) -> Option<Answer> {
    let events = [BOOT_1, BOOT_2, SECOND, permission(false), BOOT_3];
    let mut sim = sim_before_last(alloc, SECOND_PAIR, events.as_slice())?;
    let told = [
        notice_of_start(0, Kind::Takeover(Node(1))),
        notice_of_stop(1),
    ];
    call_step(alloc, &mut sim, permission(true), told.as_slice())
}

// A step of these notices.
fn call_step(alloc: Global, sim: &mut Sim, event: Event, wanted: &[Notice]) -> Option<Answer> {
    let kept = Kept::of(alloc, sim)?;
    Some(call_step_beside(alloc, sim, &kept, event, wanted))
}

fn call_step_beside(
    alloc: Global,
    sim: &mut Sim,
    kept: &Kept,
    event: Event,
    wanted: &[Notice],
) -> Answer {
    // A trail has a limit, so that the sum fits.
    let _ = sim.trail();
    let next = sim.cursor() + 1;
    begin(alloc);
    let told = sim.step(alloc, event);
    end(alloc);
    match told {
        Ok(told) => {
            let is_told = told.as_slice() == wanted;
            Answer::of_call(is_told && sim.cursor() == next && sim.trail().len() == next)
        }
        Err(refusal) => {
            if refusal.is_memory() {
                Answer::of_refusal(kept.changed(alloc, sim))
            } else {
                Answer::Changed("refusal")
            }
        }
    }
}
