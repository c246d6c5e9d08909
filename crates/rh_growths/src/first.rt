//! The first state of a cluster, and events that leave two timers.

use crate::clusters::{BOOT_1, BOOT_2};
use rh_calls::report;
use rh_cluster::Node;
use rh_state::State;
use rh_step::Event;
use std::alloc::Global;

// The report of the first state of the cluster of one node.
static NEW: &str = "now 0\nnode one@lab down 0\n";

/// Two nodes come up; the first one ends, and boots again. Two timers are due together then.
pub static TWO_TIMERS: [Event; 5] = [
    BOOT_1,
    BOOT_2,
    Event::Tick { ms: 1_000 },
    Event::Crash { node: Node(0) },
    BOOT_1,
];

/// Is this the report of the first state of the cluster of one node?
pub fn is_new(alloc: Global, state: &State) -> bool {
    match report(alloc, state) {
        Ok(text) => text.as_slice() == NEW.as_bytes(),
        Err(_) => false,
    }
}
