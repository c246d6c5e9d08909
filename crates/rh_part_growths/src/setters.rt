//! The setters of a state.

use crate::made::{HERE, SERVICE};
use rh_cluster::{Node, Restart};
use rh_state::{Kind, Mode, Place, Standing, State, Timer};

/// Whether a setter of this name sets its part, if it is one of a part without links.
pub fn is_part_set(state: &mut State, name: &str) -> Option<bool> {
    if name == "State::set_now" {
        Some(is_now_set(state))
    } else if name == "State::set_mode" {
        is_mode_set(state)
    } else if name == "State::set_incarnation" {
        is_incarnation_set(state)
    } else if name == "State::set_standing" {
        is_standing_set(state)
    } else {
        is_pair_set(state, name)
    }
}

// The same of one of a part of a node and an application.
fn is_pair_set(state: &mut State, name: &str) -> Option<bool> {
    if name == "State::set_allowed" {
        is_allowed_set(state)
    } else if name == "State::set_restart" {
        is_restart_set(state)
    } else if name == "State::set_kind" {
        is_kind_set(state)
    } else {
        None
    }
}

fn is_now_set(state: &mut State) -> bool {
    let _ = state.set_now(1_000);
    state.now() == 1_000
}

fn is_mode_set(state: &mut State) -> Option<bool> {
    if state.cluster().node_count() != 3 {
        return None;
    }
    let _ = state.set_mode(HERE, Mode::Up);
    Some(state.mode(HERE) == Mode::Up)
}

fn is_incarnation_set(state: &mut State) -> Option<bool> {
    if state.cluster().node_count() != 3 {
        return None;
    }
    let _ = state.set_incarnation(HERE, 2);
    Some(state.incarnation(HERE) == 2)
}

fn is_standing_set(state: &mut State) -> Option<bool> {
    if state.cluster().node_count() != 3 || state.cluster().app_count() != 2 {
        return None;
    }
    let _ = state.set_standing(SERVICE, Standing::Running(HERE));
    Some(state.standing(SERVICE) == Standing::Running(HERE))
}

fn is_allowed_set(state: &mut State) -> Option<bool> {
    if state.cluster().node_count() != 3 || state.cluster().app_count() != 2 {
        return None;
    }
    let _ = state.set_allowed(HERE, SERVICE, false);
    Some(!state.allowed(HERE, SERVICE))
}

fn is_restart_set(state: &mut State) -> Option<bool> {
    if state.cluster().node_count() != 3 || state.cluster().app_count() != 2 {
        return None;
    }
    let _ = state.set_restart(HERE, SERVICE, Restart::Permanent);
    Some(state.restart_of(HERE, SERVICE) == Restart::Permanent)
}

fn is_kind_set(state: &mut State) -> Option<bool> {
    if state.cluster().node_count() != 3 || state.cluster().app_count() != 2 {
        return None;
    }
    let _ = state.set_kind(HERE, SERVICE, Kind::Takeover(Node(1)));
    Some(state.kind_of(HERE, SERVICE) == Kind::Takeover(Node(1)))
}

/// The same of one of the lists and the timers. At the second node nothing is started.
pub fn is_link_set(state: &mut State, name: &str) -> Option<bool> {
    if !is_off(state) {
        return None;
    }
    if name == "State::push_running" {
        is_pushed_to_run(state)
    } else if name == "State::push_waiting" {
        is_pushed_to_wait(state)
    } else if name == "State::unlink" {
        is_unlinked(state)
    } else if name == "State::arm_timer" {
        is_armed(state)
    } else if name == "State::cancel_timer" {
        is_cancelled(state)
    } else {
        None
    }
}

// Is the service not started at the second node?
fn is_off(state: &State) -> bool {
    state.cluster().node_count() == 3
        && state.cluster().app_count() == 2
        && state.place_of(Node(1), SERVICE) == Place::Off
}

fn is_pushed_to_run(state: &mut State) -> Option<bool> {
    if state.cluster().node_count() != 3 || state.cluster().app_count() != 2 {
        return None;
    }
    if state.place_of(Node(1), SERVICE) != Place::Off {
        return None;
    }
    let _ = state.push_running(Node(1), SERVICE);
    Some(state.first_running(Node(1)) == Some(SERVICE))
}

fn is_pushed_to_wait(state: &mut State) -> Option<bool> {
    if state.cluster().node_count() != 3 || state.cluster().app_count() != 2 {
        return None;
    }
    if state.place_of(Node(1), SERVICE) != Place::Off {
        return None;
    }
    let _ = state.push_waiting(Node(1), SERVICE);
    Some(state.first_waiting(Node(1)) == Some(SERVICE))
}

fn is_unlinked(state: &mut State) -> Option<bool> {
    if state.cluster().node_count() != 3 || state.cluster().app_count() != 2 {
        return None;
    }
    if state.place_of(HERE, SERVICE) == Place::Off {
        return None;
    }
    let _ = state.unlink(HERE, SERVICE);
    Some(state.place_of(HERE, SERVICE) == Place::Off)
}

fn is_armed(state: &mut State) -> Option<bool> {
    let timer = Timer::Sync(HERE);
    if state.cluster().node_count() != 3 || state.due_of(timer).is_some() {
        return None;
    }
    let _ = state.arm_timer(timer, 35);
    Some(state.earliest() == Some((35, timer)))
}

fn is_cancelled(state: &mut State) -> Option<bool> {
    let timer = Timer::Failover(SERVICE);
    if state.cluster().app_count() != 2 || state.due_of(timer).is_none() {
        return None;
    }
    let _ = state.cancel_timer(timer);
    Some(state.earliest().is_none())
}
