//! The readers of a state.

use crate::made::{HERE, SERVICE, SIDE};
use rh_cluster::{Node, Restart};
use rh_state::{Kind, Mode, Place, Standing, State, Timer};

/// Whether a reader of this name answers as it has to, if it is here.
pub fn is_read(state: &State, name: &str) -> Option<bool> {
    if let Some(is_right) = is_of_lists(state, name) {
        Some(is_right)
    } else if let Some(is_right) = is_of_places(state, name) {
        Some(is_right)
    } else if let Some(is_right) = is_of_pairs(state, name) {
        Some(is_right)
    } else if let Some(is_right) = is_of_walks(state, name) {
        Some(is_right)
    } else {
        is_of_parts(state, name)
    }
}

// The same of one of the other parts.
fn is_of_parts(state: &State, name: &str) -> Option<bool> {
    if let Some(is_right) = is_of_timers(state, name) {
        Some(is_right)
    } else if let Some(is_right) = is_of_nodes(state, name) {
        Some(is_right)
    } else if let Some(is_right) = is_of_apps(state, name) {
        Some(is_right)
    } else {
        is_of_whole(state, name)
    }
}

// Whether a reader of this name answers as it has to, if it is one of the lists of a node.
fn is_of_lists(state: &State, name: &str) -> Option<bool> {
    if state.cluster().node_count() != 3 {
        return None;
    }
    if name == "State::first_running" {
        Some(state.first_running(HERE) == Some(SIDE))
    } else if name == "State::first_waiting" {
        Some(state.first_waiting(HERE).is_none())
    } else if name == "State::running_count" {
        Some(state.running_count(HERE) == 2)
    } else if name == "State::waiting_count" {
        Some(state.waiting_count(HERE) == 0)
    } else {
        None
    }
}

// The same of one of an application's place in them.
fn is_of_places(state: &State, name: &str) -> Option<bool> {
    if state.cluster().node_count() != 3 || state.cluster().app_count() != 2 {
        return None;
    }
    if name == "State::place_of" {
        Some(state.place_of(HERE, SERVICE) == Place::InRunning)
    } else if name == "State::next_in_list" {
        Some(state.next_in_list(HERE, SIDE) == Some(SERVICE))
    } else {
        None
    }
}

// The same of one of the other parts of a node and an application.
fn is_of_pairs(state: &State, name: &str) -> Option<bool> {
    if state.cluster().node_count() != 3 || state.cluster().app_count() != 2 {
        return None;
    }
    if name == "State::allowed" {
        Some(state.allowed(HERE, SERVICE))
    } else if name == "State::restart_of" {
        Some(state.restart_of(HERE, SERVICE) == Restart::Temporary)
    } else if name == "State::kind_of" {
        Some(state.kind_of(HERE, SERVICE) == Kind::Normal)
    } else {
        None
    }
}

// The same of one that goes along the lists by the numbers of pairs.
fn is_of_walks(state: &State, name: &str) -> Option<bool> {
    if state.cluster().node_count() != 3 {
        return None;
    }
    if name == "State::pairs_before" {
        Some(state.pairs_before(Node(1)) == 2)
    } else if name == "State::first_running_pair" {
        Some(state.first_running_pair(HERE) == Some(1))
    } else if name == "State::first_waiting_pair" {
        Some(state.first_waiting_pair(HERE).is_none())
    } else {
        None
    }
}

// The same of one of the timers.
fn is_of_timers(state: &State, name: &str) -> Option<bool> {
    if state.cluster().app_count() != 2 {
        return None;
    }
    if name == "State::due_of" {
        Some(state.due_of(Timer::Failover(SERVICE)) == Some(36))
    } else if name == "State::earliest" {
        Some(state.earliest() == Some((36, Timer::Failover(SERVICE))))
    } else {
        None
    }
}

// The same of one of the other parts of a node.
fn is_of_nodes(state: &State, name: &str) -> Option<bool> {
    if state.cluster().node_count() != 3 {
        return None;
    }
    if name == "State::mode" {
        Some(state.mode(HERE) == Mode::Down)
    } else if name == "State::incarnation" {
        Some(state.incarnation(HERE) == 0)
    } else if name == "State::permissions" {
        Some(state.permissions(Node(1)) == [false, true].as_slice())
    } else {
        None
    }
}

// The same of one of where applications stand.
fn is_of_apps(state: &State, name: &str) -> Option<bool> {
    if state.cluster().app_count() != 2 {
        return None;
    }
    if name == "State::standing" {
        Some(state.standing(SERVICE) == Standing::Quiet)
    } else if name == "State::standings" {
        Some(state.standings() == [Standing::Quiet, Standing::Quiet].as_slice())
    } else {
        None
    }
}

// The same of one of the whole state.
fn is_of_whole(state: &State, name: &str) -> Option<bool> {
    if name == "State::cluster" {
        Some(state.cluster().node_count() == 3)
    } else if name == "State::now" {
        Some(state.now() == 0)
    } else if name == "State::same_words" {
        Some(state.same_words(state))
    } else {
        None
    }
}
