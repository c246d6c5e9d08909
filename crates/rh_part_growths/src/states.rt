//! States: the first one of a cluster, copies, and the calls of others.

use crate::made::{SERVICE, is_lab, state};
use crate::{exchanges, places, readers, setters};
use rh_marks::{Answer, begin, end};
use rh_state::{State, Timer, first_state};
use std::alloc::Global;

/// What comes of the call of this name, if it is here.
pub fn answer(alloc: Global, name: &str) -> Option<Answer> {
    let mut state = state(alloc)?;
    of_state(alloc, &mut state, name)
}

// The same of a call of that state.
fn of_state(alloc: Global, state: &mut State, name: &str) -> Option<Answer> {
    if name == "first_state" {
        Some(call_first_state(alloc, state))
    } else if name == "State::copy" {
        Some(call_copy(alloc, state))
    } else if name == "State::timers" {
        Some(call_timers(alloc, state))
    } else if name == "State::back" {
        exchanges::call_back(alloc, state)
    } else if name == "State::forth" {
        exchanges::call_forth(alloc, state)
    } else {
        call_without_growth(alloc, state, name)
    }
}

fn call_without_growth(alloc: Global, state: &mut State, name: &str) -> Option<Answer> {
    begin(alloc);
    let told = is_right(state, name);
    end(alloc);
    Some(Answer::of_call(told?))
}

// Whether a call of this name, which takes no memory, answers as it has to.
fn is_right(state: &mut State, name: &str) -> Option<bool> {
    if !is_lab(state.cluster()) {
        return None;
    }
    if let Some(is_right) = readers::is_read(state, name) {
        Some(is_right)
    } else if let Some(is_right) = places::is_told(state, name) {
        Some(is_right)
    } else if let Some(is_right) = setters::is_part_set(state, name) {
        Some(is_right)
    } else {
        setters::is_link_set(state, name)
    }
}

fn call_first_state(alloc: Global, state: &State) -> Answer {
    begin(alloc);
    let first = first_state(alloc, state.cluster());
    end(alloc);
    match first {
        Ok(first) => Answer::of_call(is_first(&first)),
        Err(_) => Answer::Refused,
    }
}

// Is it the beginning, and no timer set?
fn is_first(state: &State) -> bool {
    state.now() == 0 && state.earliest().is_none()
}

fn call_copy(alloc: Global, state: &State) -> Answer {
    begin(alloc);
    let copy = state.copy(alloc);
    end(alloc);
    match copy {
        Ok(copy) => Answer::of_call(are_same(&copy, state)),
        Err(_) => Answer::Refused,
    }
}

fn are_same(copy: &State, state: &State) -> bool {
    copy.same_words(state)
}

fn call_timers(alloc: Global, state: &State) -> Answer {
    begin(alloc);
    let timers = state.timers(alloc);
    end(alloc);
    match timers {
        Ok(timers) => {
            Answer::of_call(timers.as_slice() == [(36, Timer::Failover(SERVICE))].as_slice())
        }
        Err(_) => Answer::Refused,
    }
}
