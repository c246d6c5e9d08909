//! A step of a state by itself.

ghost use Rattle.std.specs.Prelude.{IfSome};
ghost use Rattle.rh_trace.specs.Validity.{IsValid};
ghost use Rattle.rh_state.specs.Stored.{read};

use crate::clusters::{BOOT_1, BOOT_3, RANKS, cluster_of};
use rh_cluster::Cluster;
use rh_marks::{Answer, begin, end};
use rh_state::{Edit, State, first_state};
use rh_step::{Event, Notice, Pick, first_is_valid, perform, refusal_of};
use std::alloc::Global;

/// The first state of a cluster.
pub fn first_of(alloc: Global, cluster: &Cluster) -> Option<State>
    ensures { IfSome result (λ state. IsValid (read state)) }
{
    cluster.is_within();
    first_is_valid();
    first_state(alloc, cluster).ok()
}

/// The third node has booted, so both lists have something in them. Then the first boots.
pub fn call_perform(alloc: Global) -> Option<Answer> {
    let cluster = cluster_of(alloc, RANKS)?;
    call_perform_of(alloc, &cluster)
}

fn call_perform_of(alloc: Global, cluster: &Cluster) -> Option<Answer> {
    let mut state = first_of(alloc, cluster)?;
    call_perform_on(alloc, &mut state)
}

fn call_perform_on(alloc: Global, state: &mut State) -> Option<Answer>
    requires { IsValid (read state.old) }
{
    let mut edits = Vec::new(alloc);
    let mut told = Vec::new(alloc);
    make(alloc, state, &BOOT_3, &mut edits, &mut told)?;
    call_perform_with_copy(alloc, state, &mut edits, &mut told)
}

fn call_perform_with_copy(
    alloc: Global,
    state: &mut State,
    edits: &mut Vec<Edit>,
    told: &mut Vec<Notice>,
) -> Option<Answer>
    requires { IsValid (read state.old) }
{
    let kept = state.copy(alloc).ok()?;
    call_perform_beside(alloc, state, &kept, edits, told)
}

/// Makes an event, if it is accepted and memory suffices.
pub fn make(
    alloc: Global,
    state: &mut State,
    event: &Event,
    edits: &mut Vec<Edit>,
    told: &mut Vec<Notice>,
) -> Option<()>
    requires { IsValid (read state.old) }
    ensures { IsValid (read state.new) }
{
    if refusal_of(state, event).is_some() {
        return None;
    }
    perform(alloc, state, event, Pick::First, edits, told).ok()
}

fn call_perform_beside(
    alloc: Global,
    state: &mut State,
    kept: &State,
    edits: &mut Vec<Edit>,
    told: &mut Vec<Notice>,
) -> Option<Answer>
    requires { IsValid (read state.old) }
{
    let (edit_count, notice_count) = (edits.len(), told.len());
    begin(alloc);
    let done = make(alloc, state, &BOOT_1, edits, told);
    end(alloc);
    Some(if done.is_some() {
        Answer::of_call(notice_count == 2 && told.len() == 6 && edits.len() > edit_count)
    } else if !state.same_words(kept) {
        Answer::Changed("words")
    } else if edits.len() != edit_count {
        Answer::Changed("records")
    } else if told.len() != notice_count {
        Answer::Changed("notices")
    } else {
        Answer::Refused
    })
}
