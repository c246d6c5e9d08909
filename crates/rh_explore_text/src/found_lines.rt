//! What a search found, as lines of JSON.

ghost use Rattle.std.specs.Prelude.{◌≡◌, ◌++◌, IfOk, OnOk};
ghost use Rattle.std.specs.List.{flat_map};
ghost use Rattle.rh_state.specs.Stored.{read};
ghost use Rattle.rh_trace.specs.Validity.{IsValid};
ghost use Rattle.rh_json_text.specs.Json.{json_array, behind_comma};
ghost use Rattle.rh_explore_text.specs.FoundText.{AllAccepted, CanCome};
ghost use Rattle.rh_explore_text.specs.FoundLines.{states_json, steps_json, down_json, finished_json, search_line, asked_json, event_json, fails_json, verdict_json, verdict_line};

use crate::reading::Search;
use crate::telling::{is_unfinished, state_behind};
use rh_base::OutOfMemory;
use rh_calls::Call;
use rh_cluster::Cluster;
use rh_explore::{Covered, Explored, Verdict};
use rh_json_lines::push_bare_report;
use rh_json_text::{close_array, push_number, push_string, push_text};
use rh_script::command_text;
use rh_state::State;
use rh_step::{Event, Pick};
use std::alloc::Global;

// Adds how many states were reached, and how many events lead to the last.
#[tactic(auto, unfolding(crate::specs::FoundLines::states_json))]
fn push_states(alloc: Global, out: &mut Vec<u8>, found: &Explored) -> Result<(), OutOfMemory>
    ensures { OnOk result (out.new.items ≡ out.old.items ++ states_json found.now) }
{
    push_text(out, "{\"states\":")?;
    push_number(alloc, out, found.states as u128)?;
    push_text(out, ",\"deepest\":")?;
    push_number(alloc, out, found.deepest as u128)
}

/// Adds the field of how many events the longest lists are of which all were looked at, unless they are all.
pub fn push_steps_field(
    alloc: Global,
    out: &mut Vec<u8>,
    covered: Covered,
) -> Result<(), OutOfMemory>
    ensures { OnOk result (out.new.items ≡ out.old.items ++ steps_json covered) }
{
    if let Covered::UpTo(steps) = covered {
        push_text(out, ",\"steps\":")?;
        push_number(alloc, out, steps as u128)?;
    }
    Ok(())
}

/// Adds the field of how many nodes are not up at most, unless all may be.
pub fn push_down_field(
    alloc: Global,
    out: &mut Vec<u8>,
    cluster: &Cluster,
    down: u64,
) -> Result<(), OutOfMemory>
    ensures { OnOk result (out.new.items ≡ out.old.items ++ down_json cluster.now down) }
{
    if (down as usize) < cluster.node_count() {
        push_text(out, ",\"down\":")?;
        push_number(alloc, out, down as u128)?;
    }
    Ok(())
}

// Adds whether all lists of at most so many events were looked at, and the end of the line.
fn push_finished(out: &mut Vec<u8>, steps: u32, covered: Covered) -> Result<(), OutOfMemory>
    ensures { OnOk result (out.new.items ≡ out.old.items ++ finished_json steps covered) }
{
    if is_unfinished(steps, covered) {
        push_text(out, ",\"finished\":false}\n")
    } else {
        push_text(out, ",\"finished\":true}\n")
    }
}

/// The line of what a search found within its bounds.
#[tactic(auto, unfolding(crate::specs::FoundLines::search_line))]
pub fn search_line(
    alloc: Global,
    cluster: &Cluster,
    search: &Search,
    found: &Explored,
) -> Result<Vec<u8>, OutOfMemory>
    ensures { IfOk result
        (λ line. line.items ≡ search_line cluster.now search.now.down search.now.steps found.now) }
{
    let mut line = Vec::new(alloc);
    push_states(alloc, &mut line, found)?;
    push_steps_field(alloc, &mut line, found.covered)?;
    push_down_field(alloc, &mut line, cluster, search.down)?;
    push_finished(&mut line, search.steps, found.covered)?;
    Ok(line)
}

// Adds an event as a command.
#[tactic(auto, unfolding(crate::specs::FoundLines::event_json))]
fn push_event(
    alloc: Global,
    out: &mut Vec<u8>,
    cluster: &Cluster,
    event: Event,
) -> Result<(), OutOfMemory>
    ensures { OnOk result (out.new.items ≡ out.old.items ++ event_json cluster.now event) }
{
    let command = command_text(alloc, cluster, Call::Step(event))?;
    push_string(out, command.as_bytes())
}

// Adds events, each behind a comma.
fn push_each_event(
    alloc: Global,
    out: &mut Vec<u8>,
    cluster: &Cluster,
    events: &[Event],
) -> Result<(), OutOfMemory>
    ensures { OnOk result (out.new.items
        ≡ out.old.items ++ flat_map (behind_comma (event_json cluster.now)) events.now) }
{
    for event in events {
        push_text(out, ",")?;
        push_event(alloc, out, cluster, *event)?;
    }
    Ok(())
}

/// Adds the array of the events, each as the command that asks it.
#[tactic(auto, using(rh_json_text::proofs::Arrays::array_is_closed))]
pub fn push_events_array(
    alloc: Global,
    out: &mut Vec<u8>,
    cluster: &Cluster,
    events: &[Event],
) -> Result<(), OutOfMemory>
    ensures { OnOk result
        (out.new.items ≡ out.old.items ++ json_array (event_json cluster.now) events.now) }
{
    let start = out.len();
    push_each_event(alloc, out, cluster, events)?;
    close_array(out, start)
}

// Adds that what is asked doesn't hold behind these events, and the report at their end.
#[tactic(auto, unfolding(crate::specs::FoundLines::fails_json))]
fn push_fails(
    alloc: Global,
    out: &mut Vec<u8>,
    cluster: &Cluster,
    base: &State,
    pick: Pick,
    events: &[Event],
) -> Result<(), OutOfMemory>
    requires accepted { AllAccepted pick (read base.now) events.now }
    requires valid { IsValid (read base.now) }
    ensures { OnOk result
        (out.new.items ≡ out.old.items ++ fails_json cluster.now pick (read base.now) events.now) }
{
    push_text(out, ",\"holds\":false,\"events\":")?;
    push_events_array(alloc, out, cluster, events)?;
    push_text(out, ",\"report\":")?;
    let state = state_behind(alloc, base, pick, events)?;
    push_bare_report(alloc, out, &state)?;
    push_text(out, "}\n")
}

// Adds whether what is asked holds.
fn push_verdict(
    alloc: Global,
    out: &mut Vec<u8>,
    cluster: &Cluster,
    base: &State,
    pick: Pick,
    verdict: &Verdict,
) -> Result<(), OutOfMemory>
    requires come { CanCome pick (read base.now) verdict.now }
    requires valid { IsValid (read base.now) }
    ensures { OnOk result (out.new.items
        ≡ out.old.items ++ verdict_json cluster.now pick (read base.now) verdict.now) }
{
    match verdict {
        Verdict::Holds => push_text(out, ",\"holds\":true}\n"),
        Verdict::Fails(events) => push_fails(alloc, out, cluster, base, pick, events.as_slice()),
    }
}

/// Adds the number of an ask, as the first field of its line.
#[tactic(auto, unfolding(crate::specs::FoundLines::asked_json))]
pub fn push_asked(alloc: Global, out: &mut Vec<u8>, number: usize) -> Result<(), OutOfMemory>
    ensures { OnOk result (out.new.items ≡ out.old.items ++ asked_json number) }
{
    push_text(out, "{\"ask\":")?;
    push_number(alloc, out, number as u128)
}

/// The line of the ask of this number, with the verdict on it.
#[tactic(auto, unfolding(crate::specs::FoundLines::verdict_line))]
pub fn verdict_line(
    alloc: Global,
    cluster: &Cluster,
    base: &State,
    pick: Pick,
    number: usize,
    verdict: &Verdict,
) -> Result<Vec<u8>, OutOfMemory>
    requires come { CanCome pick (read base.now) verdict.now }
    requires valid { IsValid (read base.now) }
    ensures { IfOk result
        (λ line. line.items ≡ verdict_line cluster.now pick (read base.now) number verdict.now) }
{
    let mut line = Vec::new(alloc);
    push_asked(alloc, &mut line, number)?;
    push_verdict(alloc, &mut line, cluster, base, pick, verdict)?;
    Ok(line)
}
