//! The report of a state.

ghost use Rattle.std.specs.Prelude.{◌≡◌, ◌<◌, ◌++◌, [], not, if◌then◌else◌, codes, OnOk, All};
ghost use Rattle.std.specs.List.{flat_map};
ghost use Rattle.rh_model.specs.ClusterView.{ClusterView, app_count};
ghost use Rattle.rh_rules.specs.Course.{is_local};
ghost use Rattle.rh_state.specs.Numbers.{nodes_of};
ghost use Rattle.rh_state.specs.Stored.{read};
ghost use Rattle.rh_state.specs.StateView.{standing_of};
ghost use Rattle.rh_calls.specs.Report.{standing_words, timer_words};
ghost use Rattle.rh_json_text.specs.Json.{json_string, json_array, behind_comma};
ghost use Rattle.rh_json_lines.specs.Starts.{first_word};
ghost use Rattle.rh_json_lines.specs.Reports.{state_json, at_json, standing_json, distributed_in, timed_json, timer_json, place_json, parts_json, report_json, bare_report};

use crate::clusters::push_app;
use crate::starts::{push_app_at, push_node_at};
use crate::states::push_state;
use rh_base::OutOfMemory;
use rh_cluster::{App, Cluster, Node};
use rh_json_text::{close_array, push_number, push_text};
use rh_state::{Standing, State, Timer};
use std::alloc::Global;

// The field of a standing: its word needs no escape.
#[tactic(auto, unfolding(rh_json_text::specs::Json::json_string, rh_json_text::specs::Json::escaped))]
fn standing_field(standing: Standing) -> &'static str
    ensures { (c : ClusterView) → result.now
        ≡ codes ",\"standing\":" ++ json_string (first_word (standing_words c standing)) }
{
    match standing {
        Standing::Quiet => ",\"standing\":\"quiet\"",
        Standing::Wanted(_) => ",\"standing\":\"wanted\"",
        Standing::Running(_) => ",\"standing\":\"running\"",
        Standing::Lost(_) => ",\"standing\":\"lost\"",
    }
}

// The field of a timer's kind, with which its object begins: the word needs no escape.
#[tactic(auto, unfolding(rh_json_text::specs::Json::json_string, rh_json_text::specs::Json::escaped))]
fn timer_field(timer: Timer) -> &'static str
    ensures { (c : ClusterView)
        → result.now ≡ codes "{\"timer\":" ++ json_string (first_word (timer_words c timer)) }
{
    match timer {
        Timer::Sync(_) => "{\"timer\":\"sync\"",
        Timer::Failover(_) => "{\"timer\":\"failover\"",
    }
}

// Adds the node where an application runs, or with which it was lost.
fn push_at(out: &mut Vec<u8>, cluster: &Cluster, standing: Standing) -> Result<(), OutOfMemory>
    ensures { OnOk result (out.new.items ≡ out.old.items ++ at_json cluster.now standing) }
{
    match standing {
        Standing::Quiet | Standing::Wanted(None) => Ok(()),
        Standing::Wanted(Some(node)) | Standing::Running(node) | Standing::Lost(node) => {
            push_node_at(out, ",\"node\":", cluster, node)
        }
    }
}

// Adds a distributed application that stands so.
#[tactic(auto, unfolding(crate::specs::Reports::standing_json))]
pub fn push_standing(
    out: &mut Vec<u8>,
    cluster: &Cluster,
    app: App,
    standing: Standing,
) -> Result<(), OutOfMemory>
    ensures { OnOk result
        (out.new.items ≡ out.old.items ++ standing_json cluster.now app standing) }
{
    push_text(out, "{\"name\":")?;
    push_app(out, cluster, app)?;
    push_text(out, standing_field(standing))?;
    push_at(out, cluster, standing)?;
    push_text(out, "}")
}

// Adds an application behind a comma, if it is distributed.
fn push_if_distributed(out: &mut Vec<u8>, state: &State, app: App) -> Result<(), OutOfMemory>
    requires { app.0 < app_count (read state.now).cluster }
    ensures { OnOk result (out.new.items
        ≡ out.old.items ++ (if not (is_local (read state.now).cluster app) then behind_comma (λ a.
        standing_json (read state.now).cluster a (standing_of (read state.now) a)) app else [])) }
{
    if state.cluster().spread(app).is_none() {
        return Ok(());
    }
    push_text(out, ",")?;
    push_standing(out, state.cluster(), app, state.standing(app))
}

// Adds the distributed applications, each behind a comma.
#[tactic(auto, unfolding(rh_state::specs::Numbers::apps_of))]
fn push_each_distributed(out: &mut Vec<u8>, state: &State) -> Result<(), OutOfMemory>
    ensures { OnOk result (out.new.items ≡ out.old.items ++ flat_map (behind_comma (λ a.
        standing_json (read state.now).cluster a (standing_of (read state.now) a)))
        (distributed_in (read state.now).cluster)) }
{
    let count = state.cluster().app_count();
    for number in 0..count {
        push_if_distributed(out, state, App(number as u8))?;
    }
    Ok(())
}

// Adds what a timer is for.
fn push_timed(out: &mut Vec<u8>, cluster: &Cluster, timer: Timer) -> Result<(), OutOfMemory>
    ensures { OnOk result (out.new.items ≡ out.old.items ++ timed_json cluster.now timer) }
{
    match timer {
        Timer::Sync(node) => push_node_at(out, ",\"node\":", cluster, node),
        Timer::Failover(app) => push_app_at(out, ",\"application\":", cluster, app),
    }
}

// Adds a timer.
#[tactic(auto, unfolding(crate::specs::Reports::timer_json))]
fn push_timer(
    alloc: Global,
    out: &mut Vec<u8>,
    cluster: &Cluster,
    entry: &(u64, Timer),
) -> Result<(), OutOfMemory>
    ensures { OnOk result (out.new.items ≡ out.old.items ++ timer_json cluster.now entry.now) }
{
    push_text(out, timer_field(entry.1))?;
    push_timed(out, cluster, entry.1)?;
    push_text(out, ",\"due\":")?;
    push_number(alloc, out, entry.0 as u128)?;
    push_text(out, "}")
}

// Adds timers, each behind a comma.
fn push_each_timer(
    alloc: Global,
    out: &mut Vec<u8>,
    cluster: &Cluster,
    timers: &[(u64, Timer)],
) -> Result<(), OutOfMemory>
    ensures { OnOk result (out.new.items
        ≡ out.old.items ++ flat_map (behind_comma (timer_json cluster.now)) timers.now) }
{
    for entry in timers {
        push_text(out, ",")?;
        push_timer(alloc, out, cluster, entry)?;
    }
    Ok(())
}

// Adds the nodes, each behind a comma.
#[tactic(auto, unfolding(rh_state::specs::Numbers::nodes_of))]
fn push_each_state(alloc: Global, out: &mut Vec<u8>, state: &State) -> Result<(), OutOfMemory>
    ensures { OnOk result (out.new.items ≡ out.old.items ++ flat_map
        (behind_comma (state_json (read state.now))) (nodes_of (read state.now).cluster)) }
{
    let count = state.cluster().node_count();
    for number in 0..count {
        push_text(out, ",")?;
        push_state(alloc, out, state, Node(number as u8))?;
    }
    Ok(())
}

// Adds the array of the nodes.
#[tactic(auto, using(rh_json_text::proofs::Arrays::array_is_closed))]
fn push_all_states(alloc: Global, out: &mut Vec<u8>, state: &State) -> Result<(), OutOfMemory>
    ensures { OnOk result (out.new.items ≡ out.old.items
        ++ json_array (state_json (read state.now)) (nodes_of (read state.now).cluster)) }
{
    let start = out.len();
    push_each_state(alloc, out, state)?;
    close_array(out, start)
}

// Adds the array of the distributed applications.
#[tactic(auto, using(rh_json_text::proofs::Arrays::array_is_closed))]
fn push_all_distributed(out: &mut Vec<u8>, state: &State) -> Result<(), OutOfMemory>
    ensures { OnOk result
        (out.new.items ≡ out.old.items ++ json_array (λ a. standing_json (read state.now).cluster a
        (standing_of (read state.now) a)) (distributed_in (read state.now).cluster)) }
{
    let start = out.len();
    push_each_distributed(out, state)?;
    close_array(out, start)
}

// Adds the array of the timers.
#[tactic(auto, using(rh_json_text::proofs::Arrays::array_is_closed))]
fn push_all_timers(alloc: Global, out: &mut Vec<u8>, state: &State) -> Result<(), OutOfMemory>
    ensures { OnOk result (out.new.items ≡ out.old.items
        ++ json_array (timer_json (read state.now).cluster) (read state.now).timers) }
{
    let timers = state.timers(alloc)?;
    let start = out.len();
    push_each_timer(alloc, out, state.cluster(), timers.as_slice())?;
    close_array(out, start)
}

/// Adds what a report begins with: the time in milliseconds, and how many steps stand, of how many.
#[tactic(auto, unfolding(crate::specs::Reports::place_json))]
pub fn push_place(
    alloc: Global,
    out: &mut Vec<u8>,
    time: u64,
    cursor: usize,
    trail: usize,
) -> Result<(), OutOfMemory>
    ensures { OnOk result (out.new.items ≡ out.old.items ++ place_json time cursor trail) }
{
    push_text(out, "{\"time\":")?;
    push_number(alloc, out, time as u128)?;
    push_text(out, ",\"steps\":")?;
    push_number(alloc, out, cursor as u128)?;
    push_text(out, ",\"trail\":")?;
    push_number(alloc, out, trail as u128)
}

// Adds the nodes, the distributed applications and the timers.
#[tactic(auto, unfolding(crate::specs::Reports::parts_json))]
fn push_parts(alloc: Global, out: &mut Vec<u8>, state: &State) -> Result<(), OutOfMemory>
    ensures { OnOk result (out.new.items ≡ out.old.items ++ parts_json (read state.now)) }
{
    push_text(out, ",\"nodes\":")?;
    push_all_states(alloc, out, state)?;
    push_text(out, ",\"applications\":")?;
    push_all_distributed(out, state)?;
    push_text(out, ",\"timers\":")?;
    push_all_timers(alloc, out, state)
}

// Adds the report of a state behind so many steps, of so many.
#[tactic(auto, unfolding(crate::specs::Reports::report_json))]
pub fn push_report(
    alloc: Global,
    out: &mut Vec<u8>,
    cursor: usize,
    trail: usize,
    state: &State,
) -> Result<(), OutOfMemory>
    ensures { OnOk result
        (out.new.items ≡ out.old.items ++ report_json cursor trail (read state.now)) }
{
    push_place(alloc, out, state.now(), cursor, trail)?;
    push_parts(alloc, out, state)?;
    push_text(out, "}")
}

/// Adds the report of a state that stands on no trail.
#[tactic(auto, unfolding(crate::specs::Reports::bare_report))]
pub fn push_bare_report(alloc: Global, out: &mut Vec<u8>, state: &State) -> Result<(), OutOfMemory>
    ensures { OnOk result (out.new.items ≡ out.old.items ++ bare_report (read state.now)) }
{
    push_text(out, "{\"time\":")?;
    push_number(alloc, out, state.now() as u128)?;
    push_parts(alloc, out, state)?;
    push_text(out, "}")
}
