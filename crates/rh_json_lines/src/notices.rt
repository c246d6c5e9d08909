//! What followed from a step, with the time at which it was told.

ghost use Rattle.std.specs.Prelude.{◌≡◌, ◌++◌, List, ℕ, codes, OnOk, IfOk, map};
ghost use Rattle.std.specs.List.{flat_map};
ghost use Rattle.std.specs.Option.{option_map};
ghost use Rattle.rh_model.specs.ClusterView.{ClusterView};
ghost use Rattle.rh_step.specs.Firings.{FiringView};
ghost use Rattle.rh_script.specs.Answers.{notice_line};
ghost use Rattle.rh_json_text.specs.Json.{json_string, json_array, behind_comma};
ghost use Rattle.rh_json_lines.specs.Starts.{first_word};
ghost use Rattle.rh_json_lines.specs.Notices.{pair_json, named_json, time_json, notice_json, timed, timed_notices, fired_by};

use crate::starts::{push_app_at, push_node_at, push_start};
use rh_base::OutOfMemory;
use rh_calls::Call;
use rh_cluster::{App, Cluster, Node};
use rh_json_text::{close_array, push_number, push_text};
use rh_step::{Event, FiredTimer, Notice, refusal_of};
use rh_trail::Sim;
use std::alloc::Global;

// The field of a notice's kind: its word needs no escape.
#[tactic(auto, unfolding(rh_script::specs::Answers::notice_line, rh_json_text::specs::Json::json_string, rh_json_text::specs::Json::escaped))]
fn notice_field(notice: &Notice) -> &'static str
    ensures { (c : ClusterView)
        → result.now ≡ codes "\"kind\":" ++ json_string (first_word (notice_line c notice.now)) }
{
    match notice {
        Notice::Up { .. } => "\"kind\":\"up\"",
        Notice::Ended { .. } => "\"kind\":\"ended\"",
        Notice::Started { .. } => "\"kind\":\"started\"",
        Notice::Stopped { .. } => "\"kind\":\"stopped\"",
        Notice::Waits { .. } => "\"kind\":\"waits\"",
    }
}

/// Adds an application and a node, each behind its key, in front of which stands a comma.
#[tactic(auto, unfolding(crate::specs::Notices::pair_json))]
pub fn push_pair(
    out: &mut Vec<u8>,
    cluster: &Cluster,
    app: App,
    node: Node,
) -> Result<(), OutOfMemory>
    ensures { OnOk result (out.new.items ≡ out.old.items ++ pair_json cluster.now app node) }
{
    push_app_at(out, ",\"application\":", cluster, app)?;
    push_node_at(out, ",\"node\":", cluster, node)
}

// Adds what a notice names.
fn push_named(out: &mut Vec<u8>, cluster: &Cluster, notice: &Notice) -> Result<(), OutOfMemory>
    ensures { OnOk result (out.new.items ≡ out.old.items ++ named_json cluster.now notice.now) }
{
    match *notice {
        Notice::Up { node } | Notice::Ended { node } => {
            push_node_at(out, ",\"node\":", cluster, node)
        }
        Notice::Started {
            app,
            node,
            kind,
            ..
        } => {
            push_pair(out, cluster, app, node)?;
            push_start(out, cluster, kind)
        }
        Notice::Stopped { app, node } | Notice::Waits { app, node } => {
            push_pair(out, cluster, app, node)
        }
    }
}

// Adds the time at which a notice was told, where that is known.
fn push_time(alloc: Global, out: &mut Vec<u8>, time: Option<u64>) -> Result<(), OutOfMemory>
    ensures { OnOk result (out.new.items ≡ out.old.items ++ time_json time) }
{
    if let Some(time) = time {
        push_text(out, "\"time\":")?;
        push_number(alloc, out, time as u128)?;
        push_text(out, ",")?;
    }
    Ok(())
}

// Adds, behind a comma, a notice, with the time at which it was told, where that is known.
#[tactic(auto, unfolding(crate::specs::Notices::notice_json))]
fn push_notice(
    alloc: Global,
    out: &mut Vec<u8>,
    cluster: &Cluster,
    time: Option<u64>,
    notice: &Notice,
) -> Result<(), OutOfMemory>
    ensures { OnOk result (out.new.items
        ≡ out.old.items ++ behind_comma (notice_json cluster.now) (time, notice.now)) }
{
    push_text(out, ",{")?;
    push_time(alloc, out, time)?;
    push_text(out, notice_field(notice))?;
    push_named(out, cluster, notice)?;
    push_text(out, "}")
}

// Adds notices that were told at one time, each behind a comma.
fn push_each_notice(
    alloc: Global,
    out: &mut Vec<u8>,
    cluster: &Cluster,
    time: Option<u64>,
    notices: &[Notice],
) -> Result<(), OutOfMemory>
    ensures { OnOk result (out.new.items ≡ out.old.items
        ++ flat_map (behind_comma (notice_json cluster.now)) (map (λ n. (time, n)) notices.now)) }
{
    for notice in notices {
        push_notice(alloc, out, cluster, time, notice)?;
    }
    Ok(())
}

// Adds what a timer told when it fired, each notice behind a comma.
fn push_fired(
    alloc: Global,
    out: &mut Vec<u8>,
    cluster: &Cluster,
    timer: &FiredTimer,
) -> Result<(), OutOfMemory>
    ensures { OnOk result (out.new.items
        ≡ out.old.items ++ flat_map (behind_comma (notice_json cluster.now)) (timed timer.now)) }
{
    push_each_notice(alloc, out, cluster, Some(timer.due()), timer.notices())
}

// Adds what each of the timers told.
fn push_each_fired(
    alloc: Global,
    out: &mut Vec<u8>,
    cluster: &Cluster,
    fired: &[FiredTimer],
) -> Result<(), OutOfMemory>
    ensures { OnOk result (out.new.items ≡ out.old.items ++ flat_map (λ (f : FiringView).
        flat_map (behind_comma (notice_json cluster.now)) (timed f)) fired.now) }
{
    for timer in fired {
        push_fired(alloc, out, cluster, timer)?;
    }
    Ok(())
}

// Adds what timers told when they fired, each notice behind a comma.
#[tactic(auto, using(rh_json_text::proofs::Arrays::flat_each))]
fn push_all_fired(
    alloc: Global,
    out: &mut Vec<u8>,
    cluster: &Cluster,
    fired: &[FiredTimer],
) -> Result<(), OutOfMemory>
    ensures { OnOk result (out.new.items ≡ out.old.items
        ++ flat_map (behind_comma (notice_json cluster.now)) (flat_map timed fired.now)) }
{
    push_each_fired(alloc, out, cluster, fired)
}

// Adds the notices of a step, each behind a comma; those of a tick are what its timers told.
fn push_told(
    alloc: Global,
    out: &mut Vec<u8>,
    cluster: &Cluster,
    notices: &[Notice],
    fired: &Option<Vec<FiredTimer>>,
) -> Result<(), OutOfMemory>
    ensures { OnOk result
        (out.new.items ≡ out.old.items ++ flat_map (behind_comma (notice_json cluster.now))
        (timed_notices notices.now (option_map (λ f. f.items) fired.now))) }
{
    match fired {
        None => push_each_notice(alloc, out, cluster, None, notices),
        Some(fired) => push_all_fired(alloc, out, cluster, fired.as_slice()),
    }
}

// Adds the array of a step's notices.
#[tactic(auto, using(rh_json_text::proofs::Arrays::array_is_closed))]
pub fn push_notices(
    alloc: Global,
    out: &mut Vec<u8>,
    cluster: &Cluster,
    notices: &[Notice],
    fired: &Option<Vec<FiredTimer>>,
) -> Result<(), OutOfMemory>
    ensures { OnOk result (out.new.items ≡ out.old.items ++ json_array (notice_json cluster.now)
        (timed_notices notices.now (option_map (λ f. f.items) fired.now))) }
{
    let start = out.len();
    push_told(alloc, out, cluster, notices, fired)?;
    close_array(out, start)
}

/// The timers that fire in a tick that isn't refused, and nothing of another call. The simulation is lent: it is as before, also where
/// memory is wanting.
pub fn fired_by(
    alloc: Global,
    sim: &mut Sim,
    call: &Call,
) -> Result<Option<Vec<FiredTimer>>, OutOfMemory>
    ensures fired { IfOk result
        (λ fired. option_map (λ f. f.items) fired ≡ fired_by sim.old.seen call.now) }
    ensures kept { sim.new ≡ sim.old }
{
    let Call::Step(Event::Tick { ms }) = *call else {
        return Ok(None);
    };
    if refusal_of(sim.state(), &Event::Tick { ms }).is_some() {
        return Ok(None);
    }
    Ok(Some(sim.firings(alloc, ms)?))
}
