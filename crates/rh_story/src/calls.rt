//! A simulation by the rules of the manual, of which a story tells: what came of each call, and the table at the end.

ghost use Rattle.std.specs.Prelude.{◌≡◌, ◌≢◌, ◌++◌, None, OnOk};
ghost use Rattle.std.specs.List.{flat_map};
ghost use Rattle.rh_step.specs.Firings.{firings};
ghost use Rattle.rh_trail.specs.SimView.{state_of};
ghost use Rattle.rh_trail.specs.Lone.{served, trail_limit};
ghost use Rattle.rh_calls.specs.declared.call.Call.TheVariants as call;
ghost use Rattle.rh_rules.specs.declared.event.Event.TheVariants.{Tick, Boot};
ghost use Rattle.rh_rules.specs.Refusals.{refused};
ghost use Rattle.rh_rules.specs.Steps.{next};
ghost use Rattle.rh_script.specs.Answers.{answer_text};
ghost use Rattle.rh_story.specs.LineText.{answer_lines, notice_lines, node_lines, firing_lines, call_lines};

use crate::reasons::push_awaited;
use crate::table::table_text;
use crate::teller::Teller;
use crate::ticks::{push_answer, push_firings, push_notices};
use rh_base::OutOfMemory;
use rh_calls::Call;
use rh_cluster::{Cluster, Node};
use rh_script::answer_text;
use rh_step::{Event, refusal_of};
use rh_trail::Sim;
use std::alloc::Global;

impl Teller for Sim {
    ghost use Rattle.rh_trail.specs.SimView.{SimView};
    ghost use Rattle.rh_story.specs.LineText.{manual};

    ghost View = { SimView };

    ghost view = { λ sim. sim.seen };

    ghost telling = { manual };

    fn cluster(&self) -> &Cluster {
        Sim::cluster(self)
    }

    #[tactic(auto, using(rh_run::proofs::Keeping::served_keeps_cluster))]
    fn push_call(
        &mut self,
        alloc: Global,
        text: &mut Vec<u8>,
        call: Call,
    ) -> Result<(), OutOfMemory> {
        push_call(alloc, text, self, call)
    }

    fn ending(&mut self, alloc: Global, lack: &str) -> Result<Vec<u8>, OutOfMemory> {
        table_text(alloc, self, lack)
    }
}

// Gives a call to the simulation, and adds what came of it.
fn push_call(
    alloc: Global,
    text: &mut Vec<u8>,
    sim: &mut Sim,
    call: Call,
) -> Result<(), OutOfMemory>
    ensures text { OnOk result (text.new.items
        ≡ text.old.items ++ call_lines sim.old.seen call (served sim.old.seen call).reply) }
    ensures sim { OnOk result (sim.new.seen ≡ (served sim.old.seen call).sim) }
{
    match call {
        Call::Step(event) => push_step(alloc, text, sim, event),
        _ => push_reply(alloc, text, sim, call),
    }
}

// Gives a call to the simulation, and adds the answer.
#[tactic(auto, using(rh_run::proofs::Keeping::served_keeps_cluster))]
fn push_reply(
    alloc: Global,
    text: &mut Vec<u8>,
    sim: &mut Sim,
    call: Call,
) -> Result<(), OutOfMemory>
    ensures text { OnOk result (text.new.items ≡ text.old.items
        ++ answer_lines (answer_text sim.old.seen.cluster (served sim.old.seen call).reply)) }
    ensures sim { OnOk result (sim.new.seen ≡ (served sim.old.seen call).sim) }
{
    let reply = sim.answer(alloc, call)?.into_one();
    let answer = answer_text(alloc, sim.cluster(), &reply)?;
    push_answer(text, answer.as_slice())
}

// Gives an event to the simulation, and adds what came of it.
#[tactic(auto, using(rh_run::proofs::Keeping::served_keeps_cluster))]
fn push_step(
    alloc: Global,
    text: &mut Vec<u8>,
    sim: &mut Sim,
    event: Event,
) -> Result<(), OutOfMemory>
    ensures text { OnOk result (text.new.items ≡ text.old.items ++ call_lines sim.old.seen
        (call.Step event) (served sim.old.seen (call.Step event)).reply) }
    ensures sim { OnOk result (sim.new.seen ≡ (served sim.old.seen (call.Step event)).sim) }
{
    if refusal_of(sim.state(), &event).is_some() || sim.cursor() == Sim::TRAIL_LIMIT {
        return push_reply(alloc, text, sim, Call::Step(event));
    }
    push_answer(text, b"ok\n".as_slice())?;
    match event {
        Event::Tick { ms } => push_tick(alloc, text, sim, ms),
        Event::Boot { node } => push_boot(alloc, text, sim, node),
        _ => push_event(alloc, text, sim, event),
    }
}

// Gives an event that isn't refused to the simulation, and adds its notices.
fn push_event(
    alloc: Global,
    text: &mut Vec<u8>,
    sim: &mut Sim,
    event: Event,
) -> Result<(), OutOfMemory>
    requires fine { refused (state_of sim.old.seen) event ≡ None }
    requires room { sim.old.seen.cursor ≢ trail_limit }
    ensures text { OnOk result (text.new.items ≡ text.old.items
        ++ flat_map (notice_lines (state_of (served sim.old.seen (call.Step event)).sim))
        (next (state_of sim.old.seen) event sim.old.seen.pick).notices) }
    ensures sim { OnOk result (sim.new.seen ≡ (served sim.old.seen (call.Step event)).sim) }
{
    match sim.step(alloc, event) {
        Ok(notices) => push_notices(alloc, text, sim.state(), notices.as_slice()),
        Err(_) => Err(OutOfMemory),
    }
}

// Gives a boot that isn't refused to the simulation, and adds its notices, and for whom the node waits.
fn push_boot(
    alloc: Global,
    text: &mut Vec<u8>,
    sim: &mut Sim,
    node: Node,
) -> Result<(), OutOfMemory>
    requires fine { refused (state_of sim.old.seen) (Boot node) ≡ None }
    requires room { sim.old.seen.cursor ≢ trail_limit }
    ensures text { OnOk result (text.new.items ≡ text.old.items
        ++ (flat_map (notice_lines (state_of (served sim.old.seen (call.Step (Boot node))).sim))
        (next (state_of sim.old.seen) (Boot node) sim.old.seen.pick).notices
        ++ node_lines (state_of (served sim.old.seen (call.Step (Boot node))).sim) node)) }
    ensures sim { OnOk result (sim.new.seen ≡ (served sim.old.seen (call.Step (Boot node))).sim) }
{
    push_event(alloc, text, sim, Event::Boot { node })?;
    push_awaited(alloc, text, sim.state(), node)
}

// Gives a tick that isn't refused to the simulation, and adds its notices by the timers that fired.
fn push_tick(alloc: Global, text: &mut Vec<u8>, sim: &mut Sim, ms: u64) -> Result<(), OutOfMemory>
    requires fine { refused (state_of sim.old.seen) (Tick ms) ≡ None }
    requires room { sim.old.seen.cursor ≢ trail_limit }
    ensures text { OnOk result (text.new.items ≡ text.old.items
        ++ flat_map (firing_lines (state_of (served sim.old.seen (call.Step (Tick ms))).sim))
        (firings (state_of sim.old.seen) ms sim.old.seen.pick)) }
    ensures sim { OnOk result (sim.new.seen ≡ (served sim.old.seen (call.Step (Tick ms))).sim) }
{
    let fired = sim.firings(alloc, ms)?;
    let _done = sim.answer(alloc, Call::Step(Event::Tick { ms }))?;
    push_firings(alloc, text, sim.state(), fired.as_slice())
}
