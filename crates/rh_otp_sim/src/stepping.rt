//! A step.

ghost use Rattle.std.specs.Prelude.{◌≡◌, ◌<◌, IfOk, OnOk, OnErr, All, length};
ghost use Rattle.rh_history.specs.Draft.{written};
ghost use Rattle.rh_otp_sim.specs.Stepping.{begun, run, is_quiet, waiting_of, happened, cells_behind, outcome_with, stepped_with, outcome_of, stepped};

use crate::acting::waits_for_end;
use crate::lines::Happened;
use crate::sim::LiveSim;
use crate::telling::{answer_of, lines_of};
use crate::waiting::{Waiting, forget_ended};
use rh_base::{Duplicate, OutOfMemory};
use rh_otp_system::{Cell, Net, System};
use rh_rules::{Event, Refusal};
use std::alloc::Global;

/// What a step comes to.
#[derive(Drop)]
pub enum Outcome {
    /// It was refused.
    Refused(Refusal),
    /// It has no end that is in sight: something still moved behind a million moves.
    Endless,
    /// It was made.
    Done(Happened),
}

impl LiveSim {
    // The system in which the command begins.
    fn begin(&self, alloc: Global, net: Net, event: Event) -> Result<System<'_>, OutOfMemory>
        ensures { IfOk result (λ system. system ≡ begun net event self.now) }
    {
        let cells = self.history.cells();
        let ends_soon = waits_for_end(event);
        let files = self.files.as_slice();
        let mut system = System::open(alloc, &self.cluster, files, cells, net, ends_soon)?;
        system.begin_step();
        Ok(system)
    }

    // Carries the command out. Is all quiet behind it?
    fn run(&self, alloc: Global, system: &mut System, event: Event) -> Result<bool, OutOfMemory>
        ensures is_quiet { IfOk result (λ quiet. quiet ≡ is_quiet event self.now system.old) }
        ensures state { OnOk result (system.new ≡ run event self.now system.old) }
    {
        let is_quiet = self.act(alloc, system, event)?;
        system.rest()?;
        Ok(is_quiet)
    }
}

// What is told of the command, and to whom, where the last one made the calls up to a number, and told so much.
fn tell(alloc: Global, system: &System, net: &Net) -> Result<Waiting, OutOfMemory>
    ensures { IfOk result (λ waiting. waiting ≡ waiting_of net.now system.now) }
{
    let before = net.last_call;
    let events = system.events();
    let calls = system.calls();
    let mut told = Vec::from_slice(alloc, net.told.as_slice())?;
    forget_ended(&mut told, events);
    let mut waiting = Waiting {
        told,
        asked: Vec::new(alloc),
        lines: lines_of(alloc, events, calls, before)?,
    };
    waiting.ask_events(system, events)?;
    waiting.ask_calls(system, events, calls, before)?;
    Ok(waiting)
}

// What is written of a command, and what has happened.
fn finish(
    alloc: Global,
    system: System,
    net: &Net,
    place: usize,
) -> Result<(Happened, Vec<(usize, Cell)>), OutOfMemory>
    ensures happened { IfOk result (λ r. r.0 ≡ happened net.now system.entry) }
    ensures cells { IfOk result (λ r. written system.entry.nodes.base r.1.items
        ≡ cells_behind net.now place system.entry) }
    ensures places { IfOk result
        (λ r. All (λ write. write.0 < length system.entry.nodes.base) r.1.items) }
{
    let waiting = tell(alloc, &system, net)?;
    let answer = answer_of(system.calls(), net.last_call);
    let (mut nodes, mut between) = system.into_parts();
    let Waiting {
        told,
        asked: _,
        lines,
    } = waiting;
    between.told = told;
    nodes.set(place, Cell::Net(between));
    let writes = nodes.into_writes(alloc)?;
    Ok((Happened { answer, lines }, writes))
}

impl LiveSim {
    // Carries out an event that isn't refused, where this is between the nodes, and writes what it has touched.
    fn carry_out(&mut self, alloc: Global, net: &Net, event: Event) -> Result<Outcome, OutOfMemory>
        ensures outcome { IfOk result (λ o. o ≡ outcome_with net.now event self.old) }
        ensures state { OnOk result (self.new ≡ stepped_with net.now event self.old) }
        ensures err { OnErr result (self.new ≡ self.old) }
    {
        let mut system = self.begin(alloc, net.copy(alloc)?, event)?;
        if !self.run(alloc, &mut system, event)? {
            return Ok(Outcome::Endless);
        }
        let place = self.cluster.node_count();
        let (happened, writes) = finish(alloc, system, net, place)?;
        self.history.make(writes)?;
        Ok(Outcome::Done(happened))
    }

    /// Makes a step: an event is refused, or carried out until nothing moves, which can be undone as one; what has happened is answered.
    /// A step that is refused, or has no end, changes nothing, nor does one for which memory is refused.
    pub fn step(&mut self, alloc: Global, event: Event) -> Result<Outcome, OutOfMemory>
        ensures outcome { IfOk result (λ o. o ≡ outcome_of event self.old) }
        ensures state { OnOk result (self.new ≡ stepped event self.old) }
        ensures err { OnErr result (self.new ≡ self.old) }
    {
        let net = self.net(alloc)?;
        match self.refusal(alloc, net.clock, net.last_call, event)? {
            Some(refusal) => Ok(Outcome::Refused(refusal)),
            None => self.carry_out(alloc, &net, event),
        }
    }
}
