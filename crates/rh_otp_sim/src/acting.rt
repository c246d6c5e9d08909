//! What an event does.

ghost use Rattle.std.specs.Prelude.{◌≡◌, IfOk, OnOk};
ghost use Rattle.rh_otp_sim.specs.Refusing.{hosts};
ghost use Rattle.rh_otp_sim.specs.Acting.{waits_for_end, booted_if, called_if, called_at, acted_at_once, is_quiet_at_once, acted, is_acted};

use crate::sim::LiveSim;
use rh_base::OutOfMemory;
use rh_model::{App, Node};
use rh_otp_net::Order;
use rh_otp_system::{Ask, System};
use rh_rules::Event;
use std::alloc::Global;

/// So often at most something moves before a step is taken for one without end.
pub(crate) const MOST_MOVES: u32 = 1_000_000;

// Does the command wait for a node that ends by itself?
pub(crate) fn waits_for_end(event: Event) -> bool
    ensures { result ≡ waits_for_end event }
{
    matches!(event, Event::Boot { .. } | Event::Exit { .. })
}

// A node begins, if there is such a node, and its lives can be counted.
fn boot(system: &mut System, node: Node) -> Result<(), OutOfMemory>
    ensures { OnOk result (system.new ≡ booted_if node system.old) }
{
    if (node.0 as usize) < system.cluster().node_count() && system.life(node) < u32::MAX {
        return system.boot(node);
    }
    Ok(())
}

// An operator calls, if calls can be counted still.
fn call(system: &mut System, ask: Ask, node: Node, app: App) -> Result<(), OutOfMemory>
    ensures { OnOk result (system.new ≡ called_if ask node app system.old) }
{
    if system.last_call() < u32::MAX {
        return system.call(ask, node, app);
    }
    Ok(())
}

// At all of these nodes.
fn call_at(system: &mut System, ask: Ask, nodes: &[Node], app: App) -> Result<(), OutOfMemory>
    ensures { OnOk result (system.new ≡ called_at ask nodes.now app system.old) }
{
    for node in nodes {
        call(system, ask, *node, app)?;
    }
    Ok(())
}

// Time passes, and all moves in this order. Is all quiet behind it?
fn pass(system: &mut System, ms: u64, order: Order) -> Result<bool, OutOfMemory>
    ensures is_quiet { IfOk result (λ is_quiet. is_quiet ≡ is_passed ms order system.old) }
    ensures state { OnOk result (system.new ≡ time_passed ms order system.old) }
{
    match system.clock().checked_add(ms) {
        Some(end) => system.tick(end, MOST_MOVES, order),
        None => Ok(true),
    }
}

ghost use Rattle.rh_otp_sim.specs.Acting.{is_passed, time_passed, done_first};

impl LiveSim {
    // At all nodes of the application's list that are up.
    fn call_all(
        &self,
        alloc: Global,
        system: &mut System,
        ask: Ask,
        app: App,
    ) -> Result<(), OutOfMemory>
        ensures { OnOk result (system.new ≡ called_at ask (hosts self.now app) app system.old) }
    {
        let nodes = self.hosts(alloc, app)?;
        call_at(system, ask, nodes.as_slice(), app)
    }

    // What an event does at first, but for time that passes.
    fn do_first(&self, alloc: Global, system: &mut System, event: Event) -> Result<(), OutOfMemory>
        ensures { OnOk result (system.new ≡ done_first event self.now system.old) }
    {
        match event {
            Event::Boot { node } => boot(system, node),
            Event::Crash { node } => system.crash(node),
            Event::Tick { .. } => Ok(()),
            Event::Start { node, app, restart } => call(system, Ask::Start(restart), node, app),
            Event::Stop { node, app } => call(system, Ask::Stop, node, app),
            Event::Permit { node, app, allow } => call(system, Ask::Permit(allow), node, app),
            Event::Takeover { node, app, restart } => {
                call(system, Ask::Takeover(restart), node, app)
            }
            Event::Exit { node, app, normal } => call(system, Ask::Exit(normal), node, app),
            Event::StartAll { app, restart } => {
                self.call_all(alloc, system, Ask::Start(restart), app)
            }
            Event::StopAll { app } => self.call_all(alloc, system, Ask::Stop, app),
        }
    }

    // What an event does at once, until nothing moves, so often at most. Is all quiet behind it?
    #[tactic(auto, unfolding(crate::specs::Acting::acted_at_once, crate::specs::Acting::is_quiet_at_once))]
    fn act_at_once(
        &self,
        alloc: Global,
        system: &mut System,
        event: Event,
        most: u32,
    ) -> Result<bool, OutOfMemory>
        ensures is_quiet { IfOk result
            (λ quiet. quiet ≡ is_quiet_at_once most event self.now system.old) }
        ensures state { OnOk result
            (system.new ≡ acted_at_once most event self.now system.old) }
    {
        self.do_first(alloc, system, event)?;
        system.settle(most, self.order)
    }

    // What an event does, until nothing moves. Is all quiet behind it?
    #[tactic(auto, unfolding(crate::specs::Acting::acted, crate::specs::Acting::is_acted))]
    pub(crate) fn act(
        &self,
        alloc: Global,
        system: &mut System,
        event: Event,
    ) -> Result<bool, OutOfMemory>
        ensures is_quiet { IfOk result (λ quiet. quiet ≡ is_acted event self.now system.old) }
        ensures state { OnOk result (system.new ≡ acted event self.now system.old) }
    {
        match event {
            Event::Tick { ms } => pass(system, ms, self.order),
            _ => self.act_at_once(alloc, system, event, MOST_MOVES),
        }
    }
}
