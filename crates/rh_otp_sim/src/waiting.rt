//! Who is told to wait.

ghost use Rattle.std.specs.Prelude.{◌≡◌, OnOk};
ghost use Rattle.std.specs.List.{list_any};
ghost use Rattle.rh_otp_sim.specs.Waiting.{has_ended_by_itself, is_started, is_up_event, is_up_now, line_at, is_there, with_line, told_if, asked_at, asked, entries_asked, boot_asked, event_asked, events_asked, is_well, call_asked, calls_asked, still_told};

use crate::lines::Line;
use crate::telling::{has_ended, verdict_in};
use crate::verdict::{Verdict, is_done, is_start};
use rh_base::OutOfMemory;
use rh_model::{App, Node, Restart};
use rh_otp_controller::{Controller, Place};
use rh_otp_model::{Event, has_row, key_find};
use rh_otp_node::LiveNode;
use rh_otp_system::{Call, System};
use std::marker::Model;

/// Of which applications an observer was told that they wait at a node; which were asked for at this command; and the lines so far.
#[derive(Drop)]
pub struct Waiting {
    pub told: Vec<(App, Node)>,
    pub asked: Vec<(App, Node)>,
    pub lines: Vec<Line>,
}

/// Contracts see it as its lists.
impl Model for Waiting {
    ghost use Rattle.rh_otp_sim.specs.Waiting.{WaitingView};

    ghost Value = { WaitingView };

    ghost view = { λ w. record {
      told = w.told.items;
      asked = w.asked.items;
      lines = w.lines.items;
    } };
}

// Is it one of these?
fn is_app_in(apps: &[App], app: App) -> bool
    ensures { result ≡ list_any (λ b. b.0 == app.0) apps.now }
{
    apps.iter().any(|other| other.0 == app.0)
}

ghost use Rattle.std.specs.Prelude.{◌==◌};

/// Has the application ended by itself, and stands nowhere?
pub fn has_ended_by_itself(controller: &Controller, app: App) -> bool
    ensures { result ≡ has_ended_by_itself app controller.now }
{
    has_row(controller.started(), app)
        && !has_row(controller.running(), app)
        && is_app_in(controller.ended(), app)
}

// Is the application started there, or was it while it was forbidden?
fn is_started(controller: &Controller, app: App) -> bool
    ensures { result ≡ is_started app controller.now }
{
    !has_ended_by_itself(controller, app)
        && (has_row(controller.started(), app) || has_row(controller.start_p_false(), app))
}

/// Does it run here?
pub fn is_here(place: Option<Place>) -> bool
    ensures { result ≡ is_here place }
{
    matches!(place, Some(Place::Here))
}

ghost use Rattle.rh_otp_sim.specs.Waiting.{is_here};

// The line of an application that is asked for at a node, if it has one.
fn line_at(live: &LiveNode, app: App, node: Node, is_up_now: bool) -> Option<Line>
    ensures { result ≡ line_at live.now app node is_up_now }
{
    let controller = live.controller();
    if is_here(key_find(controller.running(), app)) {
        return None;
    }
    if is_started(controller, app) {
        return Some(Line::Waits(app, node));
    }
    if has_row(controller.starting(), app) && is_up_now {
        return Some(Line::Pending(app, node));
    }
    None
}

// Is the row among these?
fn is_there(rows: &[(App, Node)], app: App, node: Node) -> bool
    ensures { result ≡ is_there app node rows.now }
{
    rows.iter().any(|row| row.0.0 == app.0 && row.1.0 == node.0)
}

// Is its wait for others over now?
fn is_up_event(node: Node, event: Event) -> bool
    ensures { result ≡ is_up_event node event }
{
    match event {
        Event::Up(other) => other.0 == node.0,
        _ => false,
    }
}

// Did it come up at this command?
fn is_up_now(events: &[Event], node: Node) -> bool
    ensures { result ≡ is_up_now node events.now }
{
    events.iter().any(|event| is_up_event(node, *event))
}

// Was it answered, with no error?
fn is_well(verdict: Option<Verdict>) -> bool
    ensures { result ≡ is_well verdict }
{
    match verdict {
        Some(verdict) => is_done(verdict),
        None => false,
    }
}

impl Waiting {
    // An observer is told that it waits, once.
    fn add_told(&mut self, line: Line) -> Result<(), OutOfMemory>
        ensures { OnOk result (self.new ≡ told_if line self.old) }
    {
        match line {
            Line::Waits(app, node) if !is_there(self.told.as_slice(), app, node) => {
                self.told.push((app, node))?;
                Ok(())
            }
            _ => Ok(()),
        }
    }

    // A line more, if there is one.
    fn add_line(&mut self, line: Option<Line>) -> Result<(), OutOfMemory>
        ensures { OnOk result (self.new ≡ with_line line self.old) }
    {
        let Some(line) = line else {
            return Ok(());
        };
        self.lines.push(line)?;
        self.add_told(line)
    }

    // Asks for an application at a node that is alive, if that wasn't done.
    fn ask_at(
        &mut self,
        live: &LiveNode,
        events: &[Event],
        app: App,
        node: Node,
    ) -> Result<(), OutOfMemory>
        ensures { OnOk result (self.new ≡ asked_at live.now events.now app node self.old) }
    {
        if !live.is_alive() || is_there(self.asked.as_slice(), app, node) {
            return Ok(());
        }
        self.asked.push((app, node))?;
        self.add_line(line_at(live, app, node, is_up_now(events, node)))
    }

    // Asks for an application at a node.
    fn ask(
        &mut self,
        system: &System,
        events: &[Event],
        app: App,
        node: Node,
    ) -> Result<(), OutOfMemory>
        ensures { OnOk result (self.new ≡ asked system.now events.now app node self.old) }
    {
        match system.live(node) {
            Some(live) => self.ask_at(live, events, app, node),
            None => Ok(()),
        }
    }

    // Asks for all of these at a node that an observer wasn't told to wait for.
    fn ask_entries(
        &mut self,
        system: &System,
        events: &[Event],
        entries: &[(App, Restart)],
        node: Node,
    ) -> Result<(), OutOfMemory>
        ensures { OnOk result
            (self.new ≡ entries_asked system.now events.now entries.now node self.old) }
    {
        for entry in entries {
            if !is_there(self.told.as_slice(), entry.0, node) {
                self.ask(system, events, entry.0, node)?;
            }
        }
        Ok(())
    }

    // What a node boots is asked for when its wait is over, and at the end of its boot list.
    fn ask_boot(&mut self, system: &System, events: &[Event], node: Node) -> Result<(), OutOfMemory>
        ensures { OnOk result (self.new ≡ boot_asked system.now events.now node self.old) }
    {
        let cluster = system.cluster();
        cluster.is_within();
        if (node.0 as usize) >= cluster.node_count() {
            return Ok(());
        }
        self.ask_entries(system, events, cluster.boot(node), node)
    }

    // By an event.
    fn ask_event(
        &mut self,
        system: &System,
        events: &[Event],
        event: Event,
    ) -> Result<(), OutOfMemory>
        ensures { OnOk result (self.new ≡ event_asked system.now events.now event self.old) }
    {
        match event {
            Event::Up(node) | Event::Booted(node) => self.ask_boot(system, events, node),
            _ => Ok(()),
        }
    }

    /// By all events.
    pub(crate) fn ask_events(
        &mut self,
        system: &System,
        events: &[Event],
    ) -> Result<(), OutOfMemory>
        ensures { OnOk result
            (self.new ≡ events_asked system.now events.now events.now self.old) }
    {
        for event in events {
            self.ask_event(system, events, *event)?;
        }
        Ok(())
    }

    // What was started by hand, with no error.
    fn ask_call(
        &mut self,
        system: &System,
        events: &[Event],
        call: &Call,
    ) -> Result<(), OutOfMemory>
        ensures { OnOk result (self.new ≡ call_asked system.now events.now call.now self.old) }
    {
        if is_start(call.ask) && is_well(verdict_in(call)) {
            return self.ask(system, events, call.app, call.node);
        }
        Ok(())
    }

    /// By the calls behind the one of this number.
    pub(crate) fn ask_calls(
        &mut self,
        system: &System,
        events: &[Event],
        calls: &[Call],
        before: u32,
    ) -> Result<(), OutOfMemory>
        ensures { OnOk result
            (self.new ≡ calls_asked system.now events.now before calls.now self.old) }
    {
        for call in calls {
            if call.number > before {
                self.ask_call(system, events, call)?;
            }
        }
        Ok(())
    }
}

// Of nodes that have ended nothing is told any more.
pub(crate) fn forget_ended(told: &mut Vec<(App, Node)>, events: &[Event])
    ensures { told.new.items ≡ still_told events.now told.old.items }
{
    told.retain(|row| !has_ended(events, row.1));
}
