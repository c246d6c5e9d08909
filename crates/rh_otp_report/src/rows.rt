//! What runs at a node, waits there, and is being started.

ghost use Rattle.std.specs.Prelude.{◌≡◌, ◌++◌, IfOk, reverse, filter, map};
ghost use Rattle.rh_otp_report.specs.Rows.{restart_of, kind_of, runs_of, running_rows, running_at, waits_here, waiting_rows, forbidden_rows, waiting_at, starting_at};

use rh_base::OutOfMemory;
use rh_model::{App, Restart};
use rh_otp_controller::{Controller, Place};
use rh_otp_model::{StartType, key_find};
use rh_otp_node::LiveNode;
use rh_otp_sim::{has_ended_by_itself, is_here};
use std::alloc::Global;

/// An application that runs at a node.
#[derive(Clone, Copy, Debug, PartialEq, Eq)]
pub struct Runs {
    pub app: App,
    /// Its restart type, if it is known there.
    pub restart: Option<Restart>,
    /// How it was started.
    pub kind: StartType,
}

/// An application that is started at a node, and doesn't run there.
#[derive(Clone, Copy, Debug, PartialEq, Eq)]
pub struct Waits {
    pub app: App,
    /// Its restart type, if it is known there.
    pub restart: Option<Restart>,
}

// With which restart type the application was started, if that is known.
fn restart_of(controller: &Controller, app: App) -> Option<Restart>
    ensures { result ≡ restart_of app controller.now }
{
    key_find(controller.started(), app)?
}

// How the application was started last.
fn kind_of(live: &LiveNode, app: App) -> StartType
    ensures { result ≡ kind_of app live.now }
{
    key_find(live.kinds(), app).unwrap_or(StartType::Normal)
}

// What is told of an application that runs.
fn runs_of(live: &LiveNode, app: App) -> Runs
    ensures { result ≡ runs_of live.now app }
{
    Runs {
        app,
        restart: restart_of(live.controller(), app),
        kind: kind_of(live, app),
    }
}

// What runs, what was started last in front.
fn running_rows(alloc: Global, live: &LiveNode) -> Result<Vec<Runs>, OutOfMemory>
    ensures { IfOk result (λ rows. rows.items ≡ running_rows live.now) }
{
    let mut rows = Vec::new(alloc);
    for row in live.controller().running() {
        if is_here(Some(row.1)) {
            rows.push(runs_of(live, row.0))?;
        }
    }
    Ok(rows)
}

/// What runs at a node that is up, in the order of its starts.
pub(crate) fn running_at(alloc: Global, live: &LiveNode) -> Result<Vec<Runs>, OutOfMemory>
    ensures { IfOk result (λ rows. rows.items ≡ running_at live.now) }
{
    if !live.is_up() {
        return Ok(Vec::new(alloc));
    }
    let mut rows = running_rows(alloc, live)?;
    rows.as_mut_slice().reverse();
    Ok(rows)
}

// Does an application that is started wait here? One that has ended by itself doesn't.
fn waits_here(controller: &Controller, app: App) -> bool
    ensures { result ≡ waits_here app controller.now }
{
    !is_here(key_find(controller.running(), app)) && !has_ended_by_itself(controller, app)
}

// What is started and waits, what was started last in front.
fn waiting_rows(alloc: Global, controller: &Controller) -> Result<Vec<Waits>, OutOfMemory>
    ensures { IfOk result (λ rows. rows.items ≡ waiting_rows controller.now) }
{
    let mut rows = Vec::new(alloc);
    for row in controller.started() {
        if waits_here(controller, row.0) {
            rows.push(Waits {
                app: row.0,
                restart: row.1,
            })?;
        }
    }
    Ok(rows)
}

// What was started while it was forbidden, and waits, likewise.
fn forbidden_rows(alloc: Global, controller: &Controller) -> Result<Vec<Waits>, OutOfMemory>
    ensures { IfOk result (λ rows. rows.items ≡ forbidden_rows controller.now) }
{
    let mut rows = Vec::new(alloc);
    for row in controller.start_p_false() {
        if waits_here(controller, row.0) {
            rows.push(Waits {
                app: row.0,
                restart: Some(row.1),
            })?;
        }
    }
    Ok(rows)
}

/// What waits at a node that is up: what was started while it was forbidden, and the rest, each in the order of the starts.
pub(crate) fn waiting_at(alloc: Global, live: &LiveNode) -> Result<Vec<Waits>, OutOfMemory>
    ensures { IfOk result (λ rows. rows.items ≡ waiting_at live.now) }
{
    if !live.is_up() {
        return Ok(Vec::new(alloc));
    }
    let mut rows = waiting_rows(alloc, live.controller())?;
    let forbidden = forbidden_rows(alloc, live.controller())?;
    rows.extend_from_slice(forbidden.as_slice())?;
    rows.as_mut_slice().reverse();
    Ok(rows)
}

/// What is being started at a node that is up, in the order in which that began.
pub(crate) fn starting_at(alloc: Global, live: &LiveNode) -> Result<Vec<App>, OutOfMemory>
    ensures { IfOk result (λ apps. apps.items ≡ starting_at live.now) }
{
    if !live.is_up() {
        return Ok(Vec::new(alloc));
    }
    let mut apps = Vec::new(alloc);
    for row in live.controller().starting() {
        apps.push(row.0)?;
    }
    apps.as_mut_slice().reverse();
    Ok(apps)
}
