//! Distributed applications that newly run at several nodes, by the reports before a step and behind it.

ghost use Rattle.std.specs.Prelude.{◌≡◌, ◌++◌, IfOk, OnOk};
ghost use Rattle.std.specs.List.{flat_map};
ghost use Rattle.std.specs.String.{string_bytes};
ghost use Rattle.rh_otp_text.specs.ReportText.{place_words};
ghost use Rattle.rh_otp_lint.specs.Twice.{is_twice, was_twice, runs_twice, new_twice, all_new_twice};

use rh_base::{OutOfMemory, Str};
use rh_calls::{app_word, node_word};
use rh_cluster::Cluster;
use rh_findings::{Finding, Kind};
use rh_model::{App, Node};
use rh_otp_report::AppReport;
use std::alloc::Global;

// Does it run at several nodes?
fn is_twice(report: &AppReport) -> bool
    ensures { result ≡ is_twice report.now }
{
    report.nodes.len() > 1
}

// Does this one, by these reports?
fn was_twice(before: &[AppReport], app: App) -> bool
    ensures { result ≡ was_twice before.now app }
{
    for report in before {
        if report.app.0 == app.0 && is_twice(report) {
            return true;
        }
    }
    false
}

// The names of nodes, each behind a space.
fn places(alloc: Global, cluster: &Cluster, nodes: &[Node]) -> Result<String, OutOfMemory>
    ensures { IfOk result
        (λ text. string_bytes text ≡ flat_map (place_words cluster.now) nodes.now) }
{
    let mut text = String::new(alloc);
    for node in nodes {
        text.push_str(" ")?;
        text.push_str(node_word(cluster, *node))?;
    }
    Ok(text)
}

// The warning of an application that runs at these nodes, on the line of this number.
#[tactic(auto, unfolding(crate::specs::Twice::runs_twice))]
fn runs_twice(alloc: Global, number: u64, app: &str, places: &str) -> Result<Finding, OutOfMemory>
    ensures { IfOk result (λ found. found ≡ runs_twice number app.now places.now) }
{
    let text = format!(in alloc; "runs_twice: {app} runs at several nodes:{places}")?;
    Ok(Finding {
        line: Some(number),
        kind: Kind::Warning,
        text: Str::of(text),
        path: None,
    })
}

// Adds it, if the application runs at several nodes and didn't by the reports before.
fn push_twice(
    alloc: Global,
    found: &mut Vec<Finding>,
    cluster: &Cluster,
    number: u64,
    before: &[AppReport],
    after: &AppReport,
) -> Result<(), OutOfMemory>
    ensures { OnOk result (found.new.items
        ≡ found.old.items ++ new_twice cluster.now number before.now after.now) }
{
    if is_twice(after) && !was_twice(before, after.app) {
        let app = app_word(cluster, after.app);
        let places = places(alloc, cluster, after.nodes.as_slice())?;
        found.push(runs_twice(alloc, number, app, places.as_str())?)?;
    }
    Ok(())
}

/// Adds the warnings of all that newly run at several nodes.
pub(crate) fn push_all_twice(
    alloc: Global,
    found: &mut Vec<Finding>,
    cluster: &Cluster,
    number: u64,
    before: &[AppReport],
    after: &[AppReport],
) -> Result<(), OutOfMemory>
    ensures { OnOk result (found.new.items
        ≡ found.old.items ++ all_new_twice cluster.now number before.now after.now) }
{
    for report in after {
        push_twice(alloc, found, cluster, number, before, report)?;
    }
    Ok(())
}
