//! Applications that depend on themselves.

ghost use Rattle.std.specs.Prelude.{◌≡◌, ◌↔◌, ◌<◌, map, IfOk, IsTrue};
ghost use Rattle.rh_model.specs.ClusterView.{app_count};
ghost use Rattle.rh_model.specs.declared.node.App.{App};
ghost use Rattle.rh_state.specs.Numbers.{apps_of};
ghost use Rattle.rh_file_lint.specs.Circles.{depends_within, is_in_circle, is_marked, needs_marked};

use rh_base::OutOfMemory;
use rh_model::{App, Cluster};
use std::alloc::Global;

// Is an application marked?
fn is_marked(marks: &[bool], app: App) -> bool
    ensures { result ≡ is_marked marks.now app }
{
    marks.get(app.0 as usize).copied().unwrap_or(false)
}

// Does an application need another one, or one that is marked?
#[tactic(auto, unfolding(crate::specs::Circles::needs_marked))]
fn needs_marked(cluster: &Cluster, marks: &[bool], other: App, app: App) -> bool
    requires { app.0 < app_count cluster.now }
    ensures { result ≡ needs_marked cluster.now marks.now other app }
{
    cluster
        .needs(app)
        .iter()
        .any(|need| need.0 == other.0 || is_marked(marks, *need))
}

// Marks the applications that need another one, or one that is marked.
#[tactic(auto, unfolding(rh_state::specs::Numbers::apps_of))]
fn one_step_more(
    alloc: Global,
    cluster: &Cluster,
    marks: &[bool],
    other: App,
) -> Result<Vec<bool>, OutOfMemory>
    ensures { IfOk result (λ more.
        more.items ≡ map (needs_marked cluster.now marks.now other) (apps_of cluster.now)) }
{
    let mut more = Vec::new(alloc);
    for number in 0..cluster.app_count() {
        let mark = needs_marked(cluster, marks, other, App(number as u8));
        more.push(mark)?;
    }
    Ok(more)
}

// Are these the same marks?
fn are_same(marks: &[bool], others: &[bool]) -> bool
    ensures { IsTrue result ↔ (marks.now ≡ others.now) }
{
    marks == others
}

// Marks the applications that depend on another one, as far as the cluster goes. A step that marks no other application is the last: all
// later ones would do the same.
fn mark_dependents(alloc: Global, cluster: &Cluster, other: App) -> Result<Vec<bool>, OutOfMemory>
    ensures { IfOk result (λ marks. (a : App) → a.0 < app_count cluster.now
        → is_marked marks.items a ≡ depends_within (app_count cluster.now) cluster.now a other) }
{
    cluster.is_within();
    let mut marks = Vec::new(alloc);
    'steps: for _step in 0..cluster.app_count() {
        let more = one_step_more(alloc, cluster, marks.as_slice(), other)?;
        if are_same(more.as_slice(), marks.as_slice()) {
            return Ok(more);
        }
        marks = more;
    }
    Ok(marks)
}

// Does an application depend on itself?
#[tactic(auto, unfolding(crate::specs::Circles::is_in_circle))]
pub(crate) fn is_in_circle(alloc: Global, cluster: &Cluster, app: App) -> Result<bool, OutOfMemory>
    requires { app.0 < app_count cluster.now }
    ensures { IfOk result (λ holds. holds ≡ is_in_circle cluster.now app) }
{
    let marks = mark_dependents(alloc, cluster, app)?;
    Ok(is_marked(marks.as_slice(), app))
}
