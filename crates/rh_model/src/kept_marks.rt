//! What a cluster keeps marked of its applications.

ghost use Rattle.std.specs.Prelude.{◌≡◌, ◌<◌, ◌≤◌, ◌==◌, ◌&&◌, ◌||◌, length};
ghost use Rattle.std.specs.List.{list_any};
ghost use Rattle.std.specs.Option.{option_to_list};
ghost use Rattle.rh_model.specs.declared.limits.TheConstants.{MAX_APPS};
ghost use Rattle.rh_model.specs.declared.node.App.{App};
ghost use Rattle.rh_model.specs.Needs.{listed};
ghost use Rattle.rh_model.specs.Marks.{is_marked_in, is_touched_by, MarksLocals, MarksTouched};

use crate::app_marks::AppMarks;
use crate::app_settings::AppSettings;
use crate::limits::MAX_APPS;
use crate::mark_rows::MarkRows;
use crate::node::App;
use crate::settings::Dep;

/// The applications that aren't distributed.
pub(crate) fn locals_in(apps: &[AppSettings]) -> AppMarks
    requires { length apps.now ≤ MAX_APPS }
    ensures { MarksLocals apps.now result }
{
    let mut marks = AppMarks::empty();
    'apps: for number in 0..apps.len() {
        if apps[number].spread().is_none() {
            marks.mark(App(number as u8));
        }
    }
    marks
}

// Marks an application in the row of what it needs, if that is an application. A number without a row is no application's, since
// a cluster has at most as many applications as there are rows.
fn mark_need(rows: &mut MarkRows, app: App, dep: Dep)
    requires { app.0 < MAX_APPS }
    ensures { (b a : App) → b.0 < MAX_APPS → is_marked_in rows.new b a ≡ (is_marked_in rows.old b a
        || (a.0 == app.0 && list_any (λ (x : App). b.0 == x.0) (option_to_list (listed dep)))) }
{
    if let Dep::Listed(need) = dep {
        if (need.0 as usize) < MAX_APPS {
            rows.mark(need, app);
        }
    }
}

// Marks an application in its own row, and in the row of each application that it needs.
fn mark_touched(rows: &mut MarkRows, app: App, deps: &[Dep])
    requires { app.0 < MAX_APPS }
    ensures { (b a : App) → b.0 < MAX_APPS → is_marked_in rows.new b a
        ≡ (is_marked_in rows.old b a || (a.0 == app.0 && is_touched_by b a deps.now)) }
{
    rows.mark(app, app);
    'deps: for dep in deps {
        mark_need(rows, app, *dep);
    }
}

/// For each application those that a move of it touches.
pub(crate) fn touched_in(apps: &[AppSettings]) -> MarkRows
    requires { length apps.now ≤ MAX_APPS }
    ensures { MarksTouched apps.now result }
{
    let mut rows = MarkRows::empty();
    'apps: for number in 0..apps.len() {
        mark_touched(&mut rows, App(number as u8), apps[number].deps());
    }
    rows
}
