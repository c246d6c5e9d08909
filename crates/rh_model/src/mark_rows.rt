//! Marks for each application.

ghost use Rattle.std.specs.Prelude.{◌≡◌, ◌<◌, ◌==◌, ◌&&◌, ◌||◌, false};
ghost use Rattle.rh_model.specs.declared.limits.TheConstants.{MAX_APPS};
ghost use Rattle.rh_model.specs.declared.node.App.{App};
ghost use Rattle.rh_model.specs.Marks.{is_marked, is_marked_in};

use crate::app_marks::AppMarks;
use crate::limits::MAX_APPS;
use crate::node::App;
use std::marker::Model;

/// For each application, by its number, marks.
#[derive(Clone, Copy)]
pub(crate) struct MarkRows {
    rows: [AppMarks; MAX_APPS],
}

impl Model for MarkRows {
    ghost use Rattle.std.specs.Prelude.{◌≡◌, length};
    ghost use Rattle.rh_model.specs.declared.limits.TheConstants.{MAX_APPS};
    ghost use Rattle.rh_model.specs.Marks.{MarkRows};

    ghost Value = { MarkRows };

    ghost view = { λ t. record { rows = t.rows } };

    ghost inverse = { λ t. record { rows = t.rows } };

    ghost invariant = { λ t. length t.rows ≡ MAX_APPS };
}

impl MarkRows {
    // No application is marked in any row.
    pub fn empty() -> MarkRows
        ensures { (b a : App) → is_marked_in result b a ≡ false }
    {
        MarkRows {
            rows: [AppMarks::empty(); MAX_APPS],
        }
    }

    // The row of an application.
    pub fn of(&self, app: App) -> AppMarks
        requires { app.0 < MAX_APPS }
        ensures { (a : App) → is_marked result a ≡ is_marked_in self.now app a }
    {
        self.rows[app.0 as usize]
    }

    // Marks an application in the row of another one.
    pub fn mark(&mut self, row: App, app: App)
        requires row { row.0 < MAX_APPS }
        requires app { app.0 < MAX_APPS }
        ensures { (b a : App) → is_marked_in self.new b a
            ≡ (is_marked_in self.old b a || (b.0 == row.0 && a.0 == app.0)) }
    {
        let mut marks = self.of(row);
        marks.mark(app);
        self.rows[row.0 as usize] = marks;
    }
}
