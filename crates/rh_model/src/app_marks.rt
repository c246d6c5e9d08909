//! A mark for each application.

ghost use Rattle.std.specs.Prelude.{◌≡◌, ◌+◌, ◌<◌, ◌&&◌, ◌||◌, ◌==◌, ◌↔◌, false, true, not, count_ones, IsTrue, IsNone, IfSome};
ghost use Rattle.rh_model.specs.declared.limits.TheConstants.{MAX_APPS};
ghost use Rattle.rh_model.specs.declared.node.App.{App};
ghost use Rattle.rh_model.specs.Marks.{is_marked, marks_of};

use crate::limits::MAX_APPS;
use crate::node::App;
use std::marker::Model;

/// For each application, by its number, whether it is marked: bit a is 1 where application a is.
#[derive(Clone, Copy)]
pub struct AppMarks {
    marks: u128,
}

/// Contracts see `AppMarks` by the number whose bits the marks are.
impl Model for AppMarks {
    ghost use Rattle.std.specs.Prelude.{◌<◌, ◌^◌};
    ghost use Rattle.rh_model.specs.Marks.{AppMarks};

    ghost Value = { AppMarks };

    ghost view = { λ t. record { marks = t.marks } };

    ghost inverse = { λ t. record { marks = t.marks } };

    ghost invariant = { λ t. t.marks < 2 ^ 128 };
}

// A mark has its bit.
const _: () = prove!(MAX_APPS == 128);

impl AppMarks {
    /// No application is marked.
    pub fn empty() -> AppMarks
        ensures { (a : App) → is_marked result a ≡ false }
    {
        AppMarks { marks: 0 }
    }

    /// The marks of the first 64 applications, and those of the others.
    pub fn of_halves(low: u64, high: u64) -> AppMarks
        ensures low { (a : App) → a.0 < 64 → is_marked result a ≡ is_marked (marks_of low) a }
        ensures high { (a b : App) → a.0 ≡ b.0 + 64
            → is_marked result a ≡ is_marked (marks_of high) b }
    {
        AppMarks {
            marks: (u128::from(high) << 64) + u128::from(low),
        }
    }

    /// Is an application marked?
    pub fn has(&self, app: App) -> bool
        requires { app.0 < MAX_APPS }
        ensures { result ≡ is_marked self.now app }
    {
        self.marks >> app.0 & 1 == 1
    }

    /// Is no application marked?
    pub fn is_empty(&self) -> bool
        ensures { IsTrue result ↔ ((a : App) → is_marked self.now a ≡ false) }
    {
        self.marks == 0
    }

    /// How many applications are marked?
    pub fn count(&self) -> u32
        ensures { result ≡ count_ones self.now.marks }
    {
        self.marks.count_ones()
    }

    /// Marks an application.
    pub fn mark(&mut self, app: App)
        requires { app.0 < MAX_APPS }
        ensures { (a : App) → is_marked self.new a ≡ (is_marked self.old a || a.0 == app.0) }
    {
        self.marks |= 1 << app.0;
    }

    /// The applications that are marked in both.
    pub fn and(&self, other: &AppMarks) -> AppMarks
        ensures { (a : App) → is_marked result a ≡ (is_marked self.now a && is_marked other.now a) }
    {
        AppMarks {
            marks: self.marks & other.marks,
        }
    }

    /// Equal marks.
    pub fn copy(&self) -> AppMarks
        ensures { result ≡ self.now }
    {
        AppMarks { marks: self.marks }
    }

    /// Takes away the first mark, if it is below the count, and says whose it was. Else the marks stay.
    pub fn take_below(&mut self, count: usize) -> Option<App>
        ensures marked { IfSome result (λ a. is_marked self.old a ≡ true) }
        ensures first { IfSome result (λ a. (b : App) → b.0 < a.0 → is_marked self.old b ≡ false) }
        ensures few { IfSome result (λ a. a.0 < MAX_APPS) }
        ensures below { IfSome result (λ a. a.0 < count) }
        ensures taken { IfSome result
            (λ a. (b : App) → is_marked self.new b ≡ (is_marked self.old b && not (b.0 == a.0))) }
        ensures fewer { IfSome result (λ a. self.new.marks < self.old.marks) }
        ensures none { IsNone result → (b : App) → b.0 < count → is_marked self.old b ≡ false }
        ensures kept { IsNone result → self.new ≡ self.old }
    {
        let marks = self.marks;
        if marks == 0 {
            return None;
        }
        let app = App(marks.trailing_zeros() as u8);
        if app.0 as usize >= count {
            return None;
        }
        self.marks = marks & (marks - 1);
        Some(app)
    }
}

/// Marks of 64 applications, where each mark of these moves to the next one, and the first is marked or isn't.
pub fn with_mark_in_front(marks: u64, mark: bool) -> u64
    ensures first { (a : App) → a.0 ≡ 0 → is_marked (marks_of result) a ≡ mark }
    ensures others { (a b : App) → b.0 ≡ a.0 + 1 → b.0 < 64
        → is_marked (marks_of result) b ≡ is_marked (marks_of marks) a }
{
    (marks << 1) + u64::from(mark)
}
