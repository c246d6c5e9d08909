//! Changes of single cells, taken back and made again.

ghost use Rattle.std.specs.Prelude.{◌≡◌, ◌<◌, length, All};
ghost use Rattle.rh_base.specs.Exchanges.{back, backed, forth, forthed};
ghost use Rattle.rh_history.specs.Change.{put, had, IsAmong};

use std::mem;

/// A cell, and what it held before it was written or is to hold again.
#[derive(Drop)]
pub struct Change<T> {
    pub at: usize,
    pub value: T,
}

// Exchanges what a change holds with what its cell holds.
pub fn exchange<T>(change: &mut Change<T>, cells: &mut [T])
    requires { IsAmong (length cells.old) change.old }
    ensures cells { cells.new ≡ put cells.old change.old }
    ensures change { change.new ≡ had cells.old change.old }
{
    mem::swap(&mut cells[change.at], &mut change.value);
}

// Takes changes back, from the last to the first.
pub fn go_back<T>(changes: &mut [Change<T>], cells: &mut [T])
    requires { All (IsAmong (length cells.old)) changes.old }
    ensures cells { cells.new ≡ back put cells.old changes.old }
    ensures changes { changes.new ≡ backed put had cells.old changes.old }
{
    'back: for index in (0..changes.len()).rev() {
        exchange(&mut changes[index], cells);
    }
}

// Makes changes again, from the first to the last.
pub fn go_forth<T>(changes: &mut [Change<T>], cells: &mut [T])
    requires { All (IsAmong (length cells.old)) changes.old }
    ensures cells { cells.new ≡ forth put cells.old changes.old }
    ensures changes { changes.new ≡ forthed put had cells.old changes.old }
{
    'forth: for change in changes.iter_mut() {
        exchange(change, cells);
    }
}
