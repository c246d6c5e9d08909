//! Edits of a state, taken back and made again. No call takes memory.

ghost use Rattle.std.specs.Prelude.{◌≡◌, true, false, slice_get, slice_set, unwrap_or};
ghost use Rattle.rh_state.specs.Tables.{row, with_cell};
ghost use Rattle.rh_state.specs.Edits.{exchange, turned, put, had, is_done};
ghost use Rattle.rh_state.specs.Formed.{IsFormed};

use crate::edit::{Change, Edit};
use crate::state::State;
use crate::table::Table;
use rh_model::{App, Node};
use std::mem;

#[tactic(auto, unfolding(crate::specs::Edits::exchange, crate::specs::Edits::turned))]
impl State {
    /// Takes the change of a done edit back, or whatever exchange of it leaves a state; the edit is undone then.
    pub fn back(&mut self, edit: &mut Edit)
        requires done { is_done edit.old ≡ true }
        requires formed { IsFormed (exchange self.old edit.old) }
        ensures words { self.new ≡ exchange self.old edit.old }
        ensures edit { edit.new ≡ turned self.old edit.old }
        ensures exact { exchange self.new edit.new ≡ self.old }
        ensures again { turned self.new edit.new ≡ edit.old }
    {
        match edit {
            Edit::Links(links) => self.links.revert(links),
            Edit::Timer(timer) => self.wheel.revert(timer),
            Edit::Part(side, change) => {
                *side = false;
                self.exchange_part(change);
            }
        }
    }

    /// Makes the change of an undone edit again, or whatever exchange of it leaves a state; the edit is done then.
    pub fn forth(&mut self, edit: &mut Edit)
        requires undone { is_done edit.old ≡ false }
        requires formed { IsFormed (exchange self.old edit.old) }
        ensures words { self.new ≡ exchange self.old edit.old }
        ensures edit { edit.new ≡ turned self.old edit.old }
        ensures exact { exchange self.new edit.new ≡ self.old }
        ensures again { turned self.new edit.new ≡ edit.old }
    {
        match edit {
            Edit::Links(links) => self.links.reapply(links),
            Edit::Timer(timer) => self.wheel.reapply(timer),
            Edit::Part(side, change) => {
                *side = true;
                self.exchange_part(change);
            }
        }
    }

    // Gives a part the value of a change, which has the part's own from then on. Each value is exchanged where it lies, so that
    // the change is nowhere copied.
    fn exchange_part(&mut self, change: &mut Change)
        requires { IsFormed (put self.old change.old) }
        ensures words { self.new ≡ put self.old change.old }
        ensures change { change.new ≡ had self.old change.old }
    {
        match change {
            Change::Now(time) => mem::swap(&mut self.time, time),
            Change::Mode(node, mode) => exchange_at(&mut self.modes, node.0 as usize, mode),
            Change::Incarnation(node, incarnation) => {
                exchange_at(&mut self.incarnations, node.0 as usize, incarnation)
            }
            Change::Standing(app, standing) => {
                exchange_at(&mut self.standings, app.0 as usize, standing)
            }
            Change::Allowed(node, app, allow) => self.allowed.exchange(node.0, app.0, allow),
            Change::Restart(node, app, restart) => self.restarts.exchange(node.0, app.0, restart),
            Change::Kind(node, app, kind) => self.kinds.exchange(node.0, app.0, kind),
        }
    }
}

// Exchanges a value for the one at a place (where there is no such place, nothing changes).
fn exchange_at<T: Copy>(values: &mut Vec<T>, place: usize, value: &mut T)
    ensures values { values.new.items ≡ slice_set values.old.items place value.old }
    ensures value { value.new ≡ unwrap_or (slice_get values.old.items place) value.old }
{
    if let Some(slot) = values.get_mut(place) {
        mem::swap(slot, value);
    }
}

// Writes into a cell, and says what stood there (where there is no such cell, that value).
pub(crate) fn exchanged_cell<T: Copy>(table: &mut Table<T>, node: Node, app: App, value: T) -> T
    ensures cells { table.new ≡ with_cell table.old node.0 app.0 value }
    ensures value { result ≡ unwrap_or (slice_get (row table.old node.0) app.0) value }
{
    let mut exchanged = value;
    table.exchange(node.0, app.0, &mut exchanged);
    exchanged
}
