//! The timers and their due times.

ghost use Rattle.std.specs.Prelude.{◌≡◌, ◌≢◌, ◌<◌, ◌≤◌, ◌+◌, ◌%◌, ◌↔◌, ℕ, [], ◌∷◌, ◌++◌, length, slice_get, slice_set, slice_index_or, min, true, false, All, Contains, IsSome, IsNone, IfSome, IfOk};
ghost use Rattle.std.specs.List.{reduce, filter_map};
ghost use Rattle.rh_wheel.specs.Firing.{behind, without, due_in, due_at, timers_of, IsFiringOrder};
ghost use Rattle.rh_wheel.specs.Stored.{unarmed, listed, timer_count, in_slot};
ghost use Rattle.rh_wheel.specs.Formed.{IsFormed};
ghost use Rattle.rh_wheel.specs.Edits.{exchange, turned};

use crate::edit::{TimerEdit, bytes_of};
use rh_arena::Lists;
use std::alloc::{AllocError, Global};
use std::marker::Model;
use std::mem;

/// Timers, numbered from 0, each armed with a due time in milliseconds or not armed.
///
/// `new` and `copy` take the memory for all timers at once; no other call takes any. Arming and cancelling a timer, and
/// taking that back, take the same time however many timers there are.
#[derive(Drop)]
pub struct Wheel {
    // The timers of each slot, in the order in which they were armed.
    slots: Lists,
    dues: Vec<Option<u64>>,
}

impl Model for Wheel {
    ghost use Rattle.std.specs.Prelude.{◌≤◌, length};
    ghost use Rattle.rh_wheel.specs.Formed.{IsFormed};
    ghost use Rattle.rh_wheel.specs.Stored.{Stored};

    ghost Value = { Stored };

    ghost view = { λ wheel. record { links = wheel.slots; dues = wheel.dues.items } };

    ghost invariant = { λ wheel.
        record {
          formed : IsFormed (record { links = wheel.slots; dues = wheel.dues.items });
          few : length wheel.dues.items ≤ 65535;
        } };
}

impl Wheel {
    /// How many slots there are. An armed timer is in the slot of its due time modulo this number.
    pub const SLOTS: u64 = 64;

    /// Timers numbered from 0 to `timers - 1`, none of them armed. The error says that memory was refused.
    pub fn new(alloc: Global, timers: u16) -> Result<Wheel, AllocError>
        ensures count { IfOk result (λ wheel. timer_count wheel ≡ timers) }
        ensures words { IfOk result (λ wheel. wheel ≡ unarmed timers) }
        ensures unarmed { IfOk result (λ wheel. listed wheel ≡ []) }
    {
        let slots = Lists::new(alloc, timers, Wheel::SLOTS as u16)?;
        slots.formed();
        Ok(Wheel {
            slots,
            dues: vec![in alloc; None; timers as usize]?,
        })
    }

    /// The same timers, armed as these are, in the same order. The error says that memory was refused.
    pub fn copy(&self, alloc: Global) -> Result<Wheel, AllocError>
        ensures { IfOk result (λ wheel. wheel ≡ self.now) }
    {
        Ok(Wheel {
            slots: self.slots.copy(alloc)?,
            dues: Vec::from_slice(alloc, self.dues.as_slice())?,
        })
    }

    /// Is all that is kept of the two equal, also the links that timers which aren't armed have kept?
    pub fn same_words(&self, other: &Wheel) -> bool
        ensures { (result ≡ true) ↔ (self.now ≡ other.now) }
    {
        self.slots.same_words(&other.slots) && self.dues.as_slice() == other.dues.as_slice()
    }

    /// What holds of all that is kept at all times.
    pub fn formed(&self)
        ensures { IsFormed self.now }
    {
        let _ = &self.slots;
    }

    /// How many timers there are, armed or not.
    #[tactic(auto, unfolding(crate::specs::Stored::timer_count))]
    pub fn timer_count(&self) -> u32
        ensures { result ≡ timer_count self.now }
    {
        self.dues.len() as u32
    }

    /// Arms a timer that isn't armed, with a due time in milliseconds. It fires behind all that aren't due later, and
    /// before all that are.
    pub fn arm(&mut self, timer: u32, due: u64) -> TimerEdit
        requires numbered { timer < timer_count self.old }
        requires unarmed { IsNone (due_in timer (listed self.old)) }
        ensures list { listed self.new ≡ behind (due, timer) (listed self.old) }
        ensures count { timer_count self.new ≡ timer_count self.old }

        // So this timer is armed, each other one is as it was, cancelling gives the list of before, and of the timers
        // that are due together this one fires last.
        ensures armed { due_in timer (listed self.new) ≡ Some due }
        ensures others { (t : ℕ) → t ≢ timer
            → due_in t (listed self.new) ≡ due_in t (listed self.old) }
        ensures cancelled { without timer (listed self.new) ≡ listed self.old }
        ensures last_of_equals { due_at due (listed self.new)
            ≡ due_at due (listed self.old) ++ (due, timer) ∷ [] }

        // The edit takes it back, to the last word.
        ensures done { result.is_done ≡ true }
        ensures exact { exchange self.new result ≡ self.old }
    {
        self.dues[timer as usize] = Some(due);
        let links = self.slots.push_back((due % Wheel::SLOTS) as u32, timer);
        self.slots.formed();
        TimerEdit::new(links, None)
    }

    /// Cancels a timer that is armed.
    pub fn cancel(&mut self, timer: u32) -> TimerEdit
        requires { IsSome (due_in timer (listed self.old)) }
        ensures list { listed self.new ≡ without timer (listed self.old) }
        ensures count { timer_count self.new ≡ timer_count self.old }

        // So this timer isn't armed, each other one is as it was, and one less is armed.
        ensures unarmed { IsNone (due_in timer (listed self.new)) }
        ensures others { (t : ℕ) → t ≢ timer
            → due_in t (listed self.new) ≡ due_in t (listed self.old) }
        ensures one_less { length (listed self.new) + 1 ≡ length (listed self.old) }

        // The edit takes it back, to the last word.
        ensures done { result.is_done ≡ true }
        ensures exact { exchange self.new result ≡ self.old }
    {
        let due = self.dues[timer as usize];
        self.dues[timer as usize] = None;
        let links = self.slots.remove(timer);
        self.slots.formed();
        TimerEdit::new(links, due)
    }

    /// Takes the change of a done edit back, or whatever exchange of it leaves timers; the edit is undone then.
    pub fn revert(&mut self, edit: &mut TimerEdit)
        requires done { edit.old.is_done ≡ true }
        requires formed { IsFormed (exchange self.old edit.old) }
        ensures words { self.new ≡ exchange self.old edit.old }
        ensures edit { edit.new ≡ turned self.old edit.old }
        ensures exact { exchange self.new edit.new ≡ self.old }
        ensures again { turned self.new edit.new ≡ edit.old }
    {
        let due = exchange_due(&mut self.dues, edit.timer(), edit.due());
        self.slots.revert(&mut edit.links);
        edit.due = bytes_of(due);
    }

    /// Makes the change of an undone edit again, or whatever exchange of it leaves timers; the edit is done then.
    pub fn reapply(&mut self, edit: &mut TimerEdit)
        requires undone { edit.old.is_done ≡ false }
        requires formed { IsFormed (exchange self.old edit.old) }
        ensures words { self.new ≡ exchange self.old edit.old }
        ensures edit { edit.new ≡ turned self.old edit.old }
        ensures exact { exchange self.new edit.new ≡ self.old }
        ensures again { turned self.new edit.new ≡ edit.old }
    {
        let due = exchange_due(&mut self.dues, edit.timer(), edit.due());
        self.slots.reapply(&mut edit.links);
        edit.due = bytes_of(due);
    }

    /// The due time and the number of the timer that fires first; `None` exactly if no timer is armed.
    pub fn earliest(&self) -> Option<(u64, u32)>
        ensures first { result ≡ slice_get (listed self.now) 0 }
        ensures none { IsNone result ↔ (listed self.now ≡ []) }
        ensures least { IfSome result
            (λ entry. All (λ other. entry.0 ≤ other.0) (listed self.now)) }
        ensures armed { IfSome result (λ entry. due_in entry.1 (listed self.now) ≡ Some entry.0) }
        ensures numbered { IfSome result (λ entry. entry.1 < timer_count self.now) }

        // What holds of the armed timers at all times.
        ensures order { IsFiringOrder (timer_count self.now) (listed self.now) }
    {
        least_due(self.dues.as_slice()).and_then(|due| self.first_due_at(due))
    }

    // The first timer of a due time's slot that is due at it.
    fn first_due_at(&self, due: u64) -> Option<(u64, u32)>
        ensures { result ≡ slice_get (due_at due (in_slot self.now (due % Self.SLOTS))) 0 }
    {
        let slot = (due % Wheel::SLOTS) as u32;
        let mut next = self.slots.first(slot);
        'timers: for step in 0..self.slots.count(slot) {
            let timer = next?;
            if self.dues[timer as usize] == Some(due) {
                return Some((due, timer));
            }
            next = self.slots.next(timer);
        }
        None
    }

    /// When a timer is due, in milliseconds; `None` exactly if it isn't armed, as is a number that no timer has.
    pub fn due_of(&self, timer: u32) -> Option<u64>
        ensures due { result ≡ due_in timer (listed self.now) }
        ensures armed { IsSome result ↔ Contains (timers_of (listed self.now)) timer }
        ensures entry { IfSome result (λ due. Contains (listed self.now) (due, timer)) }
        ensures numbered { IsSome result → timer < timer_count self.now }
    {
        self.dues.get(timer as usize).copied().flatten()
    }
}

// The least of the due times.
fn least_due(dues: &[Option<u64>]) -> Option<u64>
    ensures { result ≡ reduce min (filter_map (λ due. due) dues.now) }
{
    dues.iter().filter_map(|due| *due).min()
}

// Writes a due time, and says which was there.
fn exchange_due(dues: &mut Vec<Option<u64>>, timer: u16, due: Option<u64>) -> Option<u64>
    ensures dues { dues.new.items ≡ slice_set dues.old.items timer due }
    ensures due { result ≡ slice_index_or dues.old.items timer due }
{
    match dues.get_mut(usize::from(timer)) {
        Some(kept) => mem::replace(kept, due),
        None => due,
    }
}
