//! The states that are to be expanded.

ghost use Rattle.std.specs.Prelude.{◌≡◌, ◌<◌, ◌≤◌, ◌+◌, ◌^◌, ◌∷◌, ◌++◌, [], Box, Some, length, All, IfOk, OnOk, IsSome};
ghost use Rattle.std.specs.declared.alloc.Global.{Global};
ghost use Rattle.std.specs.List.{flat_map};
ghost use Rattle.rh_state.specs.Stored.{Stored, read};
ghost use Rattle.rh_rules.specs.declared.pick.Pick.{Pick};
ghost use Rattle.rh_trace.specs.Validity.{IsValid};
ghost use Rattle.rh_explore.specs.Families.{children, waiting_in, piece_waiting, IsFamily, ArePieces};

use rh_base::OutOfMemory;
use rh_state::State;
use rh_step::Event;
use std::alloc::Global;
use std::collections::VecDeque;

/// States that were found from one: it, and the event that leads to each of them, in the order in which they were found. The base was
/// found from none, and is itself. A state takes much memory, so one is kept for all of them.
#[derive(Drop)]
pub struct Family {
    // It stays where it is while the families are handed on.
    pub(crate) state: Box<State>,
    pub(crate) events: Vec<Option<Event>>,
}

/// The states that are to be expanded, in the order in which they were found.
#[derive(Drop)]
pub(crate) struct Front {
    pub(crate) families: VecDeque<Family>,
    /// The number of the first of them, or of those that are being expanded.
    pub(crate) next: usize,
}

impl Front {
    /// The base alone.
    pub(crate) fn of(alloc: Global, base: State) -> Result<Front, OutOfMemory>
        requires { IsValid (read base) }
        ensures waiting { IfOk result
            (λ front. (pick : Pick) → waiting_in pick front.families.items ≡ read base ∷ []) }
        ensures families { IfOk result (λ front. All IsFamily front.families.items) }
        ensures next { IfOk result (λ front. front.next ≡ 0) }
    {
        let mut events = Vec::new(alloc);
        events.push(None)?;
        let state = Box::new(alloc, base)?;
        let mut families = VecDeque::new(alloc);
        families.push_back(Family { state, events })?;
        Ok(Front { families, next: 0 })
    }

    /// Takes up those that come first, in so many pieces of at most so many states.
    pub(crate) fn take_up(
        &mut self,
        alloc: Global,
        count: usize,
        most: usize,
    ) -> Result<Vec<VecDeque<Family>>, OutOfMemory>
        requires families { All IsFamily self.old.families.items }
        requires some { 0 < length self.old.families.items }
        requires count { 0 < count }
        requires most { 0 < most }
        ensures pieces { IfOk result (λ pieces. ArePieces pieces.items) }
        ensures some { IfOk result
            (λ pieces. (pick : Pick) → 0 < length (flat_map (piece_waiting pick) pieces.items)) }
        ensures waiting { IfOk result (λ pieces. (pick : Pick)
            → waiting_in pick self.old.families.items ≡ flat_map (piece_waiting pick) pieces.items
            ++ waiting_in pick self.new.families.items) }
        ensures families { OnOk result (All IsFamily self.new.families.items) }
        ensures next { OnOk result (self.new.next ≡ self.old.next) }
    {
        let mut pieces = Vec::with_capacity(alloc, count)?;
        'pieces: for _number in 0..count {
            let piece = self.take_piece(alloc, most)?;
            pieces.push(piece)?;
        }
        Ok(pieces)
    }

    // Takes up those that come first, at most so many, in a piece, which is empty where none is left.
    fn take_piece(&mut self, alloc: Global, most: usize) -> Result<VecDeque<Family>, OutOfMemory>
        requires families { All IsFamily self.old.families.items }
        requires most { 0 < most }
        ensures piece { IfOk result (λ piece. All IsFamily piece.items) }
        ensures some { IfOk result
            (λ piece. 0 < length self.old.families.items → 0 < length piece.items) }
        ensures waiting { IfOk result
            (λ piece. (pick : Pick) → waiting_in pick self.old.families.items
            ≡ waiting_in pick piece.items ++ waiting_in pick self.new.families.items) }
        ensures families { OnOk result (All IsFamily self.new.families.items) }
        ensures next { OnOk result (self.new.next ≡ self.old.next) }
    {
        let mut piece = VecDeque::new(alloc);
        let mut room = most;
        'families: while room > 0 {
            let Some(family) = self.families.pop_front() else {
                return Ok(piece);
            };
            let part = self.first_of(alloc, family, room)?;
            room -= part.events.len();
            piece.push_back(part)?;
        }
        Ok(piece)
    }

    // The first states of a family, at most so many. The others, if there are any, come first of those that are left.
    fn first_of(
        &mut self,
        alloc: Global,
        family: Family,
        most: usize,
    ) -> Result<Family, OutOfMemory>
        requires family { IsFamily family }
        requires families { All IsFamily self.old.families.items }
        requires most { 0 < most }
        ensures part { IfOk result (λ part. IsFamily part) }
        ensures most { IfOk result (λ part. length part.events.items ≤ most) }
        ensures waiting { IfOk result
            (λ part. (pick : Pick) → children pick family ++ waiting_in pick self.old.families.items
            ≡ children pick part ++ waiting_in pick self.new.families.items) }
        ensures families { OnOk result (All IsFamily self.new.families.items) }
        ensures next { OnOk result (self.new.next ≡ self.old.next) }
    {
        if family.events.len() <= most {
            return Ok(family);
        }
        let Family { state, mut events } = family;
        let rest = events.split_off(most)?;
        let copy = state.copy(alloc)?;
        let other = Box::new(alloc, copy)?;
        self.families.push_front(Family {
            state: other,
            events: rest,
        })?;
        Ok(Family { state, events })
    }

    /// Keeps the state that was expanded, if others were found from it, and goes on to the next one.
    pub(crate) fn keep(
        &mut self,
        state: Option<Box<State>>,
        events: Vec<Option<Event>>,
    ) -> Result<(), OutOfMemory>
        requires some { 0 < length events.items → IsSome state }
        requires few { self.old.next + 1 < 2 ^ 64 }
        ensures none { OnOk result
            (length events.items ≡ 0 → self.new.families.items ≡ self.old.families.items) }
        ensures some { OnOk result ((s : Box Stored Global) → 0 < length events.items
            → state ≡ Some s → self.new.families.items
            ≡ self.old.families.items ++ record { state = s; events = events } ∷ []) }
        ensures next { OnOk result (self.new.next ≡ self.old.next + 1) }
    {
        self.next += 1;
        if events.is_empty() {
            return Ok(());
        }
        let state = state.unwrap();
        self.families.push_back(Family { state, events })?;
        Ok(())
    }
}
