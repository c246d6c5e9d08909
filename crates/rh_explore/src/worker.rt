//! Whoever expands states.

ghost use Rattle.std.specs.Prelude.{◌≡◌, ◌<◌, ◌++◌, [], List, length, slice_get, IfOk, OnOk, MatchBool, Some, None, true, false};
ghost use Rattle.std.specs.List.{AllZip, list_any};
ghost use Rattle.rh_state.specs.Stored.{read};
ghost use Rattle.rh_rules.specs.Refusals.{refused};
ghost use Rattle.rh_trace.specs.Validity.{IsValid};
ghost use Rattle.rh_step.specs.Runs.{step};
ghost use Rattle.rh_explore.specs.declared.asking.Ask.{Ask};
ghost use Rattle.rh_explore.specs.declared.leads.Expansion.{Expansion};
ghost use Rattle.rh_explore.specs.Asking.{holds_in};
ghost use Rattle.rh_explore.specs.Exploring.{key_of};
ghost use Rattle.rh_explore.specs.Failures.{FailThere};
ghost use Rattle.rh_explore.specs.Families.{children, child_by, piece_waiting, knowing, IsFamily, IsPiece, IsAccepted, AreLeads, is_new};
ghost use Rattle.rh_explore.specs.Workers.{IsIdle};
ghost use Rattle.rh_explore.specs.Kept.{ExpandsFor, LeadsFor, LeadsToFor};

use crate::families::Family;
use crate::leads::{Expansion, Lead, Marks};
use crate::moves::Move;
use crate::reaching::{is_limit, not_up_count};
use crate::search::Search;
use crate::trial::Trial;
use indexmap::IndexSet;
use rh_base::OutOfMemory;
use rh_keys::{Key, KeyMaker};
use rh_state::State;
use rh_step::{Event, refusal_of};
use std::alloc::Global;
use std::collections::VecDeque;
use std::hash::{BuildHasherDefault, DefaultHasher};

/// The keys of states. Whoever writes a cluster's file chooses a part of each key, and the table's usual hash of a key is one number of
/// 64 bits that takes in 16 bytes at a time: eight bytes that are equal to it make it 0, and a file can keep it there, so that the keys
/// of 2^40 states have one hash and each is compared with all before it. This one takes in 8 bytes at a time to four such numbers, and
/// no way is known to find many keys that it doesn't tell apart.
pub(crate) type Keys = IndexSet<Key, BuildHasherDefault<DefaultHasher>>;

/// What is known when states are expanded.
#[derive(Clone, Copy)]
pub struct Known<'a> {
    /// The keys of the states that were found.
    pub(crate) keys: &'a Keys,
    /// The number of the first state in which each ask fails, if there is one.
    pub(crate) firsts: &'a [Option<usize>],
}

/// What is used again for each state: the memory of a key, and that of the edits of each event that is made to be taken back.
#[derive(Drop)]
pub(crate) struct Worker {
    // The event that leads to the state that is expanded.
    entered: Trial,
    // The move that is tried in it.
    tried: Trial,
    // Time that passes for an answer.
    asked: Trial,
    maker: KeyMaker,
}

impl Worker {
    /// No event is made.
    pub(crate) fn of(alloc: Global) -> Worker
        ensures idle { IsIdle result }
        ensures entered { result.entered.edits.items ≡ [] }
    {
        Worker {
            entered: Trial::of(alloc),
            tried: Trial::of(alloc),
            asked: Trial::of(alloc),
            maker: KeyMaker::new(alloc),
        }
    }

    // Expands the states of a family, and adds what comes of it.
    fn expand_family(
        &mut self,
        alloc: Global,
        search: &Search,
        known: &Known,
        family: Family,
        expansions: &mut VecDeque<Expansion>,
    ) -> Result<(), OutOfMemory>
        requires family { IsFamily family }
        requires known { length known.now.firsts.now ≡ length search.now.asks.now }
        requires idle { IsIdle self.old }
        requires entered { self.old.entered.edits.items ≡ [] }
        ensures expansions { OnOk result ((more : List Expansion)
            × (expansions.new.items ≡ expansions.old.items ++ more) × AllZip
            (ExpandsFor search.now (knowing known.now)) (children search.now.pick family) more) }
        ensures idle { OnOk result (IsIdle self.new) }
        ensures entered { OnOk result (self.new.entered.edits.items ≡ []) }
    {
        let Family { state, events } = family;
        let mut state = Box::into_inner(state);
        'events: for event in events.as_slice() {
            let expansion = self.expand(alloc, search, known, &mut state, *event)?;
            expansions.push_back(expansion)?;
        }
        Ok(())
    }

    /// Expands the state to which an event leads, or the state itself where there is none.
    pub(crate) fn expand(
        &mut self,
        alloc: Global,
        search: &Search,
        known: &Known,
        state: &mut State,
        event: Option<Event>,
    ) -> Result<Expansion, OutOfMemory>
        requires valid { IsValid (read state.old) }
        requires accepted { IsAccepted (read state.old) event }
        requires known { length known.now.firsts.now ≡ length search.now.asks.now }
        requires idle { IsIdle self.old }
        requires entered { self.old.entered.edits.items ≡ [] }
        ensures expansion { IfOk result (ExpandsFor search.now (knowing known.now)
            (child_by search.now.pick (read state.old) event)) }
        ensures state { OnOk result (state.new ≡ state.old) }
        ensures idle { OnOk result (IsIdle self.new) }
        ensures entered { OnOk result (self.new.entered.edits.items ≡ []) }
    {
        match event {
            None => self.expand_here(alloc, search, known, state),
            Some(event) => self.expand_behind(alloc, search, known, state, event),
        }
    }

    // Goes over to the state to which an event leads, expands it, and goes back.
    fn expand_behind(
        &mut self,
        alloc: Global,
        search: &Search,
        known: &Known,
        state: &mut State,
        event: Event,
    ) -> Result<Expansion, OutOfMemory>
        requires valid { IsValid (read state.old) }
        requires accepted { refused (read state.old) event ≡ None }
        requires known { length known.now.firsts.now ≡ length search.now.asks.now }
        requires idle { IsIdle self.old }
        requires entered { self.old.entered.edits.items ≡ [] }
        ensures expansion { IfOk result (ExpandsFor search.now (knowing known.now)
            (step search.now.pick (read state.old) event)) }
        ensures state { OnOk result (state.new ≡ state.old) }
        ensures idle { OnOk result (IsIdle self.new) }
        ensures entered { OnOk result (self.new.entered.edits.items ≡ []) }
    {
        self.entered.make(alloc, state, &event, search.pick)?;
        let expansion = self.expand_here(alloc, search, known, state)?;
        self.entered.take_back(state);
        Ok(expansion)
    }

    // Expands a state.
    fn expand_here(
        &mut self,
        alloc: Global,
        search: &Search,
        known: &Known,
        state: &mut State,
    ) -> Result<Expansion, OutOfMemory>
        requires valid { IsValid (read state.old) }
        requires known { length known.now.firsts.now ≡ length search.now.asks.now }
        requires idle { IsIdle self.old }
        ensures expansion { IfOk result
            (ExpandsFor search.now (knowing known.now) (read state.old)) }
        ensures state { OnOk result (state.new ≡ state.old) }
        ensures idle { OnOk result (IsIdle self.new) }
        ensures entered { OnOk result (self.new.entered ≡ self.old.entered) }
    {
        let leads = self.leads(alloc, search, known, state)?;
        if !any_is_new(leads.as_slice()) {
            return Ok(Expansion { leads, state: None });
        }
        let copy = state.copy(alloc)?;
        let kept = Box::new(alloc, copy)?;
        Ok(Expansion {
            leads,
            state: Some(kept),
        })
    }

    // Where the moves lead that are told.
    fn leads(
        &mut self,
        alloc: Global,
        search: &Search,
        known: &Known,
        state: &mut State,
    ) -> Result<Vec<Lead>, OutOfMemory>
        requires valid { IsValid (read state.old) }
        requires known { length known.now.firsts.now ≡ length search.now.asks.now }
        requires idle { IsIdle self.old }
        ensures leads { IfOk result (λ leads. AreLeads (LeadsFor search.now (knowing known.now)
            (read state.old)) search.now.moves.now leads.items) }
        ensures state { OnOk result (state.new ≡ state.old) }
        ensures idle { OnOk result (IsIdle self.new) }
        ensures entered { OnOk result (self.new.entered ≡ self.old.entered) }
    {
        let mut leads = Vec::new(alloc);
        'moves: for one in search.moves {
            let lead = self.lead(alloc, search, known, state, *one)?;
            if !lead.is_told() {
                continue;
            }
            leads.push(lead)?;
        }
        Ok(leads)
    }

    // Where a move leads.
    fn lead(
        &mut self,
        alloc: Global,
        search: &Search,
        known: &Known,
        state: &mut State,
        one: Move,
    ) -> Result<Lead, OutOfMemory>
        requires valid { IsValid (read state.old) }
        requires known { length known.now.firsts.now ≡ length search.now.asks.now }
        requires idle { IsIdle self.old }
        ensures lead { IfOk result (LeadsFor search.now (knowing known.now) (read state.old) one) }
        ensures state { OnOk result (state.new ≡ state.old) }
        ensures idle { OnOk result (IsIdle self.new) }
        ensures entered { OnOk result (self.new.entered ≡ self.old.entered) }
    {
        let Some(event) = one.event_in(state) else {
            return Ok(Lead::Nowhere);
        };
        if let Some(refusal) = refusal_of(state, &event) {
            if is_limit(refusal) {
                return Ok(Lead::AtLimit);
            }
            return Ok(Lead::Nowhere);
        }
        self.tried.make(alloc, state, &event, search.pick)?;
        let lead = self.lead_to(alloc, search, known, state, event)?;
        self.tried.take_back(state);
        Ok(lead)
    }

    // The state to which this event has led, as a lead.
    fn lead_to(
        &mut self,
        alloc: Global,
        search: &Search,
        known: &Known,
        state: &mut State,
        event: Event,
    ) -> Result<Lead, OutOfMemory>
        requires valid { IsValid (read state.old) }
        requires known { length known.now.firsts.now ≡ length search.now.asks.now }
        requires calm { self.old.asked.edits.items ≡ [] }
        ensures lead { IfOk result
            (LeadsToFor search.now (knowing known.now) (read state.old) event) }
        ensures state { OnOk result (state.new ≡ state.old) }
        ensures calm { OnOk result (self.new.asked.edits.items ≡ []) }
        ensures tried { OnOk result (self.new.tried ≡ self.old.tried) }
        ensures entered { OnOk result (self.new.entered ≡ self.old.entered) }
    {
        if not_up_count(state) > search.bounds.down {
            return Ok(Lead::Nowhere);
        }
        self.maker.make(state)?;
        if known.keys.contains(&self.maker.key) {
            return Ok(Lead::Known);
        }
        let marks = self.marks(alloc, search, known, state)?;
        Ok(Lead::To(event, marks))
    }

    // What is kept of a state, whose key was made.
    fn marks(
        &mut self,
        alloc: Global,
        search: &Search,
        known: &Known,
        state: &mut State,
    ) -> Result<Marks, OutOfMemory>
        requires valid { IsValid (read state.old) }
        requires known { length known.now.firsts.now ≡ length search.now.asks.now }
        requires calm { self.old.asked.edits.items ≡ [] }
        ensures key { IfOk result
            (λ marks. marks.key.bytes.items ≡ self.old.maker.key.bytes.items) }
        ensures fails { IfOk result (λ marks. FailThere search.now.pick known.now.firsts.now
            search.now.asks.now (read state.old) marks.fails.items) }
        ensures state { OnOk result (state.new ≡ state.old) }
        ensures calm { OnOk result (self.new.asked.edits.items ≡ []) }
        ensures tried { OnOk result (self.new.tried ≡ self.old.tried) }
        ensures entered { OnOk result (self.new.entered ≡ self.old.entered) }
    {
        let key = self.maker.key.copy(alloc)?;
        let mut fails = Vec::new(alloc);
        'asks: for number in 0..search.asks.len() {
            let failed = self.fails_first(alloc, search, known, state, number)?;
            if !failed {
                continue;
            }
            fails.push(number)?;
        }
        Ok(Marks { key, fails })
    }

    // Does the ask of this number fail in a state? One that fails in a state that was found isn't asked.
    fn fails_first(
        &mut self,
        alloc: Global,
        search: &Search,
        known: &Known,
        state: &mut State,
        number: usize,
    ) -> Result<bool, OutOfMemory>
        requires valid { IsValid (read state.old) }
        requires known { length known.now.firsts.now ≡ length search.now.asks.now }
        requires number { number < length search.now.asks.now }
        requires calm { self.old.asked.edits.items ≡ [] }
        ensures fails { IfOk result (λ fails. (ask : Ask) → slice_get search.now.asks.now number
            ≡ Some ask → MatchBool fails (holds_in search.now.pick ask (read state.old) ≡ false)
            (slice_get known.now.firsts.now number ≡ Some None
            → holds_in search.now.pick ask (read state.old) ≡ true)) }
        ensures state { OnOk result (state.new ≡ state.old) }
        ensures calm { OnOk result (self.new.asked.edits.items ≡ []) }
        ensures tried { OnOk result (self.new.tried ≡ self.old.tried) }
        ensures entered { OnOk result (self.new.entered ≡ self.old.entered) }
        ensures maker { OnOk result (self.new.maker ≡ self.old.maker) }
    {
        if known.firsts[number].is_some() {
            return Ok(false);
        }
        let holds = search.asks[number].holds_in(alloc, state, search.pick, &mut self.asked)?;
        Ok(!holds)
    }
}

// Is a lead among these to a state that wasn't known?
fn any_is_new(leads: &[Lead]) -> bool
    ensures { result ≡ list_any is_new leads.now }
{
    leads.iter().any(|lead| lead.is_new())
}

/// Expands the states of the families of a piece, in their order.
pub(crate) fn expand_piece(
    alloc: Global,
    search: &Search,
    known: &Known,
    piece: VecDeque<Family>,
) -> Result<VecDeque<Expansion>, OutOfMemory>
    requires piece { IsPiece piece }
    requires known { length known.now.firsts.now ≡ length search.now.asks.now }
    ensures { IfOk result (λ expansions. AllZip (ExpandsFor search.now (knowing known.now))
        (piece_waiting search.now.pick piece) expansions.items) }
{
    let mut worker = Worker::of(alloc);
    let mut rest = piece;
    let mut expansions = VecDeque::new(alloc);
    'families: while let Some(family) = rest.pop_front() {
        worker.expand_family(alloc, search, known, family, &mut expansions)?;
    }
    Ok(expansions)
}

/// What is kept of the base of a search.
pub(crate) fn base_marks(
    alloc: Global,
    search: &Search,
    known: &Known,
) -> Result<Marks, OutOfMemory>
    requires valid { IsValid (read search.now.base.now) }
    requires known { length known.now.firsts.now ≡ length search.now.asks.now }
    ensures key { IfOk result (λ marks. marks.key.bytes.items ≡ key_of (read search.now.base.now)) }
    ensures fails { IfOk result (λ marks. FailThere search.now.pick known.now.firsts.now
        search.now.asks.now (read search.now.base.now) marks.fails.items) }
{
    let mut worker = Worker::of(alloc);
    let mut state = search.base.copy(alloc)?;
    worker.maker.make(&mut state)?;
    worker.marks(alloc, search, known, &mut state)
}
