//! The states that were found, and the search for them.

ghost use Rattle.std.specs.Prelude.{◌≡◌, ◌<◌, ◌≤◌, ◌+◌, ◌^◌, ◌↔◌, ◌⊎◌, max, ℕ, [], ◌∷◌, ◌++◌, List, length, replicate, slice_get, All, Contains, IfOk, OnOk, IsTrue, IsFalse, IfSome, IfNone, MatchBool, Option, None, Some, true};
ghost use Rattle.std.specs.List.{AllZip, list_any};
ghost use Rattle.rh_state.specs.StateView.{StateView};
ghost use Rattle.rh_state.specs.Stored.{read};
ghost use Rattle.rh_rules.specs.declared.event.Event.{Event};
ghost use Rattle.rh_trace.specs.Validity.{IsValid};
ghost use Rattle.rh_explore.specs.declared.moves.Move.{Move};
ghost use Rattle.rh_explore.specs.Exploring.{most_bytes};
ghost use Rattle.rh_explore.specs.Failures.{told_at, all_told};
ghost use Rattle.rh_explore.specs.Families.{Knowing, knowing, AreLeads, is_new};
ghost use Rattle.rh_explore.specs.Kept.{seen_in, bytes_of, knowing_in, HasOneMore, HasTheSame, IsShort, IsKnown, LeadAt, FindsAt, IsFrontOf, IsExpandedNext, GoesOnFrom, ExpandsFor, IsCutFor, IsEndedFor, IsExpandedFor, IsKeptFor, IsUnderWayFor, LeadsFor};
ghost use Rattle.rh_explore.specs.Spaces.{Seen};

use crate::alone::find_alone;
use crate::bounds::{Bounds, Covered};
use crate::crew::Crew;
use crate::families::Front;
use crate::leads::{Expansion, Lead, Marks};
use crate::search::Search;
use crate::watch::Watch;
use crate::worker::{Keys, Known, base_marks};
use indexmap::IndexSet;
use rh_base::OutOfMemory;
use rh_step::Event;
use std::alloc::Global;
use std::collections::VecDeque;
use std::hash::BuildHasherDefault;

/// How a state was found.
#[derive(Clone, Copy, Debug, PartialEq, Eq)]
pub(crate) struct Found {
    /// The number of the state in which an event was made that led to it, and that event; none led to the base.
    pub(crate) last: Option<(usize, Event)>,
    /// How many events lead to it, one behind the other; no fewer do.
    pub(crate) depth: u32,
}

/// The states that were found, in the order in which they were.
#[derive(Drop)]
pub(crate) struct Space {
    pub(crate) found: Vec<Found>,
    /// The number of the first state in which each ask fails, if there is one.
    pub(crate) firsts: Vec<Option<usize>>,
    // Their keys, in the same order.
    keys: Keys,
    /// How many bytes these have.
    pub(crate) bytes: usize,
}

impl Space {
    /// The base alone.
    pub(crate) fn of(alloc: Global, search: &Search) -> Result<Space, OutOfMemory>
        requires { IsValid (read search.now.base.now) }
        ensures kept { IfOk result (λ space. IsKeptFor search.now space) }
        ensures found { IfOk result
            (λ space. space.found.items ≡ record { last = None; depth = 0 } ∷ []) }
    {
        let firsts = nothing_fails(alloc, search.asks.len())?;
        let mut space = Space {
            found: Vec::new(alloc),
            firsts,
            keys: IndexSet::with_hasher(alloc, BuildHasherDefault::new()),
            bytes: 0,
        };
        let marks = base_marks(alloc, search, &space.known_so_far())?;
        let found = Found {
            last: None,
            depth: 0,
        };
        // It is new, since no key was there.
        let _new = space.push(found, marks)?;
        Ok(space)
    }

    /// What was found, and of each ask the first state in which it doesn't hold. The keys and all else are freed, so that the answers can
    /// take their place.
    pub(crate) fn into_found(self) -> (Vec<Found>, Vec<Option<usize>>)
        ensures found { result.0 ≡ self.found }
        ensures firsts { result.1 ≡ self.firsts }
    {
        (self.found, self.firsts)
    }

    /// What is known.
    pub(crate) fn known_so_far(&self) -> Known<'_>
        ensures { knowing result ≡ knowing_in self.now }
    {
        Known {
            keys: &self.keys,
            firsts: self.firsts.as_slice(),
        }
    }

    /// Tells how far the search is.
    pub(crate) fn tell<W: Watch>(&self, watch: &mut W) {
        if let Some(last) = self.found.last() {
            watch.tell(self.found.len(), last.depth);
        }
    }

    // Adds a state with its key, unless that is there already. Was it new?
    fn push(&mut self, found: Found, marks: Marks) -> Result<bool, OutOfMemory>
        requires few { self.old.bytes + length marks.key.bytes.items < 2 ^ 64 }
        requires fails { All (λ j. j < length self.old.firsts.items) marks.fails.items }
        ensures new { IfOk result (λ new. MatchBool new
            (Contains (bytes_of self.old) marks.key.bytes.items → ⊥)
            (Contains (bytes_of self.old) marks.key.bytes.items)) }
        ensures added { IfOk result (λ new. MatchBool new (HasOneMore found marks self.old self.new)
            (HasTheSame self.old self.new)) }
    {
        let Marks { key, fails } = marks;
        let bytes = key.bytes.len();
        let added = self.keys.insert(key)?;
        if !added {
            return Ok(false);
        }
        let number = self.found.len();
        fail_at(&mut self.firsts, number, fails.as_slice());
        self.bytes += bytes;
        self.found.push(found)?;
        Ok(true)
    }

    // Is there no room for another state?
    fn is_full(&self, bounds: &Bounds) -> bool
        ensures full { IsTrue result ↔ ((bounds.now.states ≤ length self.now.found.items)
            ⊎ (most_bytes bounds.now ≤ self.now.bytes)) }
        ensures small { IsFalse result → self.now.bytes < 2 ^ 52 }
    {
        self.found.len() >= bounds.states || self.bytes >= bounds.most_bytes()
    }

    // Keeps what came of the states that come next, and the families in which others were found. If the search ends there, it answers how
    // far it came.
    fn take_in(
        &mut self,
        alloc: Global,
        search: &Search,
        front: &mut Front,
        expansions: VecDeque<Expansion>,
    ) -> Result<Option<Covered>, OutOfMemory>
        requires kept { IsKeptFor search.now self.old }
        requires under_way { IsUnderWayFor search.now self.old front.old.next }
        requires front { (states : List StateView)
            × AllZip (ExpandsFor search.now (knowing_in self.old)) states expansions.items
            × IsFrontOf search.now self.old front.old states }
        ensures kept { OnOk result (IsKeptFor search.now self.new) }
        ensures next { IfOk result
            (λ end. IfNone end (front.new.next ≡ front.old.next + length expansions.items)) }
        ensures under_way { IfOk result
            (λ end. IfNone end (IsUnderWayFor search.now self.new front.new.next)) }
        ensures front { IfOk result
            (λ end. IfNone end (IsFrontOf search.now self.new front.new [])) }
        ensures ended { IfOk result (λ end. IfSome end (IsEndedFor search.now self.new)) }
    {
        let mut rest = expansions;
        'expansions: while let Some(expansion) = rest.pop_front() {
            if let Some(covered) = self.take_one(alloc, search, front, expansion)? {
                return Ok(Some(covered));
            }
        }
        Ok(None)
    }

    /// Keeps what came of the state that comes next, and its family, if others were found from it. If the search ends there, it answers
    /// how far it came.
    pub(crate) fn take_one(
        &mut self,
        alloc: Global,
        search: &Search,
        front: &mut Front,
        expansion: Expansion,
    ) -> Result<Option<Covered>, OutOfMemory>
        requires kept { IsKeptFor search.now self.old }
        requires under_way { IsUnderWayFor search.now self.old front.old.next }
        requires front { IsExpandedNext search.now self.old front.old expansion }
        ensures kept { OnOk result (IsKeptFor search.now self.new) }
        ensures known { IfOk result (λ end. IfNone end (IsKnown (knowing_in self.old) self.new)) }
        ensures next { IfOk result (λ end. IfNone end (front.new.next ≡ front.old.next + 1)) }
        ensures under_way { IfOk result
            (λ end. IfNone end (IsUnderWayFor search.now self.new front.new.next)) }
        ensures front { IfOk result
            (λ end. IfNone end ((s : StateView) (states : List StateView) → IsFrontOf search.now
            self.old front.old (s ∷ states) → IsFrontOf search.now self.new front.new states)) }
        ensures ended { IfOk result (λ end. IfSome end (IsEndedFor search.now self.new)) }
    {
        let at = front.next;
        let depth = self.found[at].depth;
        if depth >= search.bounds.steps {
            return Ok(Some(Covered::UpTo(search.bounds.steps)));
        }
        let Some(events) = self.take_leads(alloc, search, at, expansion.leads)? else {
            return Ok(Some(Covered::UpTo(depth)));
        };
        front.keep(expansion.state, events)?;
        Ok(None)
    }

    // Keeps the states to which the moves lead in the state of this number, and answers the events that lead to them. There is no answer
    // if there was a state too many, or if a limit of starts or of time refused an event: a state that is alike might accept it.
    fn take_leads(
        &mut self,
        alloc: Global,
        search: &Search,
        at: usize,
        leads: Vec<Lead>,
    ) -> Result<Option<Vec<Option<Event>>>, OutOfMemory>
        requires kept { IsKeptFor search.now self.old }
        requires short { IsShort search.now.bounds self.old.found.items at }
        requires begun { IsExpandedFor search.now self.old at 0 }
        requires leads { LeadAt search.now self.old
            at (λ k s. AreLeads (LeadsFor search.now k s) search.now.moves.now leads.items) }
        ensures kept { OnOk result (IsKeptFor search.now self.new) }
        ensures grown { OnOk result (GoesOnFrom self.old.found.items self.new.found.items) }
        ensures room { OnOk result (length self.new.found.items
            ≤ max (length self.old.found.items) search.now.bounds.states) }
        ensures all { IfOk result (λ found. IfSome found (λ events.
            IsExpandedFor search.now self.new at (length search.now.moves.now))) }
        ensures cut { IfOk result (λ found. IfNone found ((made : ℕ)
            × IsExpandedFor search.now self.new at made × IsCutFor search.now self.new at)) }
        ensures finds { IfOk result (λ found.
            IfSome found (λ events. FindsAt search.now at self.old self.new events.items)) }
        ensures new { IfOk result (λ found.
            IfSome found (λ events. 0 < length events.items → list_any is_new leads.items ≡ true)) }
    {
        let mut rest = VecDeque::from(leads);
        let mut events = Vec::new(alloc);
        'leads: while let Some(lead) = rest.pop_front() {
            if !self.take_lead(search, at, lead, &mut events)? {
                return Ok(None);
            }
        }
        Ok(Some(events))
    }

    // Keeps the state to which a move leads in the state of this number, and its event, unless it is there already. It is false where
    // there is no answer.
    fn take_lead(
        &mut self,
        search: &Search,
        at: usize,
        lead: Lead,
        events: &mut Vec<Option<Event>>,
    ) -> Result<bool, OutOfMemory>
        requires kept { IsKeptFor search.now self.old }
        requires short { IsShort search.now.bounds self.old.found.items at }
        requires leads { LeadAt search.now self.old
            at (λ k s. (made : ℕ) × (m : Move) × (slice_get search.now.moves.now made ≡ Some m)
            × IsExpandedFor search.now self.old at made × LeadsFor search.now k s m lead) }
        ensures kept { OnOk result (IsKeptFor search.now self.new) }
        ensures grown { OnOk result (GoesOnFrom self.old.found.items self.new.found.items) }
        ensures room { OnOk result (length self.new.found.items
            ≤ max (length self.old.found.items) search.now.bounds.states) }
        ensures made { IfOk result (λ went. (k : Knowing) (x : Seen) (made : ℕ) (m : Move)
            → slice_get (seen_in search.now self.old) at ≡ Some x → IsKnown k self.old
            → slice_get search.now.moves.now made ≡ Some m
            → IsExpandedFor search.now self.old at made → LeadsFor search.now k x.state m lead
            → MatchBool went (IsExpandedFor search.now self.new at (made + 1))
            (IsExpandedFor search.now self.new at made × IsCutFor search.now self.new at)) }
        ensures finds { OnOk result ((more : List (Option Event))
            × (events.new.items ≡ events.old.items ++ more) × FindsAt search.now at self.old
            self.new more × (0 < length more → is_new lead ≡ true)) }
    {
        match lead {
            Lead::Nowhere | Lead::Known => Ok(true),
            Lead::AtLimit => Ok(false),
            Lead::To(event, marks) => {
                if self.is_full(&search.bounds) {
                    let known = self.keys.contains(&marks.key);
                    return Ok(known);
                }
                // Fewer events than these lead to the state that is expanded, so that one more can be counted.
                let _most = search.bounds.steps;
                let found = Found {
                    last: Some((at, event)),
                    depth: self.found[at].depth + 1,
                };
                let new = self.push(found, marks)?;
                if !new {
                    return Ok(true);
                }
                events.push(Some(event))?;
                Ok(true)
            }
        }
    }
}

// In the state of this number these asks fail; it is the first one for those that failed in none before.
fn fail_at(firsts: &mut Vec<Option<usize>>, number: usize, fails: &[usize])
    requires { All (λ j. j < length firsts.old.items) fails.now }
    ensures { firsts.new.items ≡ all_told number firsts.old.items fails.now }
{
    'fails: for ask in fails {
        tell_at(firsts, number, *ask);
    }
}

// In the state of this number this ask fails.
fn tell_at(firsts: &mut Vec<Option<usize>>, number: usize, ask: usize)
    requires { ask < length firsts.old.items }
    ensures { firsts.new.items ≡ told_at number firsts.old.items ask }
{
    if firsts[ask].is_some() {
        return;
    }
    firsts[ask] = Some(number);
}

// About how many moves a worker makes before what came of them is kept. What they lead to is in memory as long, and a state that was found
// among them isn't known yet; but work that is shared out more often takes more time.
const MOVES_AT_ONCE: usize = 4_096;

// How many states are expanded in a piece, where each has so many moves.
fn states_at_once(moves: usize) -> usize
    ensures { 0 < result }
{
    (MOVES_AT_ONCE / moves.max(1)).max(1)
}

// No ask failed yet.
fn nothing_fails(alloc: Global, count: usize) -> Result<Vec<Option<usize>>, OutOfMemory>
    ensures { IfOk result (λ firsts. firsts.items ≡ replicate count None) }
{
    let mut firsts = Vec::with_capacity(alloc, count)?;
    'asks: for _number in 0..count {
        firsts.push(None)?;
    }
    Ok(firsts)
}

/// All states that a search finds, by this crew, and which lists of events were looked at.
pub(crate) fn search_by<C: Crew, W: Watch>(
    crew: &C,
    watch: &mut W,
    alloc: Global,
    search: &Search,
) -> Result<(Space, Covered), OutOfMemory>
    requires ready { C.ready crew.now }
    requires valid { IsValid (read search.now.base.now) }
    ensures kept { IfOk result (λ found. IsKeptFor search.now found.0) }
    ensures ended { IfOk result (λ found. IsEndedFor search.now found.0 found.1) }
{
    let found = if crew.count() > 1 {
        find_together(crew, watch, alloc, search)
    } else {
        find_alone(watch, alloc, search)
    };
    watch.end();
    found
}

// The same by several, who expand many states before what came of them is kept.
fn find_together<C: Crew, W: Watch>(
    crew: &C,
    watch: &mut W,
    alloc: Global,
    search: &Search,
) -> Result<(Space, Covered), OutOfMemory>
    requires ready { C.ready crew.now }
    requires valid { IsValid (read search.now.base.now) }
    ensures kept { IfOk result (λ found. IsKeptFor search.now found.0) }
    ensures ended { IfOk result (λ found. IsEndedFor search.now found.0 found.1) }
{
    let mut space = Space::of(alloc, search)?;
    let mut front = Front::of(alloc, search.base.copy(alloc)?)?;
    let most = states_at_once(search.moves.len());
    'turns: while !front.families.is_empty() {
        space.tell(watch);
        let pieces = front.take_up(alloc, crew.count(), most)?;
        let expansions = crew.expand(alloc, search, &space.known_so_far(), pieces)?;
        if let Some(covered) = space.take_in(alloc, search, &mut front, expansions)? {
            return Ok((space, covered));
        }
    }
    Ok((space, Covered::All))
}
