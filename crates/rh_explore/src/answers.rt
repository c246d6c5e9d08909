//! What a search answers.

ghost use Rattle.std.specs.Prelude.{◌≡◌, ◌<◌, ℕ, length, slice_get, Some, IfOk};
ghost use Rattle.std.specs.List.{AllZip};
ghost use Rattle.rh_state.specs.Stored.{read};
ghost use Rattle.rh_trace.specs.Validity.{IsValid};
ghost use Rattle.rh_explore.specs.Exploring.{scope_of, IsAnswer};
ghost use Rattle.rh_explore.specs.Kept.{AreLinked};
ghost use Rattle.rh_explore.specs.Tellings.{IsTold};

use crate::bounds::Covered;
use crate::crew::Crew;
use crate::paths::path_to;
use crate::search::Search;
use crate::space::{Found, search_by};
use crate::watch::Watch;
use rh_base::OutOfMemory;
use rh_step::Event;
use std::alloc::Global;

/// What was found of an [`Ask`].
#[derive(Drop)]
pub enum Verdict {
    /// What is asked holds in each state to which a covered list of events leads.
    Holds,
    /// These events lead to a state in which it doesn't, and no shorter list does.
    Fails(Vec<Event>),
}

/// What a search found.
#[derive(Drop)]
pub struct Explored {
    /// How many states were reached, the base among them. Those that are alike count once: they are equal but for the clock, the
    /// starts of nodes and the start kinds, with timers counted from now, and go on alike.
    pub states: usize,
    /// How many bytes the keys have by which they are told apart (`rh_keys`).
    pub bytes: usize,
    /// How many events lead to the last of them; to each other one no more do.
    pub deepest: usize,
    /// The lists of events of which all were looked at.
    pub covered: Covered,
    /// A verdict on each ask, in their order.
    pub verdicts: Vec<Verdict>,
}

/// What holds in all states that the moves of a search reach from its base, each as often as one likes and in every order in which the
/// rules accept them.
///
/// The states are found in the order of the lists of events that lead to them, shorter ones first, and those that are as long in the
/// order of the moves; so a verdict that what is asked fails has the first list of all that lead to a state in which it does. The search
/// ends when nothing is left, behind so many events as may follow one another, or at the first state for which there is no room; or
/// where a limit of starts or of time refuses an event, since it may be accepted in a state that is alike.
///
/// The work is done by a crew, and somebody may watch. What is answered depends on neither.
pub fn explore<C: Crew, W: Watch>(
    crew: &C,
    watch: &mut W,
    alloc: Global,
    search: &Search,
) -> Result<Explored, OutOfMemory>
    requires ready { C.ready crew.now }
    requires valid { IsValid (read search.now.base.now) }
    ensures { IfOk result (IsAnswer (scope_of search.now) search.now.bounds search.now.asks.now) }
{
    let (space, covered) = search_by(crew, watch, alloc, search)?;
    let bytes = space.bytes;
    let (all, firsts) = space.into_found();
    let found = all.as_slice();
    let verdicts = verdicts_on(alloc, found, firsts.as_slice())?;
    let states = found.len();
    let deepest = found[states - 1].depth as usize;
    Ok(Explored {
        states,
        bytes,
        deepest,
        covered,
        verdicts,
    })
}

// A verdict for each ask, by the number of the first state in which it doesn't hold, if there is one.
fn verdicts_on(
    alloc: Global,
    found: &[Found],
    firsts: &[Option<usize>],
) -> Result<Vec<Verdict>, OutOfMemory>
    requires linked { AreLinked found.now }
    requires within { (j i : ℕ) → slice_get firsts.now j ≡ Some (Some i) → i < length found.now }
    ensures { IfOk result (λ verdicts. AllZip (IsTold found.now) firsts.now verdicts.items) }
{
    let mut verdicts = Vec::with_capacity(alloc, firsts.len())?;
    'firsts: for first in firsts {
        let verdict = verdict_on(alloc, found, *first)?;
        verdicts.push(verdict)?;
    }
    Ok(verdicts)
}

// The verdict on an ask, which doesn't hold in the state of this number first.
fn verdict_on(alloc: Global, found: &[Found], first: Option<usize>) -> Result<Verdict, OutOfMemory>
    requires linked { AreLinked found.now }
    requires within { (i : ℕ) → first ≡ Some i → i < length found.now }
    ensures { IfOk result (IsTold found.now first) }
{
    match first {
        None => Ok(Verdict::Holds),
        Some(number) => Ok(Verdict::Fails(path_to(alloc, found, number)?)),
    }
}
