//! A simulation: the trail of the accepted events, with what each changed, and a cursor in it.

ghost use Rattle.std.specs.Prelude.{◌≡◌, ◌≤◌, ◌<◌, [], length, slice_get, Some, IfOk};
ghost use Rattle.rh_state.specs.Stored.{read};

mod firings;
mod moves;
mod told;

use crate::Records;
use rh_base::OutOfMemory;
use rh_calls::Bytes;
use rh_model::Cluster;
use rh_state::{Edit, State, first_state_sharing};
use rh_step::{Event, Pick};
use std::alloc::Global;
use std::marker::Model;
use std::sync::Arc;

/// There is no step to take back.
#[derive(Clone, Copy, Debug, PartialEq, Eq)]
pub struct AtStart;

/// There is no step to make again.
#[derive(Clone, Copy, Debug, PartialEq, Eq)]
pub struct AtEnd;

/// A simulation of a cluster, with undo and redo.
#[derive(Drop)]
pub struct Sim {
    pick: Pick,
    // The state behind the events that stand.
    state: State,
    trail: Vec<Event>,
    // What each event of the trail changed.
    records: Records,
    cursor: usize,
    // The edits of a step that is being made: empty between calls.
    spare: Vec<Edit>,
    // The report of the state, where it was asked for and the state hasn't changed since.
    shown: Option<Bytes>,
}

impl Model for Sim {
    ghost use Rattle.std.specs.Prelude.{◌≡◌, [], IfSome};
    ghost use Rattle.rh_state.specs.Stored.{read};
    ghost use Rattle.rh_trail.specs.SimView.{Held};
    ghost use Rattle.rh_trail.specs.Chain.{IsChain};
    ghost use Rattle.rh_calls.specs.Report.{report_text};

    ghost Value = { Held };

    ghost view = { λ s. record {
      seen = record {
        cluster = s.state.cluster;
        pick = s.pick;
        trail = s.trail.items;
        cursor = s.cursor;
      };
      words = s.state;
      records = s.records;
    } };

    ghost invariant = { λ s. record {
      chain : IsChain
          (record {
            seen = record {
              cluster = s.state.cluster;
              pick = s.pick;
              trail = s.trail.items;
              cursor = s.cursor;
            };
            words = s.state;
            records = s.records;
          });
      spare : s.spare.items ≡ [];
      shown : IfSome s.shown (λ text. text ≡ report_text (read s.state));
    } };
}

impl Sim {
    ghost use Rattle.rh_state.specs.First.{first_words};
    ghost use Rattle.rh_trail.specs.Chain.{IsChain};
    ghost use Rattle.rh_trail.specs.SimView.{state_of};
    ghost use Rattle.rh_trail.specs.Lone.{opened, trail_limit};
    ghost use Rattle.rh_trail.specs.Laws.{IsReversible};
    ghost use Rattle.rh_trace.specs.Validity.{IsValid};

    /// The greatest number of events in a trail.
    pub const TRAIL_LIMIT: usize = 65_535;

    /// A simulation in the first state, with an empty trail. The cluster is dropped if memory is wanting.
    pub fn open(alloc: Global, cluster: Cluster, pick: Pick) -> Result<Sim, OutOfMemory>
        ensures seen { IfOk result (λ sim. sim.seen ≡ opened cluster pick) }
        ensures words { IfOk result (λ sim. sim.words ≡ first_words cluster) }
        ensures records { IfOk result (λ sim. sim.records ≡ []) }
    {
        cluster.is_within();
        let cluster = Arc::new(alloc, cluster)?;
        let state = first_state_sharing(alloc, &cluster)?;
        Ok(Sim {
            pick,
            state,
            trail: Vec::new(alloc),
            records: Records::new(alloc),
            cursor: 0,
            spare: Vec::new(alloc),
            shown: None,
        })
    }

    /// An equal simulation, with an equal trail, equal words and equal records. The two share the cluster.
    pub fn copy(&self, alloc: Global) -> Result<Sim, OutOfMemory>
        ensures { IfOk result (λ copy. copy ≡ self.now) }
    {
        let state = self.state.copy(alloc)?;
        let records = self.records.copy(alloc)?;
        let trail = Vec::from_slice(alloc, self.trail.as_slice())?;
        Ok(Sim {
            pick: self.pick,
            state,
            trail,
            records,
            cursor: self.cursor,
            spare: Vec::new(alloc),
            shown: None,
        })
    }

    /// A law: undo and redo lead, edit by edit, over states that are well formed, to the state behind each number of events of
    /// the trail, and back to the words that [`Sim::open`] made.
    pub fn is_chained(&self)
        ensures { IsChain self.now }
    {
        let _ = &self.state;
    }

    /// A law: in each simulation an accepted step is one that the rules allow; undoing it restores the whole earlier state,
    /// and redoing it the later; a refused call changes nothing; undoing all gives the first state, redoing all the last.
    pub fn is_reversible(&self)
        ensures { IsReversible self.now.seen }
    {
        let _ = &self.state;
    }

    /// The cluster.
    pub fn cluster(&self) -> &Cluster
        ensures { result.now ≡ self.now.seen.cluster }
    {
        self.state.cluster()
    }

    /// Which of several nodes of equal rank is taken.
    pub fn pick(&self) -> Pick
        ensures { result ≡ self.now.seen.pick }
    {
        self.pick
    }

    /// The state after the events up to the cursor.
    pub fn state(&self) -> &State
        ensures words { result.now ≡ self.now.words }
        ensures state { read result.now ≡ state_of self.now.seen }
        ensures valid { IsValid (read result.now) }
    {
        &self.state
    }

    /// How many events of the trail stand.
    pub fn cursor(&self) -> usize
        ensures cursor { result ≡ self.now.seen.cursor }
        ensures within { result ≤ length self.now.seen.trail }
    {
        self.cursor
    }

    /// The events that stand, and behind them those that can be made again.
    pub fn trail(&self) -> &[Event]
        ensures trail { result.now ≡ self.now.seen.trail }
        ensures limit { length result.now ≤ trail_limit }
    {
        self.trail.as_slice()
    }

    /// What an event of the trail changed, in order: done edits for one that stands, and undone ones for one that can be made
    /// again.
    pub fn record(&self, index: usize) -> &[Edit]
        requires { index < length self.now.seen.trail }
        ensures { slice_get self.now.records index ≡ Some result.now }
    {
        self.records.at(index)
    }
}
