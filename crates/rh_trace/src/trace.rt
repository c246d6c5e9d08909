//! What is told, marked and freed on the way through an event.

ghost use Rattle.std.specs.Prelude.{◌≡◌, ◌++◌, ◌∷◌, [], OnOk, OnErr};
ghost use Rattle.rh_trace.specs.Traces.{trace_of};

use rh_base::OutOfMemory;
use rh_rules::{Notice, Pair};
use rh_state::Edit;
use std::alloc::Global;
use std::marker::Model;

/// What was told on the way through an event, which pairs it marked, which it freed, and what it changed in the state, each
/// in order.
#[derive(Drop)]
pub struct Trace {
    notices: Vec<Notice>,
    marked: Vec<Pair>,
    freed: Vec<Pair>,
    pub(crate) edits: Vec<Edit>,
}

impl Model for Trace {
    ghost use Rattle.rh_trace.specs.Traces.{TraceView};

    ghost Value = { TraceView };

    ghost view = { λ t. record {
      notices = t.notices.items;
      marked = t.marked.items;
      freed = t.freed.items;
      edits = t.edits.items;
    } };
}

impl Trace {
    /// A trace that told these notices and has these edits, and has marked and freed nothing yet.
    pub fn of(notices: Vec<Notice>, edits: Vec<Edit>, alloc: Global) -> Trace
        ensures { result ≡ trace_of notices.items [] [] edits.items }
    {
        Trace {
            notices,
            marked: Vec::new(alloc),
            freed: Vec::new(alloc),
            edits,
        }
    }

    /// The notices and the edits.
    pub fn into_parts(self) -> (Vec<Notice>, Vec<Edit>)
        ensures notices { result.0.items ≡ self.notices }
        ensures edits { result.1.items ≡ self.edits }
    {
        (self.notices, self.edits)
    }

    /// The notices, in the order in which they were told.
    pub fn notices(&self) -> &[Notice]
        ensures { result.now ≡ self.now.notices }
    {
        self.notices.as_slice()
    }

    /// The marked pairs, in the order in which they were marked.
    pub fn marked(&self) -> &[Pair]
        ensures { result.now ≡ self.now.marked }
    {
        self.marked.as_slice()
    }

    /// The freed pairs, in the order in which they were freed.
    pub fn freed(&self) -> &[Pair]
        ensures { result.now ≡ self.now.freed }
    {
        self.freed.as_slice()
    }

    /// Tells a notice. Where memory is refused nothing is told.
    pub fn tell(&mut self, notice: Notice) -> Result<(), OutOfMemory>
        ensures told { OnOk result (self.new ≡ trace_of (self.old.notices ++ notice ∷ [])
            self.old.marked self.old.freed self.old.edits) }
        ensures err { OnErr result (self.new ≡ self.old) }
    {
        self.notices.push(notice)?;
        Ok(())
    }

    /// Marks a pair. Where memory is refused nothing is marked.
    pub fn mark(&mut self, pair: Pair) -> Result<(), OutOfMemory>
        ensures marked { OnOk result (self.new ≡ trace_of self.old.notices
            (self.old.marked ++ pair ∷ []) self.old.freed self.old.edits) }
        ensures err { OnErr result (self.new ≡ self.old) }
    {
        self.marked.push(pair)?;
        Ok(())
    }

    /// Makes room for a node that comes up and boots so many applications: for the mark of each, for a notice of each, and for
    /// one of the node. Where memory is refused nothing changes.
    pub fn expect_boot(&mut self, apps: usize) -> Result<(), OutOfMemory>
        ensures { self.new ≡ self.old }
    {
        self.marked.reserve(apps)?;
        self.notices.reserve(apps.saturating_add(1))?;
        Ok(())
    }

    /// Frees a pair: it is fresh, and isn't marked. Where memory is refused nothing is freed.
    pub fn free(&mut self, pair: Pair) -> Result<(), OutOfMemory>
        ensures freed { OnOk result (self.new ≡ trace_of self.old.notices self.old.marked
            (self.old.freed ++ pair ∷ []) self.old.edits) }
        ensures err { OnErr result (self.new ≡ self.old) }
    {
        self.freed.push(pair)?;
        Ok(())
    }

    /// From now on no pair is marked, and none is freed.
    pub fn forget_marks(&mut self)
        ensures { self.new ≡ trace_of self.old.notices [] [] self.old.edits }
    {
        self.marked.clear();
        self.freed.clear();
    }
}
