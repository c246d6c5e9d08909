//! The calls that move a simulation: steps, undo and redo.

ghost use Rattle.std.specs.Prelude.{◌≡◌, ◌≢◌, ◌<◌, ◌≤◌, ◌+◌, ◌-◌, ◌++◌, ◌∷◌, [], ℕ, List, length, take, drop, slice_set, true, false, Err, IfOk, IfErr, IfSome, OnOk, OnErr, None};
ghost use Rattle.rh_base.specs.Exchanges.{back, backed, forth, forthed, AllBack};
ghost use Rattle.rh_rules.specs.declared.notice.Notice.{Notice};
ghost use Rattle.rh_state.specs.Edits.{exchange, turned};
ghost use Rattle.rh_state.specs.Records.{CanGoBack, LedBy};
ghost use Rattle.rh_state.specs.Stored.{read};
ghost use Rattle.rh_rules.specs.Refusals.{refused};
ghost use Rattle.rh_step.specs.Counts.{most_edits};
ghost use Rattle.rh_rules.specs.Steps.{next};
ghost use Rattle.rh_trace.specs.Validity.{IsValid};
ghost use Rattle.rh_trail.specs.Chain.{IsSmall, chain, kept_to};
ghost use Rattle.rh_trail.specs.Laws.{is_refusal};
ghost use Rattle.rh_trail.specs.SimView.{state_of, record_at};
ghost use Rattle.rh_trail.specs.Lone.{served, answered, undo_reply, redo_reply, trail_limit, cut, TakesMemory};
ghost use Rattle.rh_calls.specs.Report.{report_text};
ghost use Rattle.rh_trail.specs.Words.{LeavesWords, LeavesRecords};
ghost use Rattle.rh_calls.specs.declared.call.Call.TheVariants as call;
ghost use Rattle.rh_calls.specs.declared.call.Reply.TheVariants as reply;

use crate::Records;
use crate::sim::told::Told;
use crate::sim::{AtEnd, AtStart, Sim};
use rh_base::OutOfMemory;
use rh_calls::{Bytes, Call, Replies, Reply, report};
use rh_state::{Edit, State, rewind};
use rh_step::{Event, Notice, Pick, Refusal, perform, refusal_of};
use std::alloc::Global;

impl Sim {
    /// Makes an event, and gives its notices in order. An accepted event drops what could be made again;
    /// a refused one changes nothing.
    pub fn step(&mut self, alloc: Global, event: Event) -> Result<Vec<Notice>, Refusal>
        ensures done { IfOk result (λ notices. served self.old.seen (call.Step event)
            ≡ answered (reply.Done notices.items) self.new.seen) }
        ensures refused { IfErr result (λ refusal. refusal ≢ Refusal.OutOfMemory → served
            self.old.seen (call.Step event) ≡ answered (reply.Refused refusal) self.new.seen) }
        ensures kept { OnErr result (self.new ≡ self.old) }

        // Want of memory is the last reason.
        ensures last { result ≡ Err Refusal.OutOfMemory →
            (refused (state_of self.old.seen) event ≡ None) × (self.old.seen.cursor < trail_limit) }

        // What stood before stands, and its records are as they were.
        ensures chain { OnOk result
            ((k : ℕ) → k ≤ self.old.seen.cursor → chain self.new k ≡ chain self.old k) }
        ensures records { OnOk result (take self.old.seen.cursor self.new.records
            ≡ take self.old.seen.cursor self.old.records) }
    {
        if let Err(refusal) = self.accept(&event) {
            return Err(refusal);
        }
        match self.make(alloc, event) {
            Err(OutOfMemory) => Err(Refusal::OutOfMemory),
            Ok(notices) => Ok(notices),
        }
    }

    // Whether an event is accepted, or why it is refused.
    fn accept(&self, event: &Event) -> Result<(), Refusal>
        ensures room { OnOk result (self.now.seen.cursor < trail_limit) }
        ensures fine { OnOk result (refused (state_of self.now.seen) event.now ≡ None) }
        ensures refused { IfErr result (λ refusal. served self.now.seen (call.Step event.now)
            ≡ answered (reply.Refused refusal) self.now.seen) }
        ensures reason { IfErr result (λ refusal. refusal ≢ Refusal.OutOfMemory) }
    {
        if let Some(refusal) = refusal_of(self.state(), event) {
            return Err(refusal);
        }
        if self.cursor == Self::TRAIL_LIMIT {
            return Err(Refusal::TrailFull);
        }
        Ok(())
    }

    // Makes an event that is accepted, and keeps it.
    fn make<T: Told>(&mut self, alloc: Global, event: Event) -> Result<T, OutOfMemory>
        requires room { self.old.seen.cursor < trail_limit }
        requires fine { refused (state_of self.old.seen) event ≡ None }
        ensures done { IfOk result (λ told. (notices : List Notice) × T.tells told notices
            × (served self.old.seen (call.Step event)
            ≡ answered (reply.Done notices) self.new.seen)) }
        ensures chain { OnOk result ((k : ℕ) → k ≤ self.old.seen.cursor
            → chain self.new k ≡ chain self.old k) }
        ensures records { OnOk result (take self.old.seen.cursor self.new.records
            ≡ take self.old.seen.cursor self.old.records) }
        ensures err { OnErr result (self.new ≡ self.old) }
    {
        let told = perform_told(alloc, &mut self.state, &event, self.pick, &mut self.spare)?;
        keep(
            event,
            self.cursor,
            &mut self.state,
            &mut self.spare,
            &mut self.trail,
            &mut self.records,
        )?;
        self.cursor += 1;
        self.shown = None;
        Ok(told)
    }

    /// Takes the last step back, and says how many edits it has.
    pub fn undo(&mut self) -> Result<usize, AtStart>
        ensures answer { served self.old.seen call.Undo
            ≡ answered (undo_reply result) self.new.seen }
        ensures kept { OnErr result (self.new ≡ self.old) }
        ensures chain { (k : ℕ) → k ≤ length self.old.seen.trail
            → chain self.new k ≡ chain self.old k }
        ensures words { OnOk result (self.new.words ≡ chain self.old (self.old.seen.cursor - 1)) }
        ensures records { OnOk result
            (self.new.records ≡ slice_set self.old.records (self.old.seen.cursor - 1) (backed
            exchange turned self.old.words (record_at self.old (self.old.seen.cursor - 1)))) }
        ensures edits { IfOk result
            (λ count. count ≡ length (record_at self.old (self.old.seen.cursor - 1))) }
        ensures few { IfOk result (IsSmall self.old.seen (self.old.seen.cursor - 1)) }
    {
        if self.cursor == 0 {
            return Err(AtStart);
        }
        let count = self.records.go_back(self.cursor - 1, &mut self.state);
        self.cursor -= 1;
        self.shown = None;
        Ok(count)
    }

    /// Makes the next step again, and says how many edits it has.
    pub fn redo(&mut self) -> Result<usize, AtEnd>
        ensures answer { served self.old.seen call.Redo
            ≡ answered (redo_reply result) self.new.seen }
        ensures kept { OnErr result (self.new ≡ self.old) }
        ensures chain { (k : ℕ) → k ≤ length self.old.seen.trail
            → chain self.new k ≡ chain self.old k }
        ensures words { OnOk result (self.new.words ≡ chain self.old (self.old.seen.cursor + 1)) }
        ensures records { OnOk result
            (self.new.records ≡ slice_set self.old.records self.old.seen.cursor
            (forthed exchange turned self.old.words (record_at self.old self.old.seen.cursor))) }
        ensures edits { IfOk result
            (λ count. count ≡ length (record_at self.old self.old.seen.cursor)) }
        ensures few { IfOk result (IsSmall self.old.seen self.old.seen.cursor) }
    {
        if self.cursor == self.trail.len() {
            return Err(AtEnd);
        }
        let count = self.records.go_forth(self.cursor, &mut self.state);
        self.cursor += 1;
        self.shown = None;
        Ok(count)
    }

    /// Takes all steps back, and says how many.
    pub fn undo_all(&mut self) -> u32
        ensures answer { served self.old.seen call.UndoAll
            ≡ answered (reply.Moved result) self.new.seen }
        ensures chain { (k : ℕ) → k ≤ length self.old.seen.trail
            → chain self.new k ≡ chain self.old k }
        ensures words { self.new.words ≡ chain self.old 0 }
        ensures records { self.new.records ≡ backed (back exchange)
            (backed exchange turned) self.old.words (take self.old.seen.cursor self.old.records)
            ++ drop self.old.seen.cursor self.old.records }
    {
        self.is_chained();
        let count = self.cursor();
        'steps: while self.cursor() > 0 {
            let _ = self.undo();
        }
        count as u32
    }

    /// Makes all steps again, and says how many.
    pub fn redo_all(&mut self) -> u32
        ensures answer { served self.old.seen call.RedoAll
            ≡ answered (reply.Moved result) self.new.seen }
        ensures chain { (k : ℕ) → k ≤ length self.old.seen.trail
            → chain self.new k ≡ chain self.old k }
        ensures words { self.new.words ≡ chain self.old (length self.old.seen.trail) }
        ensures records { self.new.records
            ≡ take self.old.seen.cursor self.old.records ++ forthed (forth exchange)
            (forthed exchange turned) self.old.words (drop self.old.seen.cursor self.old.records) }
    {
        self.is_chained();
        let end = self.trail().len();
        let count = end - self.cursor();
        'steps: while self.cursor() < end {
            let _ = self.redo();
        }
        count as u32
    }

    /// Drops what could be made again. What stands stays, and so does the state.
    pub fn cut_redo(&mut self)
        ensures cut { self.new.seen ≡ cut self.old.seen }
        ensures state { state_of self.new.seen ≡ state_of self.old.seen }
        ensures words { self.new.words ≡ self.old.words }
        ensures records { self.new.records ≡ take self.old.seen.cursor self.old.records }
        ensures chain { (k : ℕ) → k ≤ self.old.seen.cursor → chain self.new k ≡ chain self.old k }
    {
        let standing = self.cursor;
        self.trail.truncate(standing);
        self.records.truncate(standing);
    }

    /// Serves a call of any kind, and gives the reply. Want of memory changes nothing.
    pub fn answer(&mut self, alloc: Global, call: Call) -> Result<Replies, OutOfMemory>
        ensures ok { IfOk result
            (λ reply. served self.old.seen call ≡ answered reply self.new.seen) }
        ensures chain { (k : ℕ) → k ≤ kept_to self.old.seen call
            → chain self.new k ≡ chain self.old k }
        ensures words { IfOk result (λ reply. is_refusal reply ≡ false
            → LeavesWords self.old call self.new) }
        ensures records { IfOk result (λ reply. is_refusal reply ≡ false
            → LeavesRecords self.old call self.new) }
        ensures refused { IfOk result (λ reply. is_refusal reply ≡ true → self.new ≡ self.old) }
        ensures err { OnErr result (self.new ≡ self.old) }

        // No call that takes none wants memory, and no step that is refused.
        ensures last { OnErr result (TakesMemory self.old.seen call) }
    {
        self.is_chained();
        match call {
            Call::Step(event) => match self.accept(&event) {
                Ok(()) => self.make(alloc, event),
                Err(refusal) => Replies::of(Reply::Refused(refusal)),
            },
            Call::Undo => match self.undo() {
                Ok(_) => Replies::of(Reply::Undone),
                Err(_) => Replies::of(Reply::AtStart),
            },
            Call::Redo => match self.redo() {
                Ok(_) => Replies::of(Reply::Redone),
                Err(_) => Replies::of(Reply::AtEnd),
            },
            Call::UndoAll => Replies::of(Reply::Moved(self.undo_all())),
            Call::RedoAll => Replies::of(Reply::Moved(self.redo_all())),
            Call::Look => {
                self.remember(alloc)?;
                Replies::of(self.look(alloc)?)
            }
        }
    }

    /// Looks at the simulation, which changes nothing: the reply has the cursor, the length of the trail, and the report of
    /// the state.
    pub fn look(&self, alloc: Global) -> Result<Reply, OutOfMemory>
        ensures { IfOk result
            (λ reply. served self.now.seen call.Look ≡ answered reply self.now.seen) }
    {
        let text = match self.kept_report() {
            Some(text) => text.share()?,
            None => Bytes::of(alloc, report(alloc, self.state())?)?,
        };
        Ok(Reply::Seen {
            cursor: self.cursor(),
            trail: self.trail().len(),
            text,
        })
    }

    // The report of the state, where it is kept.
    fn kept_report(&self) -> Option<&Bytes>
        ensures { IfSome result (λ text. text.now ≡ report_text (state_of self.now.seen)) }
    {
        match &self.shown {
            Some(text) => Some(text),
            None => None,
        }
    }

    // Keeps the report of the state until this changes.
    fn remember(&mut self, alloc: Global) -> Result<(), OutOfMemory>
        ensures { self.new ≡ self.old }
    {
        if self.shown.is_none() {
            let text = report(alloc, &self.state)?;
            self.shown = Some(Bytes::of(alloc, text)?);
        }
        Ok(())
    }
}

// Makes an event, and tells its notices. Where memory is refused, nothing changes.
fn perform_told<T: Told>(
    alloc: Global,
    state: &mut State,
    event: &Event,
    pick: Pick,
    edits: &mut Vec<Edit>,
) -> Result<T, OutOfMemory>
    requires accepted { refused (read state.old) event.now ≡ None }
    requires valid { IsValid (read state.old) }
    requires none { edits.old.items ≡ [] }
    ensures state { OnOk result (read state.new ≡ (next (read state.old) event.now pick).state) }
    ensures told { IfOk result (λ told.
        T.tells told (next (read state.old) event.now pick).notices) }
    ensures valid { OnOk result (IsValid (read state.new)) }
    ensures led { OnOk result (LedBy state.old edits.new.items state.new) }
    ensures few { OnOk result (length edits.new.items
        ≤ most_edits (read state.old) event.now (next (read state.old) event.now pick)) }
    ensures kept { OnErr result (state.new ≡ state.old) }
    ensures empty { OnErr result (edits.new.items ≡ []) }
{
    let mut notices = Vec::new(alloc);
    perform(alloc, state, event, pick, edits, &mut notices)?;
    match T::telling(alloc, notices) {
        Ok(told) => Ok(told),
        Err(OutOfMemory) => {
            rewind(edits, 0, state);
            Err(OutOfMemory)
        }
    }
}

// Keeps an event that was made, with its edits, in place of what could be made again. Where memory is refused, the edits are
// taken back, and nothing else changes.
fn keep(
    event: Event,
    cursor: usize,
    state: &mut State,
    edits: &mut Vec<Edit>,
    trail: &mut Vec<Event>,
    records: &mut Records,
) -> Result<(), OutOfMemory>
    requires within { cursor ≤ length records.old }
    requires all { AllBack exchange CanGoBack state.old edits.old.items }
    ensures state { OnOk result (state.new ≡ state.old) }
    ensures trail { OnOk result (trail.new.items ≡ take cursor trail.old.items ++ event ∷ []) }
    ensures records { OnOk result (records.new ≡ take cursor records.old ++ edits.old.items ∷ []) }
    ensures edits { edits.new.items ≡ [] }
    ensures back { OnErr result (state.new ≡ back exchange state.old edits.old.items) }
    ensures kept_trail { OnErr result (trail.new.items ≡ trail.old.items) }
    ensures kept_records { OnErr result (records.new ≡ records.old) }
{
    if trail.reserve(1).is_err() || records.replace_from(cursor, edits).is_err() {
        rewind(edits, 0, state);
        return Err(OutOfMemory);
    }
    trail.truncate(cursor);
    trail.push(event).unwrap();
    Ok(())
}
