//! What no clause says: that the calls can succeed, the count of changes, cells that own memory, and refused growths.

ghost use Rattle.std.specs.Prelude.{◌≡◌, ◌<◌, length, slice_set, IfOk};
ghost use Rattle.rh_history.specs.HistoryView.{IsClosed, committed};

use crate::{Draft, History};
use rh_base::{Duplicate, OutOfMemory};
use std::alloc::Global;
use std::marker::Model;
use std::process::Abort;

fn holds(rt: &impl Abort, history: &History<u32>, want: [u32; 3]) {
    assert!(rt; history.len() == 3);
    for (at, value) in want.iter().enumerate() {
        assert_eq!(rt; *history.at(at), *value);
    }
}

// Writes a cell. Where memory is refused, nothing has changed, and the second try goes well.
fn write(rt: &impl Abort, history: &mut History<u32>, at: usize, value: u32)
    requires { at < length history.old.now }
    ensures { history.new ≡ record history.old { now = slice_set history.old.now at value } }
{
    let held = *history.at(at);
    let changes = history.changes();
    if history.put(at, value).is_err() {
        assert!(rt; *history.at(at) == held && history.changes() == changes);
        history.put(at, value).ok().expect(rt, "memory");
    }
    assert!(rt; *history.at(at) == value && history.changes() == changes.wrapping_add(1));
}

// Closes a step. Where memory is refused, nothing has changed, and the second try goes well.
fn close(rt: &impl Abort, history: &mut History<u32>)
    ensures state { history.new ≡ committed history.old }
    ensures closed { IsClosed history.new }
{
    let (steps, changes) = (history.steps(), history.changes());
    if history.commit().is_err() {
        assert!(rt; history.steps() == steps && history.changes() == changes);
        history.commit().ok().expect(rt, "memory");
    }
    assert_eq!(rt; history.changes(), 0);
}

fn cells(alloc: Global) -> Result<Vec<u32>, OutOfMemory>
    ensures { IfOk result (λ cells. length cells.items ≡ 3) }
{
    Ok(vec![in alloc; 0; 3]?)
}

#[test]
fn each_state_is_reached_again(rt: HostRuntime) -> Result<(), OutOfMemory> {
    let mut history = History::new(rt.alloc(), cells(rt.alloc())?);
    write(&rt, &mut history, 0, 1);
    write(&rt, &mut history, 1, 2);
    close(&rt, &mut history);
    write(&rt, &mut history, 1, 3);
    write(&rt, &mut history, 1, 4);
    close(&rt, &mut history);
    holds(&rt, &history, [1, 4, 0]);
    history.undo();
    holds(&rt, &history, [1, 2, 0]);
    history.undo();
    holds(&rt, &history, [0, 0, 0]);
    history.redo();
    holds(&rt, &history, [1, 2, 0]);
    assert!(rt; history.cursor() == 1 && history.steps() == 2 && history.changes() == 0);
    Ok(())
}

#[test]
fn a_step_that_is_rolled_back_keeps_redo(rt: HostRuntime) -> Result<(), OutOfMemory> {
    let mut history = History::new(rt.alloc(), cells(rt.alloc())?);
    write(&rt, &mut history, 2, 5);
    close(&rt, &mut history);
    history.undo();
    write(&rt, &mut history, 2, 6);
    write(&rt, &mut history, 0, 6);
    write(&rt, &mut history, 2, 7);
    history.roll_back();
    assert!(rt; history.changes() == 0 && history.steps() == 1);
    holds(&rt, &history, [0, 0, 0]);
    history.redo();
    holds(&rt, &history, [0, 0, 5]);
    Ok(())
}

#[test]
fn a_new_step_stands_in_place_of_redo(rt: HostRuntime) -> Result<(), OutOfMemory> {
    let mut history = History::new(rt.alloc(), cells(rt.alloc())?);
    write(&rt, &mut history, 0, 1);
    close(&rt, &mut history);
    write(&rt, &mut history, 1, 2);
    close(&rt, &mut history);
    assert_eq!(rt; history.undo_all(), 2);
    holds(&rt, &history, [0, 0, 0]);
    assert_eq!(rt; history.redo_all(), 2);
    holds(&rt, &history, [1, 2, 0]);
    history.undo();
    write(&rt, &mut history, 2, 3);
    close(&rt, &mut history);
    assert!(rt; history.cursor() == 2 && history.steps() == 2);
    holds(&rt, &history, [1, 0, 3]);
    assert_eq!(rt; history.redo_all(), 0);
    assert_eq!(rt; history.undo_all(), 2);
    holds(&rt, &history, [0, 0, 0]);
    Ok(())
}

#[test]
fn cells_may_own_memory(rt: HostRuntime) -> Result<(), OutOfMemory> {
    let mut cells = Vec::new(rt.alloc());
    cells.push(String::from_str(rt.alloc(), "first")?)?;
    let mut history = History::new(rt.alloc(), cells);
    history.put(0, String::from_str(rt.alloc(), "second")?)?;
    assert_eq!(rt; history.at(0).as_str(), "second");
    history.commit()?;
    history.undo();
    assert_eq!(rt; history.at(0).as_str(), "first");
    history.redo();
    assert_eq!(rt; history.at(0).as_str(), "second");
    Ok(())
}

// A cell that owns memory.
#[derive(Drop)]
struct Word {
    letters: Vec<u8>,
}

/// Contracts see a word as its letters.
impl Model for Word {
    ghost use Rattle.std.specs.Prelude.{List, ℕ};

    ghost Value = { List ℕ };

    ghost view = { λ w. w.letters.items };
}

impl Duplicate for Word {
    fn copy(&self, alloc: Global) -> Result<Word, OutOfMemory>
        ensures { IfOk result (λ copy. copy ≡ self.now) }
    {
        word_of(alloc, self.letters.as_slice())
    }
}

fn word_of(alloc: Global, letters: &[u8]) -> Result<Word, OutOfMemory>
    ensures { IfOk result (λ word. word ≡ letters.now) }
{
    Ok(Word {
        letters: Vec::from_slice(alloc, letters)?,
    })
}

fn words(alloc: Global) -> Result<History<Word>, OutOfMemory>
    ensures { IfOk result (λ history. IsClosed history) }
{
    let mut cells = Vec::new(alloc);
    cells.push(word_of(alloc, b"ja")?)?;
    cells.push(word_of(alloc, b"nein")?)?;
    Ok(History::new(alloc, cells))
}

fn reads(rt: &impl Abort, cell: Option<&Word>, want: &[u8]) {
    let cell = cell.expect(rt, "a cell");
    assert_eq!(rt; cell.letters.as_slice(), want);
}

// Puts a letter behind those of a cell, as a step.
fn lengthen(alloc: Global, history: &mut History<Word>, at: usize) -> Result<(), OutOfMemory>
    requires { IsClosed history.old }
    ensures { IsClosed history.new }
{
    let mut draft = history.draft(alloc)?;
    if let Some(mut word) = draft.take(alloc, at)? {
        word.letters.push(b'!')?;
        draft.set(at, word);
    }
    let writes = draft.into_writes(alloc)?;
    history.make(writes)
}

// The same. Where memory is refused, nothing has changed, and the second try goes well.
fn lengthen_surely(
    rt: &impl Abort,
    alloc: Global,
    history: &mut History<Word>,
    held: &[u8],
    want: &[u8],
)
    requires { IsClosed history.old }
    ensures { IsClosed history.new }
{
    let steps = history.steps();
    if lengthen(alloc, history, 1).is_err() {
        assert!(rt; history.steps() == steps && history.changes() == 0);
        reads(rt, history.cells().get(1), held);
        lengthen(alloc, history, 1).ok().expect(rt, "memory");
    }
    assert!(rt; history.steps() == steps.wrapping_add(1) && history.changes() == 0);
    reads(rt, history.cells().get(1), want);
}

#[test]
fn a_draft_is_made_as_one_step(rt: HostRuntime) -> Result<(), OutOfMemory> {
    let mut history = words(rt.alloc())?;
    lengthen_surely(&rt, rt.alloc(), &mut history, b"nein", b"nein!");
    lengthen_surely(&rt, rt.alloc(), &mut history, b"nein!", b"nein!!");
    assert_eq!(rt; history.undo_all(), 2);
    reads(&rt, history.cells().get(1), b"nein");
    Ok(())
}

#[test]
fn a_draft_has_cells_of_its_own(rt: HostRuntime) -> Result<(), OutOfMemory> {
    let history = words(rt.alloc())?;
    let mut draft = Draft::of(rt.alloc(), history.cells())?;
    assert!(rt; draft.len() == 2 && draft.at(2).is_none());
    draft.set(0, word_of(rt.alloc(), b"doch")?);
    draft.set(2, word_of(rt.alloc(), b"nie")?);
    reads(&rt, draft.at(0), b"doch");
    reads(&rt, draft.at(1), b"nein");
    let own = draft.take(rt.alloc(), 0)?.expect(&rt, "a cell of its own");
    let copy = draft
        .take(rt.alloc(), 1)?
        .expect(&rt, "a cell of the history");
    assert!(rt; draft.take(rt.alloc(), 2)?.is_none());
    draft.set(1, own);
    draft.set(0, copy);
    let writes = draft.into_writes(rt.alloc())?;
    assert_eq!(rt; writes.len(), 2);
    assert!(rt; writes[0].0 == 0 && writes[1].0 == 1);
    reads(&rt, Some(&writes[0].1), b"nein");
    reads(&rt, Some(&writes[1].1), b"doch");
    reads(&rt, history.cells().get(0), b"ja");
    Ok(())
}
