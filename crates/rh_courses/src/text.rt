//! A course as a line.

ghost use Rattle.std.specs.Prelude.{◌≡◌, ◌++◌, codes, IfOk, OnOk};
ghost use Rattle.std.specs.List.{flat_map};
ghost use Rattle.std.specs.String.{string_bytes};
ghost use Rattle.rh_courses.specs.declared.course.Stay.{Stay};
ghost use Rattle.rh_courses.specs.Texts.{place_words, end_words, run_words, runs_words, away_words, piece_words, pieces_words, gap_words, gaps_words, course_text};

use crate::course::{Course, Stay};
use rh_base::OutOfMemory;
use rh_calls::{NO_NAME, app_word, node_word};
use rh_model::{Cluster, Node};
use std::alloc::Global;

/// A course as a line without its end: where the application ran, from when to when in milliseconds, and for how long it ran
/// nowhere since it first ran.
pub fn course_text(alloc: Global, cluster: &Cluster, course: &Course) -> Result<String, OutOfMemory>
    ensures { IfOk result (λ text. string_bytes text ≡ course_text cluster.now course.now) }
{
    let mut text = String::new(alloc);
    let name = app_word(cluster, course.app());
    write!(text, "{name}")?;
    let runs = course.runs(alloc)?;
    push_runs(&mut text, cluster, runs.as_slice())?;
    push_gaps(&mut text, course.away(), course.pieces())?;
    Ok(text)
}

// Adds the runs.
#[tactic(auto, unfolding(crate::specs::Texts::runs_words))]
fn push_runs(text: &mut String, cluster: &Cluster, runs: &[Stay]) -> Result<(), OutOfMemory>
    ensures { OnOk result
        (string_bytes text.new ≡ string_bytes text.old ++ runs_words cluster.now runs.now) }
{
    match runs.split_first() {
        None => write!(text, " never ran")?,
        Some((run, later)) => {
            write!(text, " ran ")?;
            push_run(text, cluster, *run)?;
            push_later(text, cluster, later)?;
        }
    }
    Ok(())
}

// Adds the runs behind the first, each behind a comma.
fn push_later(text: &mut String, cluster: &Cluster, runs: &[Stay]) -> Result<(), OutOfMemory>
    ensures { OnOk result (string_bytes text.new ≡ string_bytes text.old
        ++ flat_map (λ (run : Stay). codes ", " ++ run_words cluster.now run) runs.now) }
{
    for run in runs {
        write!(text, ", ")?;
        push_run(text, cluster, *run)?;
    }
    Ok(())
}

// Adds a run.
#[tactic(auto, unfolding(crate::specs::Texts::run_words))]
fn push_run(text: &mut String, cluster: &Cluster, run: Stay) -> Result<(), OutOfMemory>
    ensures { OnOk result
        (string_bytes text.new ≡ string_bytes text.old ++ run_words cluster.now run) }
{
    let place = place_word(cluster, run.place);
    let start = run.start;
    write!(text, "at {place} {start} to ")?;
    match run.end {
        Some(end) => write!(text, "{end}")?,
        None => write!(text, "now")?,
    }
    Ok(())
}

// The name of the node of a run.
fn place_word<'a>(cluster: &'a Cluster, place: Option<Node>) -> &'a str
    ensures { result.now ≡ place_words cluster.now place }
{
    match place {
        Some(node) => node_word(cluster, node),
        None => NO_NAME,
    }
}

// Adds for how long an application ran nowhere, and in how many pieces, if it did.
fn push_gaps(text: &mut String, away: u128, pieces: usize) -> Result<(), OutOfMemory>
    ensures { OnOk result
        (string_bytes text.new ≡ string_bytes text.old ++ gaps_words away pieces) }
{
    let never = pieces == 0;
    if never {
        return Ok(());
    }
    push_gap(text, away, pieces)
}

// Adds for how long, and in how many pieces.
fn push_gap(text: &mut String, away: u128, pieces: usize) -> Result<(), OutOfMemory>
    ensures { OnOk result (string_bytes text.new ≡ string_bytes text.old ++ gap_words away pieces) }
{
    push_away(text, away)?;
    push_pieces(text, pieces)?;
    Ok(())
}

// Adds for how long.
#[tactic(auto, unfolding(crate::specs::Texts::away_words))]
fn push_away(text: &mut String, away: u128) -> Result<(), OutOfMemory>
    ensures { OnOk result (string_bytes text.new ≡ string_bytes text.old ++ away_words away) }
{
    write!(text, "; nowhere for {away} ms")?;
    Ok(())
}

// Adds in how many pieces.
#[tactic(auto, unfolding(crate::specs::Texts::pieces_words))]
fn push_pieces(text: &mut String, pieces: usize) -> Result<(), OutOfMemory>
    ensures { OnOk result (string_bytes text.new ≡ string_bytes text.old ++ pieces_words pieces) }
{
    let word = piece_word(pieces);
    write!(text, " in {pieces} {word}")?;
    Ok(())
}

// The word for so many pieces.
fn piece_word(count: usize) -> &'static str
    ensures { result.now ≡ piece_words count }
{
    let alone = count == 1;
    if alone { "piece" } else { "pieces" }
}
