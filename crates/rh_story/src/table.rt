//! The table at the end of a story: where each distributed application ran.

ghost use Rattle.std.specs.Prelude.{◌≡◌, ◌++◌, OnOk, IfOk};
ghost use Rattle.std.specs.List.{flat_map};
ghost use Rattle.rh_script.specs.Lines.{raw_lines};
ghost use Rattle.rh_courses.specs.Courses.{courses_in};
ghost use Rattle.rh_story.specs.TableText.{course_line, table_over, table_text, lack_behind, starts_table, is_left_out, shown};

use crate::head::missing_end;
use rh_base::OutOfMemory;
use rh_cluster::Cluster;
use rh_courses::{Course, course_text, courses_of};
use rh_script::{Kind, content, mark, note_of, split_line};
use rh_trail::Sim;
use std::alloc::Global;

/// The table of a simulation, behind a text that lacks so much of its end. The simulation is lent, and stands as it stood.
#[tactic(auto, unfolding(crate::specs::TableText::table_text))]
pub fn table_text(alloc: Global, sim: &mut Sim, lack: &str) -> Result<Vec<u8>, OutOfMemory>
    ensures { IfOk result (λ text. text.items ≡ table_text lack.now sim.old.seen) }
{
    let courses = courses_of(alloc, sim)?;
    table_over(alloc, sim.cluster(), lack, courses.as_slice())
}

// The table of courses.
fn table_over(
    alloc: Global,
    cluster: &Cluster,
    lack: &str,
    courses: &[Course],
) -> Result<Vec<u8>, OutOfMemory>
    ensures { IfOk result (λ text. text.items ≡ table_over cluster.now lack.now courses.now) }
{
    let mut text = Vec::new(alloc);
    if courses.is_empty() {
        return Ok(text);
    }
    text.extend_from_slice(lack.as_bytes())?;
    text.extend_from_slice(b"\n".as_slice())?;
    push_courses(alloc, &mut text, cluster, courses)?;
    Ok(text)
}

// Adds the lines of courses.
fn push_courses(
    alloc: Global,
    text: &mut Vec<u8>,
    cluster: &Cluster,
    courses: &[Course],
) -> Result<(), OutOfMemory>
    ensures { OnOk result
        (text.new.items ≡ text.old.items ++ flat_map (course_line cluster.now) courses.now) }
{
    for course in courses {
        push_course(alloc, text, cluster, course)?;
    }
    Ok(())
}

// Adds the line of a course.
fn push_course(
    alloc: Global,
    text: &mut Vec<u8>,
    cluster: &Cluster,
    course: &Course,
) -> Result<(), OutOfMemory>
    ensures { OnOk result (text.new.items ≡ text.old.items ++ course_line cluster.now course.now) }
{
    let words = course_text(alloc, cluster, course)?;
    text.extend_from_slice(mark(Kind::Table).as_bytes())?;
    text.extend_from_slice(words.as_bytes())?;
    text.extend_from_slice(b"\n".as_slice())?;
    Ok(())
}

/// What a text lacks of its end behind a piece more.
pub fn lack_behind(lack: &'static str, piece: &[u8]) -> &'static str
    ensures { result.now ≡ lack_behind lack.now piece.now }
{
    if piece.is_empty() {
        lack
    } else {
        missing_end(piece)
    }
}

// Whether the first line of a text is one of a table.
fn starts_table(text: &[u8]) -> bool
    ensures { result ≡ starts_table (raw_lines text.now) }
{
    if text.is_empty() {
        return false;
    }
    let (line, _) = split_line(text);
    matches!(note_of(content(line)), Some((Kind::Table, _)))
}

// Whether a line, by the text behind it, is one that an earlier story wrote before its table.
#[tactic(auto, unfolding(crate::specs::TableText::is_left_out))]
fn is_left_out(line: &[u8], after: &[u8]) -> bool
    ensures { result ≡ is_left_out line.now (raw_lines after.now) }
{
    content(line).is_empty() && starts_table(after)
}

/// The text of a line, by the line and the text behind it: nothing where the line is left out.
pub fn text_to_show<'a>(line: &[u8], after: &[u8], text: &'a [u8]) -> &'a [u8]
    ensures { result.now ≡ shown line.now (raw_lines after.now) text.now }
{
    if is_left_out(line, after) {
        b"".as_slice()
    } else {
        text
    }
}
