//! The program `lint`.

ghost use Rattle.std.specs.Prelude.{◌≡◌, ◌≤◌, length, IfOk, false};
ghost use Rattle.rh_devices.specs.Devices.{input_limit};
ghost use Rattle.rh_run.specs.Programs.{ProgramGives, NoThreads};
ghost use Rattle.rh_lint.specs.LintText.{lint_end, list_text, OwesLint};

use crate::finding::found_in;
use crate::json::lint_json;
use rh_asked::LintManner;
use rh_base::OutOfMemory;
use rh_devices::{Sink, Source, Watched, read_input, write_text};
use rh_findings::{Finding, is_clean, put_in_order, report_text};
use rh_rules::Pick;
use rh_run::{RunFault, Told, ended};
use std::alloc::Global;

/// Reads all of the input, a cluster file, a line `===` and a script, and then lists what is wrong with it, a line for each finding
/// in the order of lines, and one that counts them. The manner says whether the lines are JSON.
///
/// The line of a finding is its number in the whole input. Of one line errors come before warnings, and these before hints. Of the
/// steps behind one that hangs on live nodes nothing is told, unless the manner asks for all. The input has at most 16,777,216 bytes.
/// Neither device is flushed.
///
/// # Errors
/// `Differs` is the end of the text that was written: there is an error or a warning, or, if it is asked to be strict, a hint. `Read`
/// comes where the reader has failed or the input is too long: nothing was written. `Write` comes where the writer has failed: a front
/// of the text was written. `OutOfMemory` comes where a growth was refused: nothing was written.
pub fn run_lint<S: Source, K: Sink>(
    alloc: Global,
    reader: &mut Watched<S>,
    writer: &mut Watched<K>,
    pick: Pick,
    manner: LintManner,
) -> Result<(), RunFault>
    requires reader { reader.old.failed ≡ false }
    requires writer { writer.old.failed ≡ false }
    ensures { ProgramGives S.gives S.fails K.takes K.fails
        (OwesLint manner pick) NoThreads result reader.old reader.new writer.old writer.new }
{
    let input = read_input(alloc, reader)?;
    match lint_input(alloc, input.as_slice(), pick, manner) {
        Err(_) => Err(RunFault::OutOfMemory),
        Ok((text, told)) => {
            write_text(writer, text.as_slice())?;
            ended(told)
        }
    }
}

// The text that lists what is wrong with an input, and the fault that it tells.
fn lint_input(
    alloc: Global,
    input: &[u8],
    pick: Pick,
    manner: LintManner,
) -> Result<(Vec<u8>, Option<Told>), OutOfMemory>
    requires { length input.now ≤ input_limit }
    ensures { IfOk result (λ linted. OwesLint manner pick input.now linted.0.items linted.1) }
{
    let mut found = found_in(alloc, input, pick, manner.all)?;
    let told = lint_end(is_clean(manner.strict, found.as_slice()));
    put_in_order(&mut found)?;
    let text = list_text(alloc, manner.json, found.as_slice())?;
    Ok((text, told))
}

/// The text that lists findings, as JSON or not.
pub fn list_text(alloc: Global, json: bool, findings: &[Finding]) -> Result<Vec<u8>, OutOfMemory>
    ensures { IfOk result (λ text. text.items ≡ list_text json findings.now) }
{
    if json {
        lint_json(alloc, findings)
    } else {
        let text = report_text(alloc, findings)?;
        Ok(text.into_bytes())
    }
}

/// The fault that the text tells, if something was found that counts.
pub fn lint_end(clean: bool) -> Option<Told>
    ensures { result ≡ lint_end clean }
{
    if clean { None } else { Some(Told::Differs) }
}
