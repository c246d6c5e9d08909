//! The program `lint --rules otp25`.

ghost use Rattle.std.specs.Prelude.{◌≡◌, ◌+◌, ◌≤◌, ◌<◌, ◌^◌, length, map, IfOk, false};
ghost use Rattle.rh_devices.specs.Devices.{input_limit};
ghost use Rattle.rh_run.specs.Programs.{ProgramGives, NoThreads};
ghost use Rattle.rh_script.specs.Lines.{raw_lines, content};
ghost use Rattle.rh_otp_sim.specs.Sim.{opened};
ghost use Rattle.rh_otp_lint.specs.LiveSteps.{of_live_steps};
ghost use Rattle.rh_otp_lint.specs.LiveLint.{of_live_script, found_in_live, OwesLiveLint};

use crate::steps::live_steps;
use rh_asked::LintManner;
use rh_base::OutOfMemory;
use rh_cluster::{Cluster, read_cluster};
use rh_cluster_lint::text_findings;
use rh_devices::{Sink, Source, Watched, read_input, write_text};
use rh_findings::{Finding, is_clean, put_in_order};
use rh_line_lint::line_findings;
use rh_lint::{line_count, lint_end, list_text, of_fault};
use rh_otp_file::own_files;
use rh_otp_model::OwnFile;
use rh_otp_net::Order;
use rh_otp_sim::LiveSim;
use rh_run::{RunFault, Told, ended};
use rh_script::cut;
use std::alloc::Global;

/// Reads all of the input, a cluster file, a line `===` and a script, and then lists what is wrong with it, and what comes of its commands
/// on live nodes, with messages taken in this order: a line for each finding in the order of lines, and one that counts them. The manner
/// says whether the lines are JSON.
///
/// The line of a finding is its number in the whole input. Of one line errors come before warnings, and these before hints. What live
/// nodes come to is exact, so nothing is left out behind a step that hangs, and `all` of the manner says nothing. The input has at most
/// 16,777,216 bytes. Neither device is flushed.
///
/// # Errors
/// `Differs` is the end of the text that was written: there is an error or a warning, or, if it is asked to be strict, a hint. `Read`
/// comes where the reader has failed or the input is too long: nothing was written. `Write` comes where the writer has failed: a front
/// of the text was written. `OutOfMemory` comes where a growth was refused: nothing was written.
pub fn run_live_lint<S: Source, K: Sink>(
    alloc: Global,
    reader: &mut Watched<S>,
    writer: &mut Watched<K>,
    order: Order,
    manner: LintManner,
) -> Result<(), RunFault>
    requires reader { reader.old.failed ≡ false }
    requires writer { writer.old.failed ≡ false }
    ensures { ProgramGives S.gives S.fails K.takes K.fails
        (OwesLiveLint manner order) NoThreads result reader.old reader.new writer.old writer.new }
{
    let input = read_input(alloc, reader)?;
    match lint_input(alloc, input.as_slice(), order, manner) {
        Err(_) => Err(RunFault::OutOfMemory),
        Ok((text, told)) => {
            write_text(writer, text.as_slice())?;
            ended(told)
        }
    }
}

// The text that lists what is wrong with an input, and the fault that it tells.
fn lint_input(
    alloc: Global,
    input: &[u8],
    order: Order,
    manner: LintManner,
) -> Result<(Vec<u8>, Option<Told>), OutOfMemory>
    requires { length input.now ≤ input_limit }
    ensures { IfOk result (λ linted. OwesLiveLint manner order input.now linted.0.items linted.1) }
{
    let mut found = found_in_live(alloc, input, order)?;
    let told = lint_end(is_clean(manner.strict, found.as_slice()));
    put_in_order(&mut found)?;
    let text = list_text(alloc, manner.json, found.as_slice())?;
    Ok((text, told))
}

// All that is found in an input, in the order in which it is looked for.
#[tactic(auto, unfolding(crate::specs::LiveLint::found_in_live))]
fn found_in_live(alloc: Global, input: &[u8], order: Order) -> Result<Vec<Finding>, OutOfMemory>
    requires { length input.now ≤ input_limit }
    ensures { IfOk result (λ found. found.items ≡ found_in_live input.now order) }
{
    let (text, script) = cut(input);
    let first = line_count(text) + 2;
    match read_cluster(alloc, text) {
        Err(fault) => of_fault(alloc, text, &fault),
        Ok(cluster) => of_script(alloc, order, text, first, script, cluster),
    }
}

// What is found in a cluster with a script, of which the first line has this number.
fn of_script(
    alloc: Global,
    order: Order,
    text: &[u8],
    first: u64,
    script: &[u8],
    cluster: Cluster,
) -> Result<Vec<Finding>, OutOfMemory>
    requires text { length text.now + 1 < 2 ^ 32 }
    requires numbers { first + length script.now ≤ 2 ^ 64 }
    ensures { IfOk result (λ found. found.items
        ≡ of_live_script order text.now first (map content (raw_lines script.now)) cluster) }
{
    let mut found = text_findings(alloc, text, Some(&cluster))?;
    let mut lines = line_findings(alloc, &cluster, first, script)?;
    let files = own_files(alloc, &cluster, text)?;
    let mut steps = of_steps(alloc, cluster, files, order, first, script)?;
    lines.append(&mut steps)?;
    found.append(&mut lines)?;
    Ok(found)
}

// What comes of the commands of a script on live nodes of a cluster, whose own files say this.
fn of_steps(
    alloc: Global,
    cluster: Cluster,
    files: Vec<OwnFile>,
    order: Order,
    first: u64,
    script: &[u8],
) -> Result<Vec<Finding>, OutOfMemory>
    requires numbers { first + length script.now ≤ 2 ^ 64 }
    ensures { IfOk result (λ found. found.items ≡ of_live_steps
        (opened cluster files.items order) first (map content (raw_lines script.now))) }
{
    let mut sim = LiveSim::open(alloc, cluster, files, order)?;
    live_steps(alloc, &mut sim, first, script)
}
