//! All that is found in an input.

ghost use Rattle.std.specs.Prelude.{◌≡◌, ◌+◌, ◌≤◌, ◌<◌, ◌^◌, length, map, false, IfOk};
ghost use Rattle.rh_cluster.specs.FaultTexts.{is_memory};
ghost use Rattle.rh_script.specs.Lines.{raw_lines, content};
ghost use Rattle.rh_devices.specs.Devices.{input_limit};
ghost use Rattle.rh_trail.specs.Lone.{opened};
ghost use Rattle.rh_script_lint.specs.Steps.{of_script_steps};
ghost use Rattle.rh_lint.specs.LintText.{of_fault, of_script, found_in};

use rh_base::OutOfMemory;
use rh_cluster::{Cluster, ClusterFault, read_cluster};
use rh_cluster_lint::{fault_in, text_findings};
use rh_findings::Finding;
use rh_line_lint::line_findings;
use rh_rules::Pick;
use rh_script::{cut, split_line};
use rh_script_lint::step_lines;
use rh_trail::Sim;
use std::alloc::Global;

/// How many lines a text has.
pub fn line_count(text: &[u8]) -> u64
    ensures count { result ≡ length (raw_lines text.now) }
    ensures within { result ≤ length text.now }
{
    let mut rest = text;
    let mut count: u64 = 0;
    'lines: while !rest.is_empty() {
        let (_, after) = split_line(rest);
        rest = after;
        count += 1;
    }
    count
}

/// What is found in a text that is no cluster. Want of memory is no fault of the text.
pub fn of_fault(
    alloc: Global,
    text: &[u8],
    fault: &ClusterFault,
) -> Result<Vec<Finding>, OutOfMemory>
    requires { length text.now + 1 < 2 ^ 32 }
    ensures found { IfOk result (λ found. found.items ≡ of_fault text.now fault.now) }
    ensures fault { IfOk result (λ _. is_memory fault.now ≡ false) }
{
    if fault.is_memory() {
        return Err(OutOfMemory);
    }
    let mut found = Vec::new(alloc);
    found.push(fault_in(alloc, text, fault)?)?;
    let mut others = text_findings(alloc, text, None)?;
    found.append(&mut others)?;
    Ok(found)
}

// What is found at the steps of a script, of which the first line has this number.
fn of_steps(
    alloc: Global,
    cluster: Cluster,
    first: u64,
    script: &[u8],
    pick: Pick,
    all: bool,
) -> Result<Vec<Finding>, OutOfMemory>
    requires numbers { first + length script.now ≤ 2 ^ 64 }
    ensures { IfOk result (λ found. found.items
        ≡ of_script_steps all (opened cluster pick) first (map content (raw_lines script.now))) }
{
    let mut sim = Sim::open(alloc, cluster, pick)?;
    step_lines(alloc, &mut sim, all, first, script)
}

// What is found in a cluster with a script, of which the first line has this number.
fn of_script(
    alloc: Global,
    text: &[u8],
    cluster: Cluster,
    first: u64,
    script: &[u8],
    pick: Pick,
    all: bool,
) -> Result<Vec<Finding>, OutOfMemory>
    requires text { length text.now + 1 < 2 ^ 32 }
    requires numbers { first + length script.now ≤ 2 ^ 64 }
    ensures { IfOk result (λ found. found.items
        ≡ of_script text.now cluster pick all first (map content (raw_lines script.now))) }
{
    let mut found = text_findings(alloc, text, Some(&cluster))?;
    let mut lines = line_findings(alloc, &cluster, first, script)?;
    let mut steps = of_steps(alloc, cluster, first, script, pick, all)?;
    lines.append(&mut steps)?;
    found.append(&mut lines)?;
    Ok(found)
}

/// All that is found in an input, in the order in which it is looked for. Of the steps behind one that hangs on live nodes nothing is
/// told, unless all is asked for.
#[tactic(auto, unfolding(crate::specs::LintText::found_in))]
pub fn found_in(
    alloc: Global,
    input: &[u8],
    pick: Pick,
    all: bool,
) -> Result<Vec<Finding>, OutOfMemory>
    requires { length input.now ≤ input_limit }
    ensures { IfOk result (λ found. found.items ≡ found_in input.now pick all) }
{
    let (text, script) = cut(input);
    let first = line_count(text) + 2;
    match read_cluster(alloc, text) {
        Err(fault) => of_fault(alloc, text, &fault),
        Ok(cluster) => of_script(alloc, text, cluster, first, script, pick, all),
    }
}
