//! What is found in each line.

ghost use Rattle.std.specs.Prelude.{◌≡◌, ◌+◌, ◌≤◌, ◌^◌, ◌++◌, IfOk, OnOk, map, length};
ghost use Rattle.rh_script.specs.Lines.{raw_lines, content};
ghost use Rattle.rh_line_lint.specs.Lines.{of_line, of_lines};

use crate::bad::{bad_words, error_at};
use crate::unknown::push_unknown_names;
use rh_base::OutOfMemory;
use rh_cluster::Cluster;
use rh_findings::Finding;
use rh_script::{Line, content, line_of, split_line};
use std::alloc::Global;

// Adds what is found in a line.
#[tactic(auto, unfolding(crate::specs::Lines::of_line))]
fn push_of_line(
    alloc: Global,
    found: &mut Vec<Finding>,
    cluster: &Cluster,
    number: u64,
    line: &[u8],
) -> Result<(), OutOfMemory>
    ensures { OnOk result
        (found.new.items ≡ found.old.items ++ of_line cluster.now number line.now) }
{
    match line_of(alloc, cluster, line)? {
        Line::Nothing => Ok(()),
        Line::Bad => {
            let text = bad_words(alloc, line)?;
            found.push(error_at(number, text))?;
            Ok(())
        }
        Line::Asks(_) => push_unknown_names(alloc, found, cluster, number, line),
    }
}

/// What is found in the lines of a script, of which the first has this number: each line that is no command, with the command that
/// is near or the way in which it is written, and each node and application in a command that the cluster hasn't, with the nearest
/// that it has.
pub fn line_findings(
    alloc: Global,
    cluster: &Cluster,
    first: u64,
    script: &[u8],
) -> Result<Vec<Finding>, OutOfMemory>
    requires numbers { first + length script.now ≤ 2 ^ 64 }
    ensures { IfOk result
        (λ found. found.items ≡ of_lines cluster.now first (map content (raw_lines script.now))) }
{
    let mut found = Vec::new(alloc);
    let mut rest = script;
    let mut passed: u64 = 0;
    'lines: while !rest.is_empty() {
        let (line, after) = split_line(rest);
        push_of_line(alloc, &mut found, cluster, first + passed, content(line))?;
        rest = after;
        passed += 1;
    }
    Ok(found)
}
