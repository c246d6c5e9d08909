//! The base of a sweep or a search: the input without its plans, or without what is searched.

ghost use Rattle.std.specs.Prelude.{◌≡◌, ◌≤◌, length, IfOk};
ghost use Rattle.rh_script.specs.Lines.{content, is_separator};
ghost use Rattle.rh_script.specs.Commands.{line_of};
ghost use Rattle.rh_json.specs.Base.{is_bad, base_text};

use rh_base::OutOfMemory;
use rh_cluster::Cluster;
use rh_script::{Line, content, line_of, split_line};
use std::alloc::Global;

// Whether a line ends the cluster's text.
fn is_separator(line: &[u8]) -> bool
    ensures { result ≡ is_separator line.now }
{
    content(line) == b"===".as_slice()
}

// Whether a line of a script is no command of a run.
fn is_bad(alloc: Global, cluster: &Cluster, line: &[u8]) -> Result<bool, OutOfMemory>
    ensures { IfOk result (λ bad. bad ≡ is_bad (line_of cluster.now (content line.now))) }
{
    match line_of(alloc, cluster, content(line))? {
        Line::Bad => Ok(true),
        _ => Ok(false),
    }
}

/// The front of an input up to the first line of its script that is no command. Where each line of a base is one, that begins the
/// first plan, or the search.
pub fn base_text<'a>(
    alloc: Global,
    cluster: &Cluster,
    input: &'a [u8],
) -> Result<&'a [u8], OutOfMemory>
    ensures text { IfOk result (λ base. base.now ≡ base_text cluster.now input.now) }
    ensures within { IfOk result (λ base. length base.now ≤ length input.now) }
{
    let mut rest = input;
    let mut begun = false;
    'lines: while !rest.is_empty() {
        let (line, after) = split_line(rest);
        if !begun {
            begun = is_separator(line);
        } else if is_bad(alloc, cluster, line)? {
            return Ok(&input[..input.len() - rest.len()]);
        }
        rest = after;
    }
    Ok(input)
}
