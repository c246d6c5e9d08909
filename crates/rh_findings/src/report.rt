//! The text that lists findings.

ghost use Rattle.std.specs.Prelude.{◌≡◌, ◌++◌, IfOk, OnOk};
ghost use Rattle.std.specs.List.{flat_map};
ghost use Rattle.std.specs.String.{string_bytes};
ghost use Rattle.rh_findings.specs.Report.{line_words, path_words, finding_line, count, last_line, report_text, is_clean};

use crate::finding::{Finding, Kind};
use rh_base::{OutOfMemory, Str};
use std::alloc::Global;

// Adds the number of a line, where it is known.
#[tactic(auto, unfolding(crate::specs::Report::line_words))]
fn push_line(text: &mut String, line: Option<u64>) -> Result<(), OutOfMemory>
    ensures { OnOk result (string_bytes text.new ≡ string_bytes text.old ++ line_words line) }
{
    if let Some(number) = line {
        write!(text, "{number}: ")?;
    }
    Ok(())
}

// Adds the way to a finding, where it is known.
#[tactic(auto, unfolding(crate::specs::Report::path_words))]
fn push_path(text: &mut String, path: &Option<Str>) -> Result<(), OutOfMemory>
    ensures { OnOk result (string_bytes text.new ≡ string_bytes text.old ++ path_words path.now) }
{
    if let Some(path) = path {
        let way = path.as_str();
        write!(text, " ({way})")?;
    }
    Ok(())
}

// Adds the line of a finding.
#[tactic(auto, unfolding(crate::specs::Report::finding_line))]
fn push_finding(text: &mut String, finding: &Finding) -> Result<(), OutOfMemory>
    ensures { OnOk result
        (string_bytes text.new ≡ string_bytes text.old ++ finding_line finding.now) }
{
    push_line(text, finding.line)?;
    let kind = finding.kind.word();
    let words = finding.text.as_str();
    write!(text, "{kind} {words}")?;
    push_path(text, &finding.path)?;
    write!(text, "\n")?;
    Ok(())
}

// Adds the lines of findings.
fn push_findings(text: &mut String, findings: &[Finding]) -> Result<(), OutOfMemory>
    ensures { OnOk result
        (string_bytes text.new ≡ string_bytes text.old ++ flat_map finding_line findings.now) }
{
    for finding in findings {
        push_finding(text, finding)?;
    }
    Ok(())
}

/// How many findings are of this kind.
pub fn count(kind: Kind, findings: &[Finding]) -> usize
    ensures { result ≡ count kind findings.now }
{
    let mut count: usize = 0;
    for place in 0..findings.len() {
        if findings[place].kind.is(kind) {
            count += 1;
        }
    }
    count
}

// Adds the last line, which says how many findings there are of each kind.
#[tactic(auto, unfolding(crate::specs::Report::last_line))]
fn push_last(text: &mut String, findings: &[Finding]) -> Result<(), OutOfMemory>
    ensures { OnOk result
        (string_bytes text.new ≡ string_bytes text.old ++ last_line findings.now) }
{
    let errors = count(Kind::Error, findings);
    let warnings = count(Kind::Warning, findings);
    let hints = count(Kind::Hint, findings);
    write!(
        text,
        "{errors} errors, {warnings} warnings, {hints} hints\n"
    )?;
    Ok(())
}

/// The text that lists findings, a line for each and one that counts them.
#[tactic(auto, unfolding(crate::specs::Report::report_text))]
pub fn report_text(alloc: Global, findings: &[Finding]) -> Result<String, OutOfMemory>
    ensures { IfOk result (λ text. string_bytes text ≡ report_text findings.now) }
{
    let mut text = String::new(alloc);
    push_findings(&mut text, findings)?;
    push_last(&mut text, findings)?;
    Ok(text)
}

/// Whether there is no error and no warning; and no hint either, if hints count.
pub fn is_clean(strict: bool, findings: &[Finding]) -> bool
    ensures { result ≡ is_clean strict findings.now }
{
    let hints = count(Kind::Hint, findings);
    count(Kind::Error, findings) == 0
        && count(Kind::Warning, findings) == 0
        && (!strict || hints == 0)
}
