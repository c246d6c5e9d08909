//! The lines of JSON that list findings.

ghost use Rattle.std.specs.Prelude.{◌≡◌, ◌++◌, IfOk, OnOk};
ghost use Rattle.std.specs.List.{flat_map};
ghost use Rattle.rh_lint.specs.LintJson.{code_of, words_of, line_json, path_json, kind_json, text_json, finding_json, last_json, lint_json};

use rh_base::{OutOfMemory, Str};
use rh_findings::{Finding, Kind, count};
use rh_json_text::{after_first, before_first, push_number, push_string, push_text};
use std::alloc::Global;

// The code in the text of a finding.
fn code_of(text: &[u8]) -> &[u8]
    ensures { result.now ≡ code_of text.now }
{
    before_first(text, b':')
}

// The words in the text of a finding.
fn words_of(text: &[u8]) -> &[u8]
    ensures { result.now ≡ words_of text.now }
{
    let words = after_first(text, b':');
    if words.is_empty() { words } else { &words[1..] }
}

// Adds the number of a line, where it is known.
fn push_line(alloc: Global, out: &mut Vec<u8>, line: Option<u64>) -> Result<(), OutOfMemory>
    ensures { OnOk result (out.new.items ≡ out.old.items ++ line_json line) }
{
    if let Some(number) = line {
        push_text(out, "\"line\":")?;
        push_number(alloc, out, number as u128)?;
        push_text(out, ",")?;
    }
    Ok(())
}

// Adds the way to a finding, where it is known.
fn push_path(out: &mut Vec<u8>, path: &Option<Str>) -> Result<(), OutOfMemory>
    ensures { OnOk result (out.new.items ≡ out.old.items ++ path_json path.now) }
{
    if let Some(path) = path {
        push_text(out, ",\"path\":")?;
        push_string(out, path.as_str().as_bytes())?;
    }
    Ok(())
}

// Adds the kind of a finding.
#[tactic(auto, unfolding(crate::specs::LintJson::kind_json))]
fn push_kind(out: &mut Vec<u8>, kind: Kind) -> Result<(), OutOfMemory>
    ensures { OnOk result (out.new.items ≡ out.old.items ++ kind_json kind) }
{
    push_text(out, "\"kind\":")?;
    push_string(out, kind.word().as_bytes())
}

// Adds the code and the words of a finding with this text.
#[tactic(auto, unfolding(crate::specs::LintJson::text_json))]
fn push_words(out: &mut Vec<u8>, text: &[u8]) -> Result<(), OutOfMemory>
    ensures { OnOk result (out.new.items ≡ out.old.items ++ text_json text.now) }
{
    push_text(out, ",\"code\":")?;
    push_string(out, code_of(text))?;
    push_text(out, ",\"words\":")?;
    push_string(out, words_of(text))
}

// Adds the line of a finding.
#[tactic(auto, unfolding(crate::specs::LintJson::finding_json))]
fn push_finding(alloc: Global, out: &mut Vec<u8>, finding: &Finding) -> Result<(), OutOfMemory>
    ensures { OnOk result (out.new.items ≡ out.old.items ++ finding_json finding.now) }
{
    push_text(out, "{")?;
    push_line(alloc, out, finding.line)?;
    push_kind(out, finding.kind)?;
    push_words(out, finding.text.as_str().as_bytes())?;
    push_path(out, &finding.path)?;
    push_text(out, "}\n")
}

// Adds the lines of findings.
fn push_findings(alloc: Global, out: &mut Vec<u8>, findings: &[Finding]) -> Result<(), OutOfMemory>
    ensures { OnOk result (out.new.items ≡ out.old.items ++ flat_map finding_json findings.now) }
{
    for finding in findings {
        push_finding(alloc, out, finding)?;
    }
    Ok(())
}

// Adds the last line, which says how many findings there are of each kind.
#[tactic(auto, unfolding(crate::specs::LintJson::last_json))]
fn push_last(alloc: Global, out: &mut Vec<u8>, findings: &[Finding]) -> Result<(), OutOfMemory>
    ensures { OnOk result (out.new.items ≡ out.old.items ++ last_json findings.now) }
{
    push_text(out, "{\"errors\":")?;
    push_number(alloc, out, count(Kind::Error, findings) as u128)?;
    push_text(out, ",\"warnings\":")?;
    push_number(alloc, out, count(Kind::Warning, findings) as u128)?;
    push_text(out, ",\"hints\":")?;
    push_number(alloc, out, count(Kind::Hint, findings) as u128)?;
    push_text(out, "}\n")
}

/// The text that lists findings, a line of JSON for each and one that counts them.
#[tactic(auto, unfolding(crate::specs::LintJson::lint_json))]
pub fn lint_json(alloc: Global, findings: &[Finding]) -> Result<Vec<u8>, OutOfMemory>
    ensures { IfOk result (λ text. text.items ≡ lint_json findings.now) }
{
    let mut out = Vec::new(alloc);
    push_findings(alloc, &mut out, findings)?;
    push_last(alloc, &mut out, findings)?;
    Ok(out)
}
