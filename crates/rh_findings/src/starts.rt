//! Where terms begin.

ghost use Rattle.std.specs.Prelude.{◌≡◌, ◌+◌, ◌≤◌, ◌<◌, ◌^◌, ◌++◌, ℕ, length, drop, IfOk, OnOk, if◌then◌else◌};
ghost use Rattle.rh_findings.specs.Scan.{line_behind};
ghost use Rattle.rh_findings.specs.Starts.{start_here, starts_from, term_starts};

use crate::plain::plain_len;
use crate::scan::Standing;
use rh_base::OutOfMemory;
use std::alloc::Global;

/// Where a term begins.
#[derive(Clone, Copy, Debug, PartialEq, Eq)]
pub struct Start {
    /// The number of its line, counted from 1.
    pub line: u32,
    /// How many bytes stand before it.
    pub at: usize,
}

// The number of the line on which the byte behind this one stands.
pub fn line_behind(line: u64, byte: u8) -> u64
    requires { line + 1 < 2 ^ 64 }
    ensures { result ≡ line_behind line byte }
{
    if byte == b'\n' { line + 1 } else { line }
}

// The same, where lines are counted in half the bits.
fn next_line(line: u32, byte: u8) -> u32
    requires { line + 1 < 2 ^ 32 }
    ensures { result ≡ line_behind line byte }
{
    line_behind(line as u64, byte) as u32
}

// Adds a start, if a term begins here.
fn push_start(
    starts: &mut Vec<Start>,
    standing: Standing,
    line: u32,
    at: usize,
    byte: u8,
) -> Result<(), OutOfMemory>
    ensures { OnOk result
        (starts.new.items ≡ starts.old.items ++ start_here standing line at byte) }
{
    if standing.begins_term(byte) {
        starts.push(Start { line, at })?;
    }
    Ok(())
}

// How many bytes are passed that change neither what stands behind them nor the line, and begin no term. Most bytes of a term don't.
#[tactic(auto, using(crate::proofs::Passed::plain_passed))]
fn passed_len(standing: Standing, bytes: &[u8]) -> usize
    ensures within { result ≤ length bytes.now }
    ensures starts { (line at : ℕ) → starts_from standing line at bytes.now
        ≡ starts_from standing line (at + result) (drop result bytes.now) }
{
    match standing {
        Standing::Inside => plain_len(bytes),
        _ => 0,
    }
}

/// Where terms begin that stand inside no other: the first byte that is no blank and in no comment, at the start of the text or behind
/// a dot that stands outside quotes and comments.
pub fn term_starts(alloc: Global, text: &[u8]) -> Result<Vec<Start>, OutOfMemory>
    requires { length text.now + 1 < 2 ^ 32 }
    ensures { IfOk result (λ starts. starts.items ≡ term_starts text.now) }
{
    let mut starts = Vec::new(alloc);
    let mut standing = Standing::Between;
    let mut line: u32 = 1;
    let mut at: usize = 0;
    'text: while at < text.len() {
        let byte = text[at];
        push_start(&mut starts, standing, line, at, byte)?;
        standing = standing.behind(byte);
        line = next_line(line, byte);
        at += 1;
        at += passed_len(standing, &text[at..]);
    }
    Ok(starts)
}
