//! The words of a line.

ghost use Rattle.std.specs.Prelude.{◌≡◌, ◌==◌, IfOk, map};
ghost use Rattle.std.specs.List.{slice_split};
ghost use Rattle.rh_script.specs.Commands.{words_of};

use rh_base::OutOfMemory;
use std::alloc::{AllocError, Global};

// The parts round each space.
fn parts_of(alloc: Global, line: &str) -> Result<Vec<&str>, AllocError>
    ensures { IfOk result
        (λ parts. map (λ part. part.now) parts.items ≡ slice_split (λ b. b == 32) line.now) }
{
    line.split(' ').collect(alloc)
}

/// The words between runs of spaces.
pub fn words_of(alloc: Global, line: &str) -> Result<Vec<&str>, OutOfMemory>
    ensures { IfOk result (λ words. map (λ word. word.now) words.items ≡ words_of line.now) }
{
    let parts = parts_of(alloc, line)?;
    let mut words = Vec::new(alloc);
    for part in parts.as_slice() {
        if !part.is_empty() {
            words.push(*part)?;
        }
    }
    Ok(words)
}
