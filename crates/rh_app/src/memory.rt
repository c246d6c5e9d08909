//! A run over memory, which never fails.

ghost use Rattle.std.specs.Prelude.{◌≡◌, ◌≤◌, ◌<◌, length, [], IfOk, Err};
ghost use Rattle.rh_devices.specs.Devices.{input_limit};
ghost use Rattle.rh_run.specs.Faults.{ended};
ghost use Rattle.rh_run.specs.RunText.{run_text, run_end};

use rh_base::OutOfMemory;
use rh_devices::{Bytes, Text, Watched};
use rh_rules::Pick;
use rh_run::{RunFault, run};
use std::alloc::Global;

/// What a run over memory wrote, and how it ended.
#[derive(Drop)]
pub struct InMemory {
    /// All that it wrote.
    pub text: Vec<u8>,
    /// How it ended: never at a failed device, since memory doesn't fail; at `Read` where the input is too long.
    pub end: Result<(), RunFault>,
}

/// Answers the commands of an input in memory: the text that a run owes for it, and how it ends.
///
/// # Errors
/// A growth was refused.
pub fn run_in_memory(alloc: Global, input: &[u8], pick: Pick) -> Result<InMemory, OutOfMemory>
    ensures text { IfOk result
        (λ answer. length input.now ≤ input_limit → answer.text.items ≡ run_text input.now pick) }
    ensures end { IfOk result
        (λ answer. length input.now ≤ input_limit → answer.end ≡ ended (run_end input.now)) }
    ensures long { IfOk result (λ answer. input_limit < length input.now → (answer.text.items ≡ [])
        × (answer.end ≡ Err RunFault.Read)) }
{
    let mut reader = Watched::new(Bytes::new(input));
    let mut writer = Watched::new(Text::new(alloc));
    let end = unless_memory(run(alloc, &mut reader, &mut writer, pick))?;
    match writer.into_inner().into_bytes() {
        Some(text) => Ok(InMemory { text, end }),
        None => Err(OutOfMemory),
    }
}

// How a program ended, unless a growth was refused.
fn unless_memory(end: Result<(), RunFault>) -> Result<Result<(), RunFault>, OutOfMemory>
    ensures same { IfOk result (λ told. told ≡ end) }
    ensures other { IfOk result (λ told. told ≡ Err RunFault.OutOfMemory → ⊥) }
{
    match end {
        Err(RunFault::OutOfMemory) => Err(OutOfMemory),
        _ => Ok(end),
    }
}
