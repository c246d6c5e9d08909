//! What a sweep writes that other programs write, too: those run over bytes in memory.

ghost use Rattle.std.specs.Prelude.{◌≡◌, ◌≤◌, length, false};
ghost use Rattle.rh_devices.specs.Devices.{input_limit};
ghost use Rattle.rh_run.specs.RunText.{Broke};
ghost use Rattle.rh_json.specs.CheckJson.{check_json};
ghost use Rattle.rh_json.specs.RunJson.{run_json};
ghost use Rattle.rh_json.specs.Parts.{part_ended};

use crate::checking::check_json;
use crate::running::run_json;
use rh_devices::{Bytes, Sink, Watched, WriteFault};
use rh_rules::Pick;
use rh_run::RunFault;
use std::alloc::Global;

// Whether the text of a program was written whole, by how the program ended.
fn part_ended(ended: Result<(), RunFault>) -> Result<(), WriteFault>
    ensures { result ≡ part_ended ended }
{
    match ended {
        Err(RunFault::Write) => Err(WriteFault::Failed),
        Err(RunFault::OutOfMemory) => Err(WriteFault::OutOfMemory),
        _ => Ok(()),
    }
}

/// Writes the cluster of an input, or why it has none.
pub fn write_check<K: Sink>(
    alloc: Global,
    input: &[u8],
    writer: &mut Watched<K>,
) -> Result<(), WriteFault>
    requires writer { writer.old.failed ≡ false }
    requires limit { length input.now ≤ input_limit }
    ensures { Broke K.takes K.fails result (check_json input.now) writer.old writer.new }
{
    let mut reader = Watched::new(Bytes::new(input));
    part_ended(check_json(alloc, &mut reader, writer))
}

/// Writes the cluster of an input, and the answers to its commands.
pub fn write_run<K: Sink>(
    alloc: Global,
    input: &[u8],
    writer: &mut Watched<K>,
    pick: Pick,
) -> Result<(), WriteFault>
    requires writer { writer.old.failed ≡ false }
    requires limit { length input.now ≤ input_limit }
    ensures { Broke K.takes K.fails result (run_json input.now pick) writer.old writer.new }
{
    let mut reader = Watched::new(Bytes::new(input));
    part_ended(run_json(alloc, &mut reader, writer, pick))
}
