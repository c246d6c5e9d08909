//! Reading all there is, and writing all of a text.

ghost use Rattle.std.specs.Prelude.{◌≡◌, ◌≤◌, length, true, false, IfOk, OnOk, OnErr, IfErr};
ghost use Rattle.rh_devices.specs.Devices.{input_limit, Passed, PassedAll, WhyUnread, FrontBroken};

use crate::device::{Sink, Source};
use crate::fault::{ReadFault, WriteFault};
use crate::watched::Watched;
use std::alloc::Global;

/// Most bytes that a program reads.
pub const INPUT_LIMIT: usize = 16_777_216;

/// Most calls in which it reads them.
const CALL_LIMIT: u32 = 33_554_432;

/// All bytes of a reader.
pub fn read_input<S: Source>(alloc: Global, reader: &mut Watched<S>) -> Result<Vec<u8>, ReadFault>
    requires reader { reader.old.failed ≡ false }
    ensures bytes { IfOk result
        (λ input. PassedAll S.gives reader.old.inner reader.new.inner input.items) }
    ensures limit { IfOk result (λ input. length input.items ≤ input_limit) }
    ensures ok { OnOk result (reader.new.failed ≡ false) }
    ensures why { IfErr result (WhyUnread S.gives S.fails reader.old reader.new) }
{
    let mut input = Vec::new(alloc);
    let mut buffer = [0u8; 4096];
    for _ in 0..CALL_LIMIT {
        match reader.ask(&mut buffer) {
            Err(_) => return Err(ReadFault::Failed),
            Ok(0) => return Ok(input),
            Ok(count) => {
                if count > INPUT_LIMIT - input.len() {
                    return Err(ReadFault::TooLong);
                }
                input.extend_from_slice(&buffer[..count])?;
            }
        }
    }
    Err(ReadFault::TooLong)
}

/// Writes a whole text.
pub fn write_text<K: Sink>(writer: &mut Watched<K>, text: &[u8]) -> Result<(), WriteFault>
    requires { writer.old.failed ≡ false }
    ensures whole { OnOk result (Passed K.takes writer.old.inner writer.new.inner text.now) }
    ensures ok { OnOk result (writer.new.failed ≡ false) }
    ensures front { OnErr result
        (FrontBroken K.takes K.fails writer.old.inner writer.new.inner text.now) }
    ensures err { OnErr result (writer.new.failed ≡ true) }
    ensures only { IfErr result (λ fault. fault ≡ WriteFault.Failed) }
{
    let mut at = 0;
    while at < text.len() {
        match writer.offer(&text[at..]) {
            Err(_) => return Err(WriteFault::Failed),
            Ok(count) => at += count,
        }
    }
    Ok(())
}
