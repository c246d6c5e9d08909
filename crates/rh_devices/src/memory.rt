//! Devices in memory, which never fail.

ghost use Rattle.std.specs.Prelude.{◌≡◌, [], false, IfSome};
ghost use Rattle.rh_devices.specs.Memory.{GivesFront, Holds};

use crate::device::{Failed, Sink, Source};
use std::alloc::Global;

/// Bytes in memory as what a program reads from.
#[derive(Drop)]
pub struct Bytes<'a> {
    rest: &'a [u8],
}

impl<'a> Bytes<'a> {
    /// All of these bytes are left.
    pub fn new(rest: &'a [u8]) -> Bytes<'a>
        ensures { result.rest.now ≡ rest.now }
    {
        Bytes { rest }
    }
}

impl<'a> Source for Bytes<'a> {
    ghost gives = { λ before after bytes. GivesFront before.rest.now after.rest.now bytes };

    ghost fails = { λ before after. ⊥ };

    fn ask(&mut self, buffer: &mut [u8]) -> Result<usize, Failed> {
        let count = self.rest.len().min(buffer.len());
        let (front, rest) = self.rest.split_at(count);
        buffer[..count].copy_from_slice(front);
        self.rest = rest;
        Ok(count)
    }
}

/// Memory as what a program writes to. Where a growth is refused, that is noted, and the text is of no use.
#[derive(Drop)]
pub struct Text {
    bytes: Vec<u8>,
    lacked: bool,
}

impl Text {
    /// An empty text.
    pub fn new(alloc: Global) -> Text
        ensures empty { result.bytes.items ≡ [] }
        ensures whole { result.lacked ≡ false }
    {
        Text {
            bytes: Vec::new(alloc),
            lacked: false,
        }
    }

    /// All that was written, if no growth was refused.
    pub fn into_bytes(self) -> Option<Vec<u8>>
        ensures whole { IfSome result
            (λ bytes. (self.lacked ≡ false) × (bytes.items ≡ self.bytes.items)) }
    {
        if self.lacked { None } else { Some(self.bytes) }
    }
}

impl Sink for Text {
    ghost takes = { λ before after bytes.
        Holds before.lacked after.lacked before.bytes.items after.bytes.items bytes };

    ghost flushes = { λ before after. after ≡ before };

    ghost fails = { λ before after. ⊥ };

    fn offer(&mut self, bytes: &[u8]) -> Result<usize, Failed> {
        if self.bytes.extend_from_slice(bytes).is_err() {
            self.lacked = true;
        }
        Ok(bytes.len())
    }

    fn flush(&mut self) -> Result<(), Failed> {
        Ok(())
    }
}
