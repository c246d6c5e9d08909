//! A device that gives a few bytes a call, and notes what had been said to it by then.

ghost use Rattle.std.specs.Prelude.{⊤};

use rh_devices::{Failed, Sink, Source};
use std::alloc::Global;

/// Gives at most so many bytes a call, and no more than one line; takes three bytes a call; and fails at one of the calls.
#[derive(Drop)]
pub struct Partner<'a> {
    bytes: &'a [u8],
    piece: usize,
    until_failure: Option<u32>,
    /// All that it took.
    pub taken: Vec<u8>,
    /// How much of that it had been flushed behind, each time that it was asked.
    pub due: Vec<usize>,
    flushed: usize,
    /// How often it was asked after it had said that nothing is left.
    pub late: u32,
    ended: bool,
}

impl<'a> Partner<'a> {
    /// Gives so many bytes a call, and never fails.
    pub fn new(alloc: Global, bytes: &'a [u8], piece: usize) -> Partner<'a> {
        Partner {
            bytes,
            piece,
            until_failure: None,
            taken: Vec::new(alloc),
            due: Vec::new(alloc),
            flushed: 0,
            late: 0,
            ended: false,
        }
    }

    /// Gives so many bytes a call, and fails at this call, counted from 0 over all kinds of calls.
    pub fn failing_at(alloc: Global, bytes: &'a [u8], piece: usize, call: u32) -> Partner<'a> {
        let mut partner = Partner::new(alloc, bytes, piece);
        partner.until_failure = Some(call);
        partner
    }

    // Is this the call at which it fails?
    fn fails(&mut self) -> bool {
        let fails = self.until_failure == Some(0);
        self.until_failure = self.until_failure.map(|calls| calls.saturating_sub(1));
        fails
    }
}

// How many bytes the first line has.
fn line_len(bytes: &[u8]) -> usize {
    match bytes.iter().position(|byte| *byte == b'\n') {
        Some(at) => at.saturating_add(1),
        None => bytes.len(),
    }
}

impl<'a> Source for Partner<'a> {
    ghost gives = { λ before after bytes. ⊤ };

    ghost fails = { λ before after. ⊤ };

    fn ask(&mut self, buffer: &mut [u8]) -> Result<usize, Failed> {
        if self.fails() {
            return Err(Failed);
        }
        if self.ended {
            self.late = self.late.saturating_add(1);
        }
        if self.due.push(self.flushed).is_err() {
            return Err(Failed);
        }
        let count = self
            .piece
            .min(buffer.len())
            .min(line_len(self.bytes))
            .min(self.bytes.len());
        let (front, rest) = self.bytes.split_at(count);
        buffer[..count].copy_from_slice(front);
        self.bytes = rest;
        self.ended = count == 0;
        Ok(count)
    }
}

impl<'a> Sink for Partner<'a> {
    ghost takes = { λ before after bytes. ⊤ };

    ghost flushes = { λ before after. ⊤ };

    ghost fails = { λ before after. ⊤ };

    fn offer(&mut self, bytes: &[u8]) -> Result<usize, Failed> {
        if self.fails() {
            return Err(Failed);
        }
        let count = bytes.len().min(3);
        match self.taken.extend_from_slice(&bytes[..count]) {
            Ok(()) => Ok(count),
            Err(_) => Err(Failed),
        }
    }

    fn flush(&mut self) -> Result<(), Failed> {
        if self.fails() {
            return Err(Failed);
        }
        self.flushed = self.taken.len();
        Ok(())
    }
}
