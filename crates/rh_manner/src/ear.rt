//! What is heard, and cut into whole lines.

ghost use Rattle.std.specs.Prelude.{◌≡◌, ◌<◌, ◌≤◌, ◌-◌, ◌++◌, [], drop, get_or, length, false, IfOk};
ghost use Rattle.rh_devices.specs.Devices.{input_limit};
ghost use Rattle.rh_manner.specs.Hearing.{AreWhole, Hears, has_end};

use crate::fault::DialogueFault;
use rh_devices::{Sink, Source, Watched};
use std::alloc::{AllocError, Global};
use std::mem;

// Most bytes that a program reads.
const INPUT_LIMIT: usize = 16_777_216;

/// What was heard of a line that isn't whole yet, and how many bytes were heard in all.
#[derive(Drop)]
pub struct Ear {
    pub rest: Vec<u8>,
    pub count: usize,
}

/// What came of hearing once.
#[derive(Drop)]
pub enum Hearing {
    /// These lines are whole now.
    Lines(Vec<u8>),
    /// The input is at its end.
    End,
}

impl Ear {
    /// Nothing was heard.
    pub fn new(alloc: Global) -> Ear
        ensures rest { result.rest.items ≡ [] }
        ensures count { result.count ≡ 0 }
    {
        Ear {
            rest: Vec::new(alloc),
            count: 0,
        }
    }

    /// Flushes the device and then asks it once. The answer is the lines that are whole now, or that the input is at its end.
    pub fn hear<D: Source + Sink>(
        &mut self,
        alloc: Global,
        device: &mut Watched<D>,
    ) -> Result<Hearing, DialogueFault>
        requires device { device.old.failed ≡ false }
        requires count { self.old.count ≤ input_limit }
        requires rest { has_end self.old.rest.items ≡ false }
        ensures { Hears D.Source.gives D.Source.fails D.Sink.flushes D.Sink.fails result device.old
            device.new self.old self.new }
    {
        if device.flush().is_err() {
            return Err(DialogueFault::Unsaid);
        }
        let mut buffer = [0u8; 4096];
        match device.ask(&mut buffer) {
            Err(_) => Err(DialogueFault::Unheard),
            Ok(0) => Ok(Hearing::End),
            Ok(count) => {
                if count > INPUT_LIMIT - self.count {
                    return Err(DialogueFault::TooLong);
                }
                self.count += count;
                let lines = self.whole_lines(alloc, &buffer[..count])?;
                Ok(Hearing::Lines(lines))
            }
        }
    }

    // The lines that these bytes make whole. What stands behind them is kept.
    fn whole_lines(&mut self, alloc: Global, bytes: &[u8]) -> Result<Vec<u8>, AllocError>
        requires rest { has_end self.old.rest.items ≡ false }
        ensures all { IfOk result
            (λ lines. self.old.rest.items ++ bytes.now ≡ lines.items ++ self.new.rest.items) }
        ensures whole { IfOk result (λ lines. AreWhole lines.items) }
        ensures rest { IfOk result (λ lines. has_end self.new.rest.items ≡ false) }
        ensures count { self.new.count ≡ self.old.count }
    {
        let end = end_of_lines(bytes);
        if end == 0 {
            self.rest.extend_from_slice(bytes)?;
            return Ok(Vec::new(alloc));
        }
        self.rest.extend_from_slice(&bytes[..end])?;
        let mut rest = Vec::new(alloc);
        rest.extend_from_slice(&bytes[end..])?;
        Ok(mem::replace(&mut self.rest, rest))
    }
}

// The place behind the last LF, or 0 where there is none.
fn end_of_lines(bytes: &[u8]) -> usize
    ensures within { result ≤ length bytes.now }
    ensures last { 0 < result → get_or bytes.now (result - 1) 0 ≡ 10 }
    ensures behind { has_end (drop result bytes.now) ≡ false }
{
    let mut end = bytes.len();
    while end > 0 && bytes[end - 1] != b'\n' {
        end -= 1;
    }
    end
}
