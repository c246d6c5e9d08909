//! A reader and a writer over memory that fail when they are told to.

use std::alloc::Global;
use std::io;
use std::io::{Read, Write};

/// Gives at most so many bytes a call, and fails at one of the calls.
#[derive(Drop)]
pub struct Source<'a> {
    bytes: &'a [u8],
    piece: usize,
    until_failure: Option<u32>,
}

impl<'a> Source<'a> {
    /// Gives all bytes that a call asks for.
    pub fn of(bytes: &'a [u8]) -> Source<'a> {
        Source {
            bytes,
            piece: usize::MAX,
            until_failure: None,
        }
    }

    /// Gives one byte a call.
    pub fn byte_by_byte(bytes: &'a [u8]) -> Source<'a> {
        Source {
            bytes,
            piece: 1,
            until_failure: None,
        }
    }

    /// Gives one byte a call, so many times, and fails once.
    pub fn failing_after(bytes: &'a [u8], calls: u32) -> Source<'a> {
        Source {
            bytes,
            piece: 1,
            until_failure: Some(calls),
        }
    }
}

impl<'a> Read for Source<'a> {
    fn read(&mut self, buf: &mut [u8]) -> io::Result<usize> {
        if self.until_failure == Some(0) {
            self.until_failure = None;
            return Err(io::ErrorKind::Interrupted.into());
        }
        self.until_failure = self.until_failure.map(|calls| calls.saturating_sub(1));
        let count = self.piece.min(buf.len()).min(self.bytes.len());
        let (front, rest) = self.bytes.split_at(count);
        buf[..count].copy_from_slice(front);
        self.bytes = rest;
        Ok(count)
    }
}

/// How a [`Sink`] fails.
#[derive(Clone, Copy, Debug, PartialEq, Eq)]
pub enum Failure {
    /// A write answers an error.
    Error,
    /// A write takes none of the bytes.
    Full,
}

/// Takes at most so many bytes a call, and fails at one of the calls. It counts how often it was flushed.
#[derive(Drop)]
pub struct Sink {
    pub bytes: Vec<u8>,
    pub flushes: u32,
    piece: usize,
    until_failure: Option<u32>,
    failure: Failure,
}

impl Sink {
    /// Takes three bytes a call, and never fails.
    pub fn new(alloc: Global) -> Sink {
        Sink {
            bytes: Vec::new(alloc),
            flushes: 0,
            piece: 3,
            until_failure: None,
            failure: Failure::Error,
        }
    }

    /// Takes one byte a call, and never fails.
    pub fn byte_by_byte(alloc: Global) -> Sink {
        Sink {
            bytes: Vec::new(alloc),
            flushes: 0,
            piece: 1,
            until_failure: None,
            failure: Failure::Error,
        }
    }

    /// Takes three bytes a call, so many times, and fails once.
    pub fn failing_after(alloc: Global, calls: u32, failure: Failure) -> Sink {
        Sink {
            bytes: Vec::new(alloc),
            flushes: 0,
            piece: 3,
            until_failure: Some(calls),
            failure,
        }
    }
}

impl Write for Sink {
    fn write(&mut self, buf: &[u8]) -> io::Result<usize> {
        if self.until_failure == Some(0) {
            self.until_failure = None;
            return match self.failure {
                Failure::Error => Err(io::ErrorKind::Interrupted.into()),
                Failure::Full => Ok(0),
            };
        }
        self.until_failure = self.until_failure.map(|calls| calls.saturating_sub(1));
        let count = buf.len().min(self.piece);
        match self.bytes.extend_from_slice(&buf[..count]) {
            Ok(()) => Ok(count),
            Err(_) => Err(io::ErrorKind::OutOfMemory.into()),
        }
    }

    fn flush(&mut self) -> io::Result<()> {
        self.flushes = self.flushes.saturating_add(1);
        Ok(())
    }
}
