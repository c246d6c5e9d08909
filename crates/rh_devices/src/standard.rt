//! Readers and writers of the standard library as what a program reads from and writes to.

ghost use Rattle.std.specs.Prelude.{◌≡◌, IfOk, []};
ghost use Rattle.std.specs.Io.KnownBytes.{Keeps, Appends};
ghost use Rattle.std.specs.Io.Buffered.{writer_buffer, writer_contents, writer_inner};
ghost use Rattle.rh_devices.specs.Standard.{GivesKnown};

use crate::device::{Failed, Sink, Source};
use std::alloc::Global;
use std::io::{BufWriter, Read, Write};

/// A reader of the standard library. It fails at each error of that, an interrupted call among them.
#[derive(Drop)]
pub struct Reader<R> {
    inner: R,
}

impl<R> Reader<R> {
    /// This reader.
    pub fn new(inner: R) -> Reader<R>
        ensures { result ≡ record { inner = inner } }
    {
        Reader { inner }
    }
}

impl<R: Read> Source for Reader<R> {
    ghost gives = { λ before after bytes.
        GivesKnown (R.remaining before.inner) (R.remaining after.inner) bytes };

    ghost fails = { λ before after. Keeps (R.remaining before.inner) (R.remaining after.inner) };

    fn ask(&mut self, buffer: &mut [u8]) -> Result<usize, Failed> {
        match self.inner.read(buffer) {
            Ok(count) => Ok(count),
            Err(_) => Err(Failed),
        }
    }
}

/// A writer of the standard library. It fails at each error of that, and where bytes are offered and none is taken.
#[derive(Drop)]
pub struct Writer<W> {
    inner: W,
}

impl<W> Writer<W> {
    /// This writer.
    pub fn new(inner: W) -> Writer<W>
        ensures { result ≡ record { inner = inner } }
    {
        Writer { inner }
    }
}

impl<W: Write> Sink for Writer<W> {
    ghost takes = { λ before after bytes.
        Appends (W.contents before.inner) (W.contents after.inner) bytes };

    ghost flushes = { λ before after. Keeps (W.contents before.inner) (W.contents after.inner) };

    ghost fails = { λ before after. Keeps (W.contents before.inner) (W.contents after.inner) };

    fn offer(&mut self, bytes: &[u8]) -> Result<usize, Failed> {
        match self.inner.write(bytes) {
            Ok(0) => Err(Failed),
            Ok(count) => Ok(count),
            Err(_) => Err(Failed),
        }
    }

    fn flush(&mut self) -> Result<(), Failed> {
        match self.inner.flush() {
            Ok(()) => Ok(()),
            Err(_) => Err(Failed),
        }
    }
}

/// A writer of the standard library behind a buffer. What was flushed is in the writer itself.
#[derive(Drop)]
pub struct Buffered<W: Write + Drop> {
    buffered: BufWriter<W>,
}

impl<W: Write + Drop> Buffered<W> {
    /// This writer behind an empty buffer.
    pub fn new(alloc: Global, inner: W) -> Result<Buffered<W>, Failed>
        ensures inner { IfOk result (λ w. writer_inner w.buffered ≡ inner) }
        ensures empty { IfOk result (λ w. writer_buffer w.buffered ≡ []) }
    {
        match BufWriter::new(alloc, inner) {
            Ok(buffered) => Ok(Buffered { buffered }),
            Err(_) => Err(Failed),
        }
    }
}

impl<W: Write + Drop> Sink for Buffered<W> {
    ghost takes = { λ before after bytes. Appends (writer_contents W.contents before.buffered)
        (writer_contents W.contents after.buffered) bytes };

    ghost flushes = { λ before after. Keeps (writer_contents W.contents before.buffered)
        (writer_contents W.contents after.buffered) × (writer_buffer after.buffered ≡ []) };

    ghost fails = { λ before after. Keeps (writer_contents W.contents before.buffered)
        (writer_contents W.contents after.buffered) };

    fn offer(&mut self, bytes: &[u8]) -> Result<usize, Failed> {
        match self.buffered.write(bytes) {
            Ok(0) => Err(Failed),
            Ok(count) => Ok(count),
            Err(_) => Err(Failed),
        }
    }

    fn flush(&mut self) -> Result<(), Failed> {
        match self.buffered.flush() {
            Ok(()) => Ok(()),
            Err(_) => Err(Failed),
        }
    }
}
