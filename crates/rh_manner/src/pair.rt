//! A reader and a writer as one device.

ghost use Rattle.std.specs.Prelude.{◌≡◌};
ghost use Rattle.rh_manner.specs.Pairs.{given_by, unread_by, taken_by, written_by};

use rh_devices::{Failed, Sink, Source};

/// A reader and a writer as one device with both directions. A call of one of them leaves the other as it is.
#[derive(Drop)]
pub struct Pair<S, K> {
    reader: S,
    writer: K,
}

impl<S, K> Pair<S, K> {
    /// This reader with this writer.
    pub fn new(reader: S, writer: K) -> Pair<S, K>
        ensures { result ≡ record { reader = reader; writer = writer } }
    {
        Pair { reader, writer }
    }
}

impl<S: Source, K> Source for Pair<S, K> {
    ghost gives = { given_by S.gives };

    ghost fails = { unread_by S.fails };

    fn ask(&mut self, buffer: &mut [u8]) -> Result<usize, Failed> {
        self.reader.ask(buffer)
    }
}

impl<S, K: Sink> Sink for Pair<S, K> {
    ghost takes = { taken_by K.takes };

    ghost flushes = { written_by K.flushes };

    ghost fails = { written_by K.fails };

    fn offer(&mut self, bytes: &[u8]) -> Result<usize, Failed> {
        self.writer.offer(bytes)
    }

    fn flush(&mut self) -> Result<(), Failed> {
        self.writer.flush()
    }
}
