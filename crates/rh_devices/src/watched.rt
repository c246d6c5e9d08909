//! Devices that know whether they have failed.

ghost use Rattle.std.specs.Prelude.{◌≡◌, ◌<◌, ◌≤◌, length, take, false, ◌||◌, IfOk, OnOk, OnErr};
ghost use Rattle.std.specs.Result.{is_err};

use crate::device::{Failed, Sink, Source};

/// A device, with a note whether a call of this wrapper has answered that it failed.
#[derive(Drop)]
pub struct Watched<D> {
    inner: D,
    failed: bool,
}

impl<D> Watched<D> {
    /// A device that hasn't failed.
    pub fn new(inner: D) -> Watched<D>
        ensures { result ≡ record { inner = inner; failed = false } }
    {
        Watched {
            inner,
            failed: false,
        }
    }

    /// Whether a call has failed.
    pub fn failed(&self) -> bool
        ensures { result ≡ self.now.failed }
    {
        self.failed
    }

    /// The device itself.
    pub fn into_inner(self) -> D
        ensures { result ≡ self.inner }
    {
        self.inner
    }
}

impl<S: Source> Source for Watched<S> {
    ghost gives = { λ before after bytes. S.gives before.inner after.inner bytes };

    ghost fails = { λ before after. S.fails before.inner after.inner };

    fn ask(&mut self, buffer: &mut [u8]) -> Result<usize, Failed>
        requires room { 0 < length buffer.old }
        ensures bound { IfOk result (λ n. n ≤ length buffer.new) }
        ensures gives { IfOk result
            (λ n. S.gives self.old.inner self.new.inner (take n buffer.new)) }
        ensures fails { OnErr result (S.fails self.old.inner self.new.inner) }
        ensures failed { self.new.failed ≡ (self.old.failed || is_err result) }
    {
        let result = self.inner.ask(buffer);
        if result.is_err() {
            self.failed = true;
        }
        result
    }
}

impl<K: Sink> Sink for Watched<K> {
    ghost takes = { λ before after bytes. K.takes before.inner after.inner bytes };

    ghost flushes = { λ before after. K.flushes before.inner after.inner };

    ghost fails = { λ before after. K.fails before.inner after.inner };

    fn offer(&mut self, bytes: &[u8]) -> Result<usize, Failed>
        requires some { 0 < length bytes.now }
        ensures some { IfOk result (λ n. 0 < n) }
        ensures bound { IfOk result (λ n. n ≤ length bytes.now) }
        ensures takes { IfOk result
            (λ n. K.takes self.old.inner self.new.inner (take n bytes.now)) }
        ensures fails { OnErr result (K.fails self.old.inner self.new.inner) }
        ensures failed { self.new.failed ≡ (self.old.failed || is_err result) }
    {
        let result = self.inner.offer(bytes);
        if result.is_err() {
            self.failed = true;
        }
        result
    }

    fn flush(&mut self) -> Result<(), Failed>
        ensures flushes { OnOk result (K.flushes self.old.inner self.new.inner) }
        ensures fails { OnErr result (K.fails self.old.inner self.new.inner) }
        ensures failed { self.new.failed ≡ (self.old.failed || is_err result) }
    {
        let result = self.inner.flush();
        if result.is_err() {
            self.failed = true;
        }
        result
    }
}
