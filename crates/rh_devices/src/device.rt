//! What a program reads from, and what it writes to.

ghost use Rattle.std.specs.Prelude.{◌<◌, ◌≤◌, ℕ, List, length, take, IfOk, OnOk, OnErr};

/// A device has failed.
#[derive(Drop)]
pub struct Failed;

/// What a program reads from.
pub trait Source {
    // It was asked in the first state, is in the second now, and gave these bytes; none only where none are left.
    ghost gives: { Self → Self → List ℕ → Type 0 };

    // It was asked in the first state, is in the second now, and failed.
    ghost fails: { Self → Self → Type 0 };

    /// Puts some of the bytes that are left at the front of the buffer, and says how many.
    fn ask(&mut self, buffer: &mut [u8]) -> Result<usize, Failed>
        requires room { 0 < length buffer.old }
        ensures bound { IfOk result (λ n. n ≤ length buffer.new) }
        ensures gives { IfOk result (λ n. gives self.old self.new (take n buffer.new)) }
        ensures fails { OnErr result (fails self.old self.new) };
}

/// What a program writes to.
pub trait Sink {
    // It was offered bytes in the first state, is in the second now, and took these.
    ghost takes: { Self → Self → List ℕ → Type 0 };

    // It was flushed in the first state, and is in the second now: whatever it took is where it belongs.
    ghost flushes: { Self → Self → Type 0 };

    // It was offered bytes or flushed in the first state, is in the second now, and failed.
    ghost fails: { Self → Self → Type 0 };

    /// Takes at least one of these bytes, from the first on, and says how many.
    fn offer(&mut self, bytes: &[u8]) -> Result<usize, Failed>
        requires some { 0 < length bytes.now }
        ensures some { IfOk result (λ n. 0 < n) }
        ensures bound { IfOk result (λ n. n ≤ length bytes.now) }
        ensures takes { IfOk result (λ n. takes self.old self.new (take n bytes.now)) }
        ensures fails { OnErr result (fails self.old self.new) };

    /// Sees that all that was taken is where it belongs.
    fn flush(&mut self) -> Result<(), Failed>
        ensures flushes { OnOk result (flushes self.old self.new) }
        ensures fails { OnErr result (fails self.old self.new) };
}
