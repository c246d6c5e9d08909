//! Who is told how far a search is.

/// Who is told how far a search is, while it goes on. What comes of that has no part in what is answered.
pub trait Watch {
    /// So many states were found so far, and so many events lead to the last one of them.
    fn tell(&mut self, states: usize, deepest: u32);

    /// The search has ended.
    fn end(&mut self);
}

/// Nobody, who is told nothing.
#[derive(Clone, Copy)]
pub struct Nobody;

impl Watch for Nobody {
    fn tell(&mut self, _states: usize, _deepest: u32) {}

    fn end(&mut self) {}
}
