//! Copies and equality, of values and of lists of them.

ghost use Rattle.std.specs.Prelude.{◌≡◌, ◌↔◌, IsTrue, IfOk};

use crate::memory::OutOfMemory;
use std::alloc::Global;

/// What can be copied into memory of its own.
pub trait Duplicate {
    /// An equal one in memory of its own.
    fn copy(&self, alloc: Global) -> Result<Self, OutOfMemory>
        ensures { IfOk result (λ copy. copy ≡ self.now) };
}

/// What can be compared with its like.
pub trait Same {
    /// Are the two equal?
    fn same(&self, other: &Self) -> bool
        ensures { IsTrue result ↔ (self.now ≡ other.now) };
}

impl Same for bool {
    fn same(&self, other: &bool) -> bool
        ensures { IsTrue result ↔ (self.now ≡ other.now) }
    {
        *self == *other
    }
}

impl<A: Same, B: Same> Same for (A, B) {
    fn same(&self, other: &(A, B)) -> bool
        ensures { IsTrue result ↔ (self.now ≡ other.now) }
    {
        self.0.same(&other.0) && self.1.same(&other.1)
    }
}

/// Equal ones in memory of their own, in the same order.
pub fn copies_of<T: Duplicate + Drop>(alloc: Global, items: &[T]) -> Result<Vec<T>, OutOfMemory>
    ensures { IfOk result (λ copies. copies.items ≡ items.now) }
{
    let mut copies = Vec::with_capacity(alloc, items.len())?;
    'items: for item in items {
        copies.push(item.copy(alloc)?)?;
    }
    Ok(copies)
}

/// Are these equal ones in the same order?
pub fn are_same<T: Same>(these: &[T], those: &[T]) -> bool
    ensures { IsTrue result ↔ (these.now ≡ those.now) }
{
    if these.len() != those.len() {
        return false;
    }
    'items: for (index, item) in these.iter().enumerate() {
        if !item.same(&those[index]) {
            return false;
        }
    }
    true
}
