//! How a dependency stands at a node.

/// How an application that another one needs stands at a node that boots both.
#[derive(Clone, Copy, Debug, PartialEq, Eq)]
pub enum Lack {
    /// It isn't distributed, is booted before the other one, and is forbidden there.
    Forbidden,
    /// It isn't booted before the other one.
    Later,
    /// It is distributed, and isn't to run there.
    Elsewhere,
    /// It doesn't run there.
    Gone,
}
