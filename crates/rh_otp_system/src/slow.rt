//! What takes longer than messages do, and what is counted while they are delivered.

use rh_model::{App, Node};

/// What takes longer than messages do.
#[derive(Clone, Copy, Debug, PartialEq, Eq)]
pub enum Slow {
    /// `global` connects two nodes.
    Connect(Node, Node),
    /// A boot script begins.
    Boot(Node),
}

/// A node has answered another one's weight of an application, or, without one, its introduction.
#[derive(Clone, Copy, Debug, PartialEq, Eq)]
pub struct Answered {
    /// The one of the two that has the lower number.
    pub one: Node,
    /// The other.
    pub two: Node,
    pub app: Option<App>,
}
