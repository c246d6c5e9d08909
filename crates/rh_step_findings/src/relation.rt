//! How another node stands to a node and an application.

/// How another node stands to a node and an application.
#[derive(Clone, Copy, Debug, PartialEq, Eq)]
pub enum Relation {
    /// It is of an earlier group, and is waited for.
    BetterIdle,
    /// It is of the same group, and is waited for.
    TupleIdle,
    /// It is of a later group, and is waited for.
    WorseIdle,
    /// It sees the node, may run the application, and hasn't started it.
    Idle,
    /// It may run the application, and holds it ready.
    Ready,
    /// It isn't in the list, is up and takes part in distributed applications.
    Unlisted,
    /// It is of the best group, too.
    Companion,
    /// It is of the best group, too, and the application isn't started there at this step.
    Bystander,
    /// It holds the application ready before the step, and ranks as high at least.
    Holder,
}
