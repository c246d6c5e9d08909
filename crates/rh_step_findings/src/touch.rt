//! A node and an application that a step touches.

use rh_model::{App, Node};

/// What comes of it where a live OTP looks for the node of an application, each as the kinds of findings ask it first.
#[derive(Clone, Copy, Debug, PartialEq, Eq)]
pub struct Trial {
    /// The node may run it and waits for others, and one that may run it hasn't started it.
    pub waits: bool,
    /// It is started at the node, which may not run it, and runs nowhere else.
    pub forbidden: bool,
    /// It runs behind the best group, of which no node starts it, and the node isn't of that group.
    pub below: bool,
    /// It runs behind the best group, and the node is of that group.
    pub back: bool,
    /// It is placed at the node, behind a tuple.
    pub weighs: bool,
}

/// A node and an application of which some kind of finding may speak, with what the kinds ask of them first.
#[derive(Clone, Copy, Debug, PartialEq, Eq)]
pub struct Touch {
    pub node: Node,
    pub app: App,
    /// The event names both, and doesn't start the application.
    pub named: bool,
    pub trial: Trial,
    /// It is started there at this step.
    pub starts: bool,
    /// And was stopped.
    pub quiet: bool,
    /// The node comes up and boots it, and it needs others.
    pub needs: bool,
    /// The node comes up and boots it, and it has start phases.
    pub phases: bool,
    /// It has start phases, and is started or permitted by hand.
    pub helped: bool,
    /// It fails over to the node, and needs others.
    pub goes: bool,
}
