//! The numbers of nodes and applications.

/// The number of a node, in the order of the cluster file, from 0.
#[derive(Clone, Copy, Debug, PartialEq, Eq)]
pub struct Node(pub u8);

/// The number of an application, in the order of the cluster file, from 0.
#[derive(Clone, Copy, Debug, PartialEq, Eq)]
pub struct App(pub u8);
