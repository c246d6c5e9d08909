//! What of a file's terms is looked at. The rest is skipped: it is checked as all terms are, and not kept.

use rh_terms::Keep;

/// A part of a file, by what stands round it.
#[derive(Clone, Copy)]
pub enum Looked {
    /// The file.
    File,
    /// A node's configuration.
    Node,
    /// The kernel's parameters.
    Kernel,
    /// An application's keys, or what else has no value that is looked at.
    Keys,
}

impl Keep for Looked {
    ghost use Rattle.rh_cluster_lint.specs.Looked.{looked_behind};

    ghost behind_key = { looked_behind };

    fn behind(self, key: &str) -> Option<Looked> {
        match self {
            Looked::File => match key {
                "node" => Some(Looked::Node),
                "application" => Some(Looked::Keys),
                _ => None,
            },
            Looked::Node => match key {
                "kernel" => Some(Looked::Kernel),
                _ => None,
            },
            Looked::Kernel => match key {
                "sync_nodes_timeout" => Some(Looked::Keys),
                _ => None,
            },
            Looked::Keys => None,
        }
    }
}
