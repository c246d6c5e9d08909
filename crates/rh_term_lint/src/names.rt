//! The names that are read: a parameter or a key more is a variant, its word, and its place in a table. The law `names_are_read`
//! ties the tables to what `rh_cluster` reads.

ghost use Rattle.std.specs.Prelude.{◌≡◌};
ghost use Rattle.rh_term_lint.specs.Meant.{word_of};

/// A name that a cluster file is read for. All other sections, parameters of `kernel` and keys of an application are skipped.
#[derive(Clone, Copy, Debug, PartialEq, Eq)]
pub enum ReadName {
    /// The section `kernel` of a node (kernel(6)).
    Kernel,
    /// The section `rehearse` of a node (ours).
    Rehearse,
    /// The parameter `distributed` (kernel(6)).
    Distributed,
    /// The parameter `sync_nodes_mandatory` (kernel(6)).
    SyncNodesMandatory,
    /// The parameter `sync_nodes_optional` (kernel(6)).
    SyncNodesOptional,
    /// The parameter `sync_nodes_timeout` (kernel(6)).
    SyncNodesTimeout,
    /// The parameter `permissions` (kernel(6)).
    Permissions,
    /// The key `applications` of an application (app(4)).
    Applications,
    /// The key `mod` of an application (app(4)).
    Mod,
    /// The key `start_phases` of an application (app(4)).
    StartPhases,
}

impl ReadName {
    /// The name as a file has it: `sync_nodes_timeout`.
    pub fn word(self) -> &'static str
        ensures { result.now ≡ word_of self }
    {
        match self {
            ReadName::Kernel => "kernel",
            ReadName::Rehearse => "rehearse",
            ReadName::Distributed => "distributed",
            ReadName::SyncNodesMandatory => "sync_nodes_mandatory",
            ReadName::SyncNodesOptional => "sync_nodes_optional",
            ReadName::SyncNodesTimeout => "sync_nodes_timeout",
            ReadName::Permissions => "permissions",
            ReadName::Applications => "applications",
            ReadName::Mod => "mod",
            ReadName::StartPhases => "start_phases",
        }
    }
}

/// The sections of a node that are read.
pub const SECTIONS: [ReadName; 2] = [ReadName::Kernel, ReadName::Rehearse];

/// The parameters of `kernel` that are read.
pub const PARAMETERS: [ReadName; 5] = [
    ReadName::Distributed,
    ReadName::SyncNodesMandatory,
    ReadName::SyncNodesOptional,
    ReadName::SyncNodesTimeout,
    ReadName::Permissions,
];

/// The keys of an application that are read.
pub const KEYS: [ReadName; 3] = [ReadName::Applications, ReadName::Mod, ReadName::StartPhases];
