//! The platform names of a file.

use crate::name_set::NameSet;

/// The platform names of a file.
#[derive(Drop)]
pub struct Platforms {
    /// The first [`MAX_PLATFORMS`](crate::MAX_PLATFORMS) different names of the file's platform lists.
    pub first: NameSet,
    /// The names of the lists that hold atoms alone.
    pub known: NameSet,
}
