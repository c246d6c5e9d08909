//! What of a file's terms is read. The rest is skipped: it is checked as all terms are, and not kept.

use crate::kernel::kernel_key;
use crate::keys::app_key;
use crate::sections::{SectionKey, section_key};
use rh_terms::Keep;

/// A part of a file, by what stands round it.
#[derive(Clone, Copy)]
pub enum Part {
    /// The file.
    File,
    /// A node's configuration.
    Node,
    /// The kernel's parameters.
    Kernel,
    /// An application's keys.
    App,
    /// A value that is read.
    Value,
}

impl Keep for Part {
    ghost use Rattle.rh_cluster.specs.Kept.{read_behind};

    ghost behind_key = { read_behind };

    fn behind(self, key: &str) -> Option<Part> {
        match self {
            Part::File => match key {
                "node" => Some(Part::Node),
                "application" => Some(Part::App),
                "profile" => Some(Part::Value),
                _ => None,
            },
            Part::Node => match section_key(key) {
                Some(SectionKey::Kernel) => Some(Part::Kernel),
                Some(SectionKey::Rehearse) => Some(Part::Value),
                None => None,
            },
            Part::Kernel => kernel_key(key).map(|_| Part::Value),
            Part::App => app_key(key).map(|_| Part::Value),
            Part::Value => Some(Part::Value),
        }
    }

    fn is_whole(self) -> bool {
        matches!(self, Part::Value)
    }
}
