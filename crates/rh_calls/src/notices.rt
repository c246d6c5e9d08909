//! The notices of a step.

ghost use Rattle.std.specs.Prelude.{◌≡◌, ◌↔◌, IsTrue, IfOk};

use rh_base::{OutOfMemory, are_same};
use rh_rules::Notice;
use std::alloc::Global;
use std::marker::Model;
use std::sync::Arc;

/// The notices of a step, in order, which lie in memory once for all who share them.
#[derive(Drop)]
pub struct Notices {
    items: Arc<Vec<Notice>>,
}

impl Model for Notices {
    ghost use Rattle.std.specs.Prelude.{List};
    ghost use Rattle.rh_rules.specs.declared.notice.Notice.{Notice};

    ghost Value = { List Notice };

    ghost view = { λ n. n.items.value.items };
}

impl Notices {
    /// These notices.
    pub fn of(alloc: Global, items: Vec<Notice>) -> Result<Notices, OutOfMemory>
        ensures { IfOk result (λ notices. notices ≡ items.items) }
    {
        let mut items = items;
        items.shrink_to_fit();
        let items = Arc::new(alloc, items)?;
        Ok(Notices { items })
    }

    /// The notices.
    pub fn as_slice(&self) -> &[Notice]
        ensures { result.now ≡ self.now }
    {
        self.items.as_slice()
    }

    /// The same notices, which lie in memory once. The error says that there are too many who share them.
    pub fn share(&self) -> Result<Notices, OutOfMemory>
        ensures { IfOk result (λ copy. copy ≡ self.now) }
    {
        let items = Arc::try_clone(&self.items)?;
        Ok(Notices { items })
    }

    /// Whether the two are equal.
    pub fn same(&self, other: &Notices) -> bool
        ensures { IsTrue result ↔ (self.now ≡ other.now) }
    {
        are_same(self.as_slice(), other.as_slice())
    }
}
