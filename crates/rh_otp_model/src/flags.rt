//! Which applications, of all.

ghost use Rattle.std.specs.Prelude.{◌≡◌, ◌≤◌, IfOk, false, length, slice_set, replicate};
ghost use Rattle.rh_otp_model.specs.Flags.{flag, has_any};

use rh_base::OutOfMemory;
use rh_model::{App, MAX_APPS};
use std::alloc::Global;
use std::marker::Model;
use std::sync::Arc;

/// For each application, by its number, yes or no. Copies share their memory.
#[derive(Drop)]
pub struct Flags {
    items: Arc<Vec<bool>>,
}

/// Contracts see `Flags` as their list.
impl Model for Flags {
    ghost use Rattle.std.specs.Prelude.{◌≤◌, length, List, Bool};
    ghost use Rattle.rh_model.specs.declared.limits.TheConstants.{MAX_APPS};

    ghost Value = { List Bool };

    ghost view = { λ f. f.items.value.items };

    ghost invariant = { λ f. length f.items.value.items ≤ MAX_APPS };
}

impl Flags {
    /// These.
    pub fn of(alloc: Global, items: Vec<bool>) -> Result<Flags, OutOfMemory>
        requires { length items.items ≤ MAX_APPS }
        ensures { IfOk result (λ flags. flags ≡ items.items) }
    {
        let items = Arc::new(alloc, items)?;
        Ok(Flags { items })
    }

    /// As many, none of which is set.
    pub fn none(alloc: Global, count: usize) -> Result<Flags, OutOfMemory>
        requires { count ≤ MAX_APPS }
        ensures { IfOk result (λ flags. flags ≡ replicate count false) }
    {
        Flags::of(alloc, vec![in alloc; false; count]?)
    }

    /// As a list.
    pub fn as_slice(&self) -> &[bool]
        ensures flags { result.now ≡ self.now }
        ensures few { length result.now ≤ MAX_APPS }
    {
        self.items.as_slice()
    }

    /// The same, in the same memory. The error says that there are too many who share it.
    pub fn share(&self) -> Result<Flags, OutOfMemory>
        ensures { IfOk result (λ flags. flags ≡ self.now) }
    {
        let items = Arc::try_clone(&self.items)?;
        Ok(Flags { items })
    }

    /// Is the application's set? One that isn't among them has none.
    pub fn has(&self, app: App) -> bool
        ensures { result ≡ flag self.now app }
    {
        self.as_slice()
            .get(app.0 as usize)
            .copied()
            .unwrap_or(false)
    }

    /// Is any set?
    pub fn has_any(&self) -> bool
        ensures { result ≡ has_any self.now }
    {
        self.as_slice().iter().any(|set| *set)
    }

    /// With the application's set or not, in memory of its own.
    pub fn with(&self, alloc: Global, app: App, set: bool) -> Result<Flags, OutOfMemory>
        ensures { IfOk result (λ flags. flags ≡ slice_set self.now app.0 set) }
    {
        let mut items = Vec::from_slice(alloc, self.as_slice())?;
        if (app.0 as usize) < items.len() {
            items[app.0 as usize] = set;
        }
        Flags::of(alloc, items)
    }
}
