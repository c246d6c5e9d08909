//! Names in the order in which they were met, each once.

ghost use Rattle.std.specs.Prelude.{◌≡◌, ◌↔◌, ◌<◌, [], ◌∷◌, ◌++◌, false, length, position, slice_get, Some, IfOk, IfSome, OnOk, OnErr, IsTrue};
ghost use Rattle.std.specs.List.{list_any};
ghost use Rattle.std.specs.Str.{bytes_eq};

use indexmap::IndexSet;
use rh_base::OutOfMemory;
use std::alloc::Global;
use std::marker::Model;

/// Different names, in the order in which they were added.
#[derive(Drop)]
pub struct NameSet {
    names: IndexSet<String>,
}

/// Contracts see a `NameSet` as the list of its names, each as its bytes.
impl Model for NameSet {
    ghost use Rattle.std.specs.Prelude.{List, ℕ, map};
    ghost use Rattle.std.specs.String.{string_bytes};

    ghost Value = { List (List ℕ) };

    ghost view = { λ s. map string_bytes s.names.keys };
}

impl NameSet {
    /// No names.
    pub fn new(alloc: Global) -> NameSet
        ensures { result ≡ [] }
    {
        NameSet {
            names: IndexSet::new(alloc),
        }
    }

    /// The number of names.
    pub fn len(&self) -> usize
        ensures { result ≡ length self.now }
    {
        self.names.len()
    }

    /// The name at this place, from 0.
    pub fn get(&self, index: usize) -> &str
        requires { index < length self.now }
        ensures { slice_get self.now index ≡ Some result.now }
    {
        self.names[index].as_str()
    }

    /// Is the name there?
    pub fn contains(&self, name: &str) -> bool
        ensures { result ≡ list_any (bytes_eq name.now) self.now }
    {
        self.names.contains(name)
    }

    /// The place of the name, from 0.
    pub fn index_of(&self, name: &str) -> Option<usize>
        ensures first { result ≡ position (bytes_eq name.now) self.now }
        ensures within { IfSome result (λ index. index < length self.now) }
    {
        self.names.get_index_of(name)
    }

    /// Adds a name that isn't there.
    pub fn add(&mut self, alloc: Global, name: &str) -> Result<(), OutOfMemory>
        requires { list_any (bytes_eq name.now) self.old ≡ false }
        ensures added { OnOk result (self.new ≡ self.old ++ name.now ∷ []) }
        ensures kept { OnErr result (self.new ≡ self.old) }
    {
        self.names.insert(String::from_str(alloc, name)?)?;
        Ok(())
    }

    /// The same names in memory of their own. A set keeps the allocator that it was made with, so none is lent here.
    pub fn copy(&self) -> Result<NameSet, OutOfMemory>
        ensures { IfOk result (λ copy. copy ≡ self.now) }
    {
        Ok(NameSet {
            names: self.names.clone()?,
        })
    }

    /// Are these the same names in the same order?
    pub fn same(&self, other: &NameSet) -> bool
        ensures { IsTrue result ↔ (self.now ≡ other.now) }
    {
        if self.len() != other.len() {
            return false;
        }
        for index in 0..self.len() {
            if !same_text(self.get(index), other.get(index)) {
                return false;
            }
        }
        true
    }
}

// Are the texts the same?
pub(crate) fn same_text(one: &str, other: &str) -> bool
    ensures { IsTrue result ↔ (one.now ≡ other.now) }
{
    one == other
}
