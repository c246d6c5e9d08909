//! A key as it is kept.

ghost use Rattle.std.specs.Prelude.{◌≡◌, ◌≤◌, ◌++◌, [], OnOk, IfOk};
ghost use Rattle.rh_keys.specs.Codes.{number_code};

use rh_base::OutOfMemory;
use std::alloc::Global;
use std::hash::{Hash, Hasher};

/// A key in bytes, since nearly all of its numbers are small.
#[derive(Drop, PartialEq, Eq)]
pub struct Key {
    /// The code of its numbers, one behind the other.
    pub bytes: Vec<u8>,
}

// All bytes are hashed at once; those of a `Vec` are one by one.
impl Hash for Key {
    ghost use Rattle.std.specs.Prelude.{[], ◌∷◌};
    ghost use Rattle.std.specs.Cmp.Rules.{hashing};
    ghost use Rattle.std.proofs.Common.{rules};

    ghost hash_input = { λ key. key.bytes.items ∷ [] };

    ghost respects_eq = { Prim.search (hashing, rules) };

    fn hash<H: Hasher>(&self, state: &mut H) {
        state.write(self.bytes.as_slice());
    }
}

impl Key {
    /// The key of no number.
    pub fn new(alloc: Global) -> Key
        ensures { result.bytes.items ≡ [] }
    {
        Key {
            bytes: Vec::new(alloc),
        }
    }

    /// An equal key, in no more memory than it takes.
    pub fn copy(&self, alloc: Global) -> Result<Key, OutOfMemory>
        ensures { IfOk result (λ copy. copy.bytes.items ≡ self.now.bytes.items) }
    {
        Ok(Key {
            bytes: Vec::from_slice(alloc, self.bytes.as_slice())?,
        })
    }
}

/// Adds a number: a single byte, unless it is 255 or above.
#[tactic(auto, unfolding(crate::specs::Codes::number_code))]
pub(crate) fn push_number(bytes: &mut Vec<u8>, number: u64) -> Result<(), OutOfMemory>
    ensures { OnOk result (bytes.new.items ≡ bytes.old.items ++ number_code number) }
{
    if number < 255 {
        bytes.push(number as u8)?;
        return Ok(());
    }
    push_large(bytes, number)
}

// Adds a number that takes more than one byte. It stands apart, so that the others, nearly all, are added without a call.
#[tactic(auto, unfolding(crate::specs::Codes::number_code))]
#[cold]
#[inline(never)]
fn push_large(bytes: &mut Vec<u8>, number: u64) -> Result<(), OutOfMemory>
    requires { 255 ≤ number }
    ensures { OnOk result (bytes.new.items ≡ bytes.old.items ++ number_code number) }
{
    bytes.push(255)?;
    bytes.extend_from_slice(number.to_le_bytes().as_slice())?;
    Ok(())
}
