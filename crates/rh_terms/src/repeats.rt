//! A list that is written again, byte for byte.

ghost use Rattle.std.specs.Prelude.{◌≡◌, ◌==◌, true, Ok, IfOk, IfSome, OnOk};
ghost use Rattle.rh_base.specs.Tree.{trees_of, items_of};
ghost use Rattle.rh_base.specs.Tree as tree;
ghost use Rattle.rh_terms.specs.Bytes.{begins};
ghost use Rattle.rh_terms.specs.Grammar.{term_at};
ghost use Rattle.rh_terms.specs.Kept.{behind};
ghost use Rattle.rh_terms.specs.Repeated.{IsRead};

use rh_base::Terms;
use std::alloc::Global;

/// The longest list so far that was read and is kept whole, to be shared where it is written again, and the longest
/// that was skipped, to be passed over there.
#[derive(Drop)]
pub struct Again<'a> {
    /// Is no list being read that is kept whole? Only the outermost ones are compared, so that reading takes time in proportion to the
    /// bytes.
    pub is_outside: bool,
    text: &'a [u8],
    room: usize,
    list: Option<Terms>,
    skipped: &'a [u8],
    skipped_room: usize,
}

impl<'a> Again<'a> {
    /// Of no list yet.
    pub fn new(bytes: &'a [u8]) -> Again<'a>
        ensures { IsRead result }
    {
        Again {
            is_outside: true,
            text: &bytes[..0],
            room: 0,
            list: None,
            skipped: &bytes[..0],
            skipped_room: 0,
        }
    }

    /// The same list, and what is behind it, where the bytes begin with its text and there is as much room as there was. `None` too
    /// where it can't be shared once more: the list is read again then.
    pub fn share_at(&self, alloc: Global, room: usize, bytes: &'a [u8]) -> Option<(Terms, &'a [u8])>
        requires { IsRead self.now }
        ensures { IfSome result
            (λ x. term_at room bytes.now ≡ Ok (tree.list (trees_of (items_of x.0)), x.1.now)) }
    {
        match &self.list {
            Some(list) if self.room == room && bytes.starts_with(self.text) => {
                match list.share(alloc) {
                    Ok(same) => Some((same, &bytes[self.text.len()..])),
                    Err(_) => None,
                }
            }
            _ => None,
        }
    }

    /// A list that was read here, and this is behind it. If it is longer than the one that is remembered, it is remembered in its
    /// place, and shares its memory from now on. Where memory for that is refused it stays as it is, and isn't remembered.
    pub fn remember(
        &mut self,
        alloc: Global,
        room: usize,
        bytes: &'a [u8],
        list: Terms,
        rest: &[u8],
    ) -> Terms
        requires known { IsRead self.old }
        requires opens { begins (λ b. b == 91) bytes.now ≡ true }
        requires read { term_at room bytes.now
            ≡ Ok (tree.list (trees_of (items_of list)), rest.now) }
        ensures known { IsRead self.new }
        ensures list { trees_of (items_of result) ≡ trees_of (items_of list) }
    {
        let text = &bytes[..bytes.len() - rest.len()];
        if text.len() <= self.text.len() {
            return list;
        }
        match list.into_shared(alloc) {
            Ok(shared) => {
                if let Ok(same) = shared.share(alloc) {
                    self.list = Some(same);
                    self.text = text;
                    self.room = room;
                }
                shared
            }
            Err(list) => list,
        }
    }

    /// What is behind the list that was skipped, where the bytes begin with its text and there is as much room as there was.
    pub fn behind_skipped(&self, room: usize, bytes: &'a [u8]) -> Option<&'a [u8]>
        requires { IsRead self.now }
        ensures { IfSome result (λ rest. behind (term_at room bytes.now) ≡ Ok rest.now) }
    {
        if !self.skipped.is_empty()
            && self.skipped_room == room
            && bytes.starts_with(self.skipped)
        {
            Some(&bytes[self.skipped.len()..])
        } else {
            None
        }
    }

    /// A list was skipped here, and this is behind it. It is remembered if it is longer than the one that was.
    pub fn remember_skipped(&mut self, room: usize, bytes: &'a [u8], rest: &[u8])
        requires known { IsRead self.old }
        requires opens { begins (λ b. b == 91) bytes.now ≡ true }
        requires read { behind (term_at room bytes.now) ≡ Ok rest.now }
        ensures { IsRead self.new }
    {
        let passed = &bytes[..bytes.len() - rest.len()];
        if passed.len() > self.skipped.len() {
            self.skipped = passed;
            self.skipped_room = room;
        }
    }
}
