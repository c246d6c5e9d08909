//! Linked lists, whose changes are taken back word by word.

ghost use Rattle.std.specs.Prelude.{◌≡◌, true};
ghost use Rattle.rh_arena.specs.Exchange.{exchange};
ghost use Rattle.rh_arena.specs.WellFormed.{IsWellFormed};

use rh_arena::{LinkEdit, Lists};
use std::alloc::Global;
use std::process::Abort;
use std::test::Fail;

// Puts an entry that is in no list at the end of the only list.
fn push(rt: &impl Abort, lists: &mut Lists, entry: u32) -> LinkEdit
    ensures done { result.is_done ≡ true }
    ensures exact { exchange lists.new result ≡ lists.old }
    ensures formed { IsWellFormed lists.old }
{
    lists.formed();
    assert!(rt; lists.list_count() == 1 && entry < lists.entry_count());
    assert!(rt; lists.list_of(entry).is_none());
    lists.push_back(0, entry)
}

// Takes an entry out of the list.
fn remove(rt: &impl Abort, lists: &mut Lists, entry: u32) -> LinkEdit
    ensures done { result.is_done ≡ true }
    ensures exact { exchange lists.new result ≡ lists.old }
    ensures formed { IsWellFormed lists.old }
{
    lists.formed();
    assert!(rt; entry < lists.entry_count());
    assert!(rt; lists.list_of(entry).is_some());
    lists.remove(entry)
}

// Are these the links of an entry?
fn has_links(rt: &impl Abort, lists: &Lists, entry: u32, prev: Option<u32>, next: Option<u32>) {
    assert!(rt; entry < lists.entry_count());
    assert!(rt; lists.prev(entry) == prev && lists.next(entry) == next);
}

// Entry 1 leaves the middle of the list, comes back at its end, and both is taken back.
fn out_and_in_and_back(rt: &impl Abort, lists: &mut Lists) {
    let mut removed = remove(rt, lists, 1);
    has_links(rt, lists, 0, None, Some(2));
    has_links(rt, lists, 1, Some(0), Some(2));
    let mut pushed = push(rt, lists, 1);
    has_links(rt, lists, 1, Some(2), None);
    lists.revert(&mut pushed);
    lists.revert(&mut removed);
}

// Puts three entries in the list.
fn push_three(rt: &impl Abort, lists: &mut Lists) {
    for entry in 0..3 {
        let _ = push(rt, lists, entry);
    }
}

// Are the words those of a copy, before that and behind it?
fn keeps_its_words(rt: &impl Abort, alloc: Global, lists: &mut Lists) {
    let before = lists.copy(alloc).ok().expect(rt, "memory");
    assert!(rt; lists.same_words(&before));
    out_and_in_and_back(rt, lists);
    assert!(rt; lists.same_words(&before));
}

fn has_all_three(rt: &impl Abort, lists: &Lists) {
    has_links(rt, lists, 1, Some(0), Some(2));
    assert!(rt; lists.list_count() == 1);
    assert!(rt; lists.first(0) == Some(0) && lists.count(0) == 3);
}

#[test]
fn a_change_in_the_middle_is_taken_back(rt: HostRuntime) -> Result<(), Fail> {
    let mut lists = Lists::new(rt.alloc(), 3, 1)?;
    push_three(&rt, &mut lists);
    keeps_its_words(&rt, rt.alloc(), &mut lists);
    has_all_three(&rt, &lists);
    Ok(())
}
