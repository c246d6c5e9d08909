//! Linked lists: one list of three entries, the middle one of which is taken out for some calls.

ghost use Rattle.std.specs.Prelude.{◌≡◌, true, IfSome};
ghost use Rattle.rh_arena.specs.Exchange.{exchange};
ghost use Rattle.rh_arena.specs.WellFormed.{IsWellFormed};

use rh_arena::{LinkEdit, Lists};
use rh_marks::{Answer, begin, end};
use std::alloc::Global;

/// What comes of the call of this name, if it is here.
pub fn answer(alloc: Global, name: &str) -> Option<Answer> {
    let mut lists = three_entries(alloc)?;
    of_lists(alloc, &mut lists, name)
}

// The same of a call of those lists.
fn of_lists(alloc: Global, lists: &mut Lists, name: &str) -> Option<Answer> {
    if name == "Lists::new" {
        Some(call_new(alloc))
    } else if name == "Lists::copy" {
        Some(call_copy(alloc, lists))
    } else if name == "Lists::push_back" {
        call_push_back(alloc, lists)
    } else if name == "Lists::remove" {
        call_remove(alloc, lists)
    } else if name == "Lists::revert" {
        call_revert(alloc, lists)
    } else if name == "Lists::reapply" {
        call_reapply(alloc, lists)
    } else {
        call_reader(alloc, lists, name)
    }
}

fn call_reader(alloc: Global, lists: &Lists, name: &str) -> Option<Answer> {
    begin(alloc);
    let is_right = is_read(lists, name);
    end(alloc);
    Some(Answer::of_call(is_right?))
}

// Three entries, in order.
fn three_entries(alloc: Global) -> Option<Lists> {
    let mut lists = Lists::new(alloc, 3, 1).ok()?;
    fill(&mut lists)?;
    Some(lists)
}

fn fill(lists: &mut Lists) -> Option<()> {
    for entry in 0..3 {
        let _ = push(lists, entry)?;
    }
    Some(())
}

// Puts an entry that is in no list at the end.
fn push(lists: &mut Lists, entry: u32) -> Option<LinkEdit> {
    if lists.list_count() != 1 || entry >= lists.entry_count() || lists.list_of(entry).is_some() {
        return None;
    }
    Some(lists.push_back(0, entry))
}

fn call_new(alloc: Global) -> Answer {
    begin(alloc);
    let made = Lists::new(alloc, 3, 1);
    end(alloc);
    match made {
        Ok(lists) => Answer::of_call(lists.entry_count() == 3),
        Err(_) => Answer::Refused,
    }
}

fn call_copy(alloc: Global, lists: &Lists) -> Answer {
    begin(alloc);
    let copy = lists.copy(alloc);
    end(alloc);
    match copy {
        Ok(copy) => Answer::of_call(copy.same_words(lists)),
        Err(_) => Answer::Refused,
    }
}

// Whether a reader of this name answers as it has to.
fn is_read(lists: &Lists, name: &str) -> Option<bool> {
    if !has_three(lists) {
        return None;
    }
    if let Some(is_right) = is_linked(lists, name) {
        Some(is_right)
    } else if let Some(is_right) = is_listed(lists, name) {
        Some(is_right)
    } else {
        is_counted(lists, name)
    }
}

// Is there one list, for three entries?
fn has_three(lists: &Lists) -> bool {
    lists.list_count() == 1 && lists.entry_count() == 3
}

// Whether a reader of this name answers as it has to, if it is one of a link.
fn is_linked(lists: &Lists, name: &str) -> Option<bool> {
    if lists.list_count() != 1 || lists.entry_count() != 3 {
        return None;
    }
    if name == "Lists::first" {
        Some(lists.first(0) == Some(0))
    } else if name == "Lists::next" {
        Some(lists.next(0) == Some(1))
    } else if name == "Lists::prev" {
        Some(lists.prev(1) == Some(0))
    } else {
        None
    }
}

// The same of one of the whole list.
fn is_listed(lists: &Lists, name: &str) -> Option<bool> {
    if lists.list_count() != 1 || lists.entry_count() != 3 {
        return None;
    }
    if name == "Lists::list_of" {
        Some(lists.list_of(2) == Some(0))
    } else if name == "Lists::count" {
        Some(lists.count(0) == 3)
    } else if name == "Lists::same_words" {
        Some(lists.same_words(lists))
    } else {
        None
    }
}

// The same of one of how many there are.
fn is_counted(lists: &Lists, name: &str) -> Option<bool> {
    if name == "Lists::entry_count" {
        Some(lists.entry_count() == 3)
    } else if name == "Lists::list_count" {
        Some(lists.list_count() == 1)
    } else {
        None
    }
}

// Has the list so many entries?
fn has(lists: &Lists, count: u32) -> bool {
    lists.list_count() == 1 && lists.count(0) == count
}

// The middle entry comes back at the end.
fn call_push_back(alloc: Global, lists: &mut Lists) -> Option<Answer> {
    let _ = remove(lists)?;
    begin(alloc);
    let pushed = push(lists, 1);
    end(alloc);
    let _ = pushed?;
    Some(Answer::of_call(has(lists, 3)))
}

// Takes the middle entry out.
fn remove(lists: &mut Lists) -> Option<LinkEdit>
    ensures done { IfSome result (λ edit. edit.is_done ≡ true) }
    ensures exact { IfSome result (λ edit. exchange lists.new edit ≡ lists.old) }
    ensures formed { IsWellFormed lists.old }
{
    lists.formed();
    if lists.entry_count() != 3 || lists.list_of(1).is_none() {
        return None;
    }
    Some(lists.remove(1))
}

fn call_remove(alloc: Global, lists: &mut Lists) -> Option<Answer> {
    begin(alloc);
    let removed = remove(lists);
    end(alloc);
    let _ = removed?;
    Some(Answer::of_call(has(lists, 2)))
}

fn call_revert(alloc: Global, lists: &mut Lists) -> Option<Answer> {
    let mut edit = remove(lists)?;
    begin(alloc);
    lists.revert(&mut edit);
    end(alloc);
    Some(Answer::of_call(has(lists, 3)))
}

fn call_reapply(alloc: Global, lists: &mut Lists) -> Option<Answer> {
    let mut edit = remove(lists)?;
    lists.formed();
    lists.revert(&mut edit);
    if edit.is_done() {
        return None;
    }
    begin(alloc);
    lists.reapply(&mut edit);
    end(alloc);
    Some(Answer::of_call(has(lists, 2)))
}
