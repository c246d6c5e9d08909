//! Texts, and groups of nodes.

use rh_base::Str;
use rh_cluster::{Group, Groups, Node};
use rh_marks::{Answer, begin, end};
use std::alloc::Global;

/// What comes of the call of this name, if it is here.
pub fn answer(alloc: Global, name: &str) -> Option<Answer> {
    if name == "Str::copy" {
        Some(call_copy(alloc, &text(alloc)?))
    } else if name == "Str::of" {
        Some(call_str_of(alloc, String::from_str(alloc, "a service of the lab").ok()?))
    } else if name == "Group::of" {
        Some(call_group_of(alloc, nodes(alloc)?))
    } else if name == "Groups::of" {
        Some(call_groups_of(alloc, Vec::new(alloc)))
    } else {
        call_reader(alloc, name)
    }
}

fn text(alloc: Global) -> Option<Str> {
    Some(Str::of(String::from_str(alloc, "a service of the lab").ok()?))
}

fn nodes(alloc: Global) -> Option<Vec<Node>> {
    Vec::from_slice(alloc, [Node(1)].as_slice()).ok()
}

fn call_copy(alloc: Global, text: &Str) -> Answer {
    begin(alloc);
    let copy = text.copy(alloc);
    end(alloc);
    match copy {
        Ok(copy) => Answer::of_call(copy.same(text)),
        Err(_) => Answer::Refused,
    }
}

fn call_str_of(alloc: Global, text: String) -> Answer {
    begin(alloc);
    let made = Str::of(text);
    end(alloc);
    Answer::of_call(made.as_str() == "a service of the lab")
}

fn call_group_of(alloc: Global, nodes: Vec<Node>) -> Answer {
    begin(alloc);
    let made = Group::of(nodes);
    end(alloc);
    Answer::of_call(made.as_slice() == [Node(1)].as_slice())
}

fn call_groups_of(alloc: Global, groups: Vec<Group>) -> Answer {
    begin(alloc);
    let made = Groups::of(groups);
    end(alloc);
    Answer::of_call(made.as_slice().is_empty())
}

fn call_reader(alloc: Global, name: &str) -> Option<Answer> {
    let text = text(alloc)?;
    let group = Group::of(nodes(alloc)?);
    let groups = Groups::of(Vec::new(alloc));
    begin(alloc);
    let is_right = is_read(&text, &group, &groups, name);
    end(alloc);
    Some(Answer::of_call(is_right?))
}

// Whether a reader of this name answers as it has to.
fn is_read(text: &Str, group: &Group, groups: &Groups, name: &str) -> Option<bool> {
    if name == "Str::as_str" {
        Some(text.as_str() == "a service of the lab")
    } else if name == "Str::same" {
        Some(text.same(text))
    } else if name == "Group::as_slice" {
        Some(group.as_slice() == [Node(1)].as_slice())
    } else if name == "Groups::as_slice" {
        Some(groups.as_slice().is_empty())
    } else {
        None
    }
}
