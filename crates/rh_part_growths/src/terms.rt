//! Terms.

use rh_base::{Term, Terms};
use rh_marks::{Answer, begin, end};
use rh_terms::{TermFault, read_terms};
use std::alloc::Global;

static TERMS: &str = "{node, 'n1@lab', [\"one\", [-7]]}. second.";

/// What comes of the call of this name, if it is here.
pub fn answer(alloc: Global, name: &str) -> Option<Answer> {
    if name == "read_terms" {
        Some(call_read_terms(alloc, TERMS, 2))
    } else if name == "read_terms of a long list" {
        Some(call_read_terms(alloc, long_list(alloc)?.as_str(), 1))
    } else if name == "Terms::of" {
        Some(call_terms_of(alloc, Vec::new(alloc)))
    } else if name == "Terms::into_shared" {
        Some(call_into_shared(alloc, read_terms(alloc, TERMS.as_bytes()).ok()?))
    } else if name == "Terms::into_shared of shared ones" {
        Some(call_into_shared(alloc, shared_terms(alloc)?))
    } else if name == "Terms::share of shared ones" {
        Some(call_share(alloc, &shared_terms(alloc)?))
    } else {
        let terms = read_terms(alloc, TERMS.as_bytes()).ok()?;
        of_read(alloc, &terms, terms.as_slice().first()?, name)
    }
}

fn shared_terms(alloc: Global) -> Option<Terms> {
    let terms = read_terms(alloc, TERMS.as_bytes()).ok()?;
    terms.into_shared(alloc).ok()
}

// A list of more elements than lie on the reader's stack.
fn long_list(alloc: Global) -> Option<String> {
    let mut text = String::from_str(alloc, "[a").ok()?;
    for _ in 0..1_100 {
        text.push_str(",a").ok()?;
    }
    text.push_str("].").ok()?;
    Some(text)
}

fn call_read_terms(alloc: Global, text: &str, count: usize) -> Answer {
    begin(alloc);
    let read = read_terms(alloc, text.as_bytes());
    end(alloc);
    match read {
        Ok(terms) => Answer::of_call(terms.as_slice().len() == count),
        Err(TermFault::OutOfMemory) => Answer::Refused,
        Err(_) => Answer::Changed("fault"),
    }
}

fn call_terms_of(alloc: Global, terms: Vec<Term>) -> Answer {
    begin(alloc);
    let made = Terms::of(terms);
    end(alloc);
    Answer::of_call(made.as_slice().is_empty())
}

fn call_into_shared(alloc: Global, terms: Terms) -> Answer {
    begin(alloc);
    let shared = terms.into_shared(alloc);
    end(alloc);
    match shared {
        Ok(shared) => Answer::of_call(shared.as_slice().len() == 2),
        Err(terms) if terms.as_slice().len() == 2 => Answer::Refused,
        Err(_) => Answer::Changed("terms"),
    }
}

fn call_share(alloc: Global, terms: &Terms) -> Answer {
    begin(alloc);
    let more = terms.share(alloc);
    end(alloc);
    match more {
        Ok(more) => Answer::of_call(more.same(terms)),
        Err(_) => Answer::Refused,
    }
}

// The calls of terms that were read, and of the first of them.
fn of_read(alloc: Global, terms: &Terms, first: &Term, name: &str) -> Option<Answer> {
    if name == "Terms::copy" {
        return Some(call_terms_copy(alloc, terms));
    }
    if name == "Terms::share" {
        return Some(call_share(alloc, terms));
    }
    if name == "Term::copy" {
        return Some(call_term_copy(alloc, first));
    }
    begin(alloc);
    let is_right = is_read(terms, first, name);
    end(alloc);
    Some(Answer::of_call(is_right?))
}

fn call_terms_copy(alloc: Global, terms: &Terms) -> Answer {
    begin(alloc);
    let copy = terms.copy(alloc);
    end(alloc);
    match copy {
        Ok(copy) => Answer::of_call(copy.same(terms)),
        Err(_) => Answer::Refused,
    }
}

fn call_term_copy(alloc: Global, term: &Term) -> Answer {
    begin(alloc);
    let copy = term.copy(alloc);
    end(alloc);
    match copy {
        Ok(copy) => Answer::of_call(copy.same(term)),
        Err(_) => Answer::Refused,
    }
}

// Whether a reader of this name answers as it has to.
fn is_read(terms: &Terms, first: &Term, name: &str) -> Option<bool> {
    if name == "Terms::as_slice" {
        Some(terms.as_slice().len() == 2)
    } else if name == "Terms::same" {
        Some(terms.same(terms))
    } else if name == "Term::same" {
        Some(first.same(first))
    } else {
        None
    }
}
