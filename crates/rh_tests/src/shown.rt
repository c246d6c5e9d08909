//! Terms that are read in full or in part, copied and shared, and their text. None of these functions says what it does in a contract, so
//! that the proof of a test that calls it has nothing to carry along.

use rh_base::{Term, Terms};
use rh_terms::{Keep, TermFault, read_kept, read_terms};
use std::alloc::{AllocError, Global};
use std::process::Abort;

/// The term as Erlang writes it, but an atom without quotes and a text as it stands, and a comma behind each part.
#[cycle(showing)]
pub fn show_term(out: &mut String, term: &Term) -> Result<(), AllocError> {
    match term {
        Term::Atom(name) => out.push_str(name.as_str()),
        Term::Int(n) => write!(out, "{n}"),
        Term::Text(text) => write!(out, "\"{}\"", text.as_str()),
        Term::List(terms) => {
            out.push_str("[")?;
            show_terms(out, terms)?;
            out.push_str("]")
        }
        Term::Tuple(terms) => {
            out.push_str("{")?;
            show_terms(out, terms)?;
            out.push_str("}")
        }
    }
}

// The terms, a comma behind each.
#[cycle(showing)]
fn show_terms(out: &mut String, terms: &Terms) -> Result<(), AllocError> {
    for term in terms.as_slice() {
        show_term(out, term)?;
        out.push_str(",")?;
    }
    Ok(())
}

/// Are the terms shown so?
pub fn are_shown(rt: &impl Abort, alloc: Global, terms: &Terms, want: &str) {
    let mut out = String::new(alloc);
    show_terms(&mut out, terms).expect(rt, "memory");
    assert_eq!(rt; out.as_str(), want);
}

/// The terms of a text.
pub fn terms_of(rt: &impl Abort, alloc: Global, text: &str) -> Terms {
    read_terms(alloc, text.as_bytes()).ok().expect(rt, "terms")
}

/// Is the text read?
pub fn reads(alloc: Global, text: &str) -> Result<(), TermFault> {
    read_terms(alloc, text.as_bytes()).map(|_| ())
}

/// A copy of terms.
pub fn copy_of(rt: &impl Abort, alloc: Global, terms: &Terms) -> Terms {
    terms.copy(alloc).ok().expect(rt, "memory")
}

/// Equal terms, which share their memory with these if it can be shared.
pub fn share_of(rt: &impl Abort, alloc: Global, terms: &Terms) -> Terms {
    terms.share(alloc).ok().expect(rt, "memory")
}

/// The terms in memory that can be shared.
pub fn in_shared(rt: &impl Abort, alloc: Global, terms: Terms) -> Terms {
    terms.into_shared(alloc).ok().expect(rt, "memory")
}

// All is kept but what stands behind `skip`.
#[derive(Clone, Copy)]
struct AllButSkip;

impl Keep for AllButSkip {
    ghost use Rattle.std.specs.Prelude.{None, Some, codes, if◌then◌else◌};
    ghost use Rattle.std.specs.Str.{bytes_eq};

    ghost behind_key = { λ all key. if bytes_eq key (codes "skip") then None else Some all };

    fn behind(self, key: &str) -> Option<AllButSkip> {
        if key == "skip" { None } else { Some(self) }
    }
}

/// The text's terms without what stands behind `skip`.
pub fn kept_of(rt: &impl Abort, alloc: Global, text: &str) -> Terms {
    read_kept(alloc, AllButSkip, text.as_bytes())
        .ok()
        .expect(rt, "terms")
}

/// Is the text read without what stands behind `skip`?
pub fn reads_kept(alloc: Global, text: &str) -> Result<(), TermFault> {
    read_kept(alloc, AllButSkip, text.as_bytes()).map(|_| ())
}

// What stands behind `keep` is kept.
#[derive(Clone, Copy)]
struct Behind {
    is_kept: bool,
}

impl Keep for Behind {
    ghost use Rattle.std.specs.Prelude.{None, Some, true, codes, if◌then◌else◌};
    ghost use Rattle.std.specs.Str.{bytes_eq};

    ghost behind_key = { λ k key. if k.is_kept then Some k else if bytes_eq key (codes "keep")
        then Some (record { is_kept = true }) else None };

    fn behind(self, key: &str) -> Option<Behind> {
        if self.is_kept {
            Some(self)
        } else if key == "keep" {
            Some(Behind { is_kept: true })
        } else {
            None
        }
    }

    fn is_whole(self) -> bool {
        self.is_kept
    }
}

/// The text's terms, of which those behind `keep` are kept.
pub fn kept_behind(rt: &impl Abort, alloc: Global, text: &str) -> Terms {
    read_kept(alloc, Behind { is_kept: false }, text.as_bytes())
        .ok()
        .expect(rt, "terms")
}
