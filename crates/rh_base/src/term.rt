//! Terms.

ghost use Rattle.std.specs.Prelude.{◌≡◌, ◌↔◌, IfOk, IfErr, IsTrue};
ghost use Rattle.rh_base.specs.Tree.{tree_of, trees_of, items_of};

use crate::held::Held;
use crate::memory::OutOfMemory;
use crate::text::Str;
use std::alloc::Global;
use std::sync::Arc;

/// A term of Erlang, as far as files of this project use them.
#[derive(Drop)]
#[cycle(term)]
pub enum Term {
    /// An atom, by its name.
    Atom(Str),
    /// An integer.
    Int(i64),
    /// A text between double quotes.
    Text(Str),
    /// A list, by its elements.
    List(Terms),
    /// A tuple, by its elements.
    Tuple(Terms),
}

/// The elements of a list or a tuple, or the terms of a text.
#[derive(Drop)]
#[cycle(term)]
pub struct Terms {
    items: Held<Term>,
}

// A list takes no more room in a term than a text does, though it may be shared.
const _: () = prove!(size_of::<Term>() == 40);

impl Term {
    /// An equal term in memory of its own, which nothing shares.
    #[cycle(copying)]
    pub fn copy(&self, alloc: Global) -> Result<Term, OutOfMemory>
        ensures { IfOk result (λ t. tree_of t ≡ tree_of self.now) }
    {
        match self {
            Term::Atom(s) => Ok(Term::Atom(s.copy(alloc)?)),
            Term::Int(n) => Ok(Term::Int(*n)),
            Term::Text(s) => Ok(Term::Text(s.copy(alloc)?)),
            Term::List(ts) => Ok(Term::List(ts.copy(alloc)?)),
            Term::Tuple(ts) => Ok(Term::Tuple(ts.copy(alloc)?)),
        }
    }

    /// Are the terms equal?
    #[cycle(comparing)]
    pub fn same(&self, other: &Term) -> bool
        ensures { IsTrue result ↔ (tree_of self.now ≡ tree_of other.now) }
    {
        match (self, other) {
            (Term::Atom(this), Term::Atom(that)) => this.same(that),
            (Term::Int(this), Term::Int(that)) => *this == *that,
            (Term::Text(this), Term::Text(that)) => this.same(that),
            (Term::List(these), Term::List(those)) => these.same(those),
            (Term::Tuple(these), Term::Tuple(those)) => these.same(those),
            _ => false,
        }
    }
}

impl Terms {
    /// The `Terms` that hold these terms.
    pub fn of(items: Vec<Term>) -> Terms
        ensures { items_of result ≡ items.items }
    {
        Terms {
            items: Held::Own(items),
        }
    }

    /// The terms, in order.
    pub fn as_slice(&self) -> &[Term]
        ensures { result.now ≡ items_of self.now }
    {
        match &self.items {
            Held::Own(items) => items.as_slice(),
            Held::Shared(items) => items.as_slice(),
        }
    }

    /// The same terms, in memory that others can share with them: one block more, unless they lie so already. Where memory is refused
    /// they come back as they were: `Err` has the same terms.
    pub fn into_shared(self, alloc: Global) -> Result<Terms, Terms>
        ensures shared { IfOk result (λ ts. items_of ts ≡ items_of self) }
        ensures refused { IfErr result (λ ts. items_of ts ≡ items_of self) }
    {
        match self.items {
            Held::Own(items) => match Arc::new(alloc, items) {
                Ok(shared) => Ok(Terms {
                    items: Held::Shared(shared),
                }),
                Err(refused) => Err(Terms::of(refused.value)),
            },
            Held::Shared(items) => Ok(Terms {
                items: Held::Shared(items),
            }),
        }
    }

    /// Equal terms: where they lie in memory that can be shared the same ones, which takes none, and else a copy. The error says that
    /// memory was refused, or that there are too many who share them.
    pub fn share(&self, alloc: Global) -> Result<Terms, OutOfMemory>
        ensures { IfOk result (λ ts. trees_of (items_of ts) ≡ trees_of (items_of self.now)) }
    {
        match &self.items {
            Held::Own(_items) => self.copy(alloc),
            Held::Shared(items) => Ok(Terms {
                items: Held::Shared(Arc::try_clone(items)?),
            }),
        }
    }

    /// Equal terms in memory of their own, which nothing shares.
    #[cycle(copying)]
    pub fn copy(&self, alloc: Global) -> Result<Terms, OutOfMemory>
        ensures { IfOk result (λ ts. trees_of (items_of ts) ≡ trees_of (items_of self.now)) }
    {
        let terms = self.as_slice();
        let mut items = Vec::with_capacity(alloc, terms.len())?;
        'terms: for term in terms {
            items.push(term.copy(alloc)?)?;
        }
        Ok(Terms::of(items))
    }

    /// Are these equal terms in the same order?
    #[cycle(comparing)]
    pub fn same(&self, other: &Terms) -> bool
        ensures { IsTrue result ↔ (trees_of (items_of self.now) ≡ trees_of (items_of other.now)) }
    {
        let these = self.as_slice();
        let those = other.as_slice();
        if these.len() != those.len() {
            return false;
        }
        'terms: for (index, term) in these.iter().enumerate() {
            if !term.same(&those[index]) {
                return false;
            }
        }
        true
    }
}
