//! What a node's configuration says of distribution.

ghost use Rattle.std.specs.Prelude.{◌≡◌, map};
ghost use Rattle.std.specs.Option.{option_map};
ghost use Rattle.rh_base.specs.Tree.{tree_of};
ghost use Rattle.rh_cluster.specs.Agreement.{same_wait};
ghost use Rattle.rh_cluster.specs.Sections.{as_sync_wait};
ghost use Rattle.rh_cluster.specs.Shapes.{as_time};
ghost use Rattle.rh_cluster.specs.Values.{elements_under, kernel_of, value_if, value_under, wait_in};
ghost use Rattle.rh_cluster_lint.specs.Differing.{distributed, wait, differing_in, key_word};

use crate::shapes::atom;
use rh_base::Term;
use rh_model::{SyncWait, TIMEOUT_LIMIT};
use rh_term_lint::{elements, entry};

// The value of an entry of this key.
#[tactic(auto, unfolding(rh_cluster::specs::Values::value_if))]
fn value_if<'a>(key: &str, term: &'a Term) -> Option<&'a Term>
    ensures { option_map (λ value. tree_of value.now) result ≡ value_if key.now (tree_of term.now) }
{
    let (other, value) = entry(term)?;
    if other.as_str() == key {
        Some(value)
    } else {
        None
    }
}

// The value of the first entry of this key.
fn value_under<'a>(key: &str, terms: &'a [Term]) -> Option<&'a Term>
    ensures { option_map (λ value. tree_of value.now) result
        ≡ value_under key.now (map tree_of terms.now) }
{
    for term in terms {
        if let Some(value) = value_if(key, term) {
            return Some(value);
        }
    }
    None
}

// The elements of that value.
#[tactic(auto, unfolding(rh_cluster::specs::Values::elements_under))]
fn elements_under<'a>(key: &str, terms: &'a [Term]) -> &'a [Term]
    ensures { map tree_of result.now ≡ elements_under key.now (map tree_of terms.now) }
{
    match value_under(key, terms) {
        Some(value) => elements(value),
        None => &[],
    }
}

// The entries of the section `kernel`.
fn kernel_of(config: &Term) -> &[Term]
    ensures { map tree_of result.now ≡ kernel_of (tree_of config.now) }
{
    elements_under("kernel", elements(config))
}

/// The entries of `distributed`.
pub fn distributed_entries(config: &Term) -> &[Term]
    ensures { map tree_of result.now ≡ distributed (tree_of config.now) }
{
    elements_under("distributed", kernel_of(config))
}

// A time in milliseconds, up to the longest.
#[tactic(auto, unfolding(rh_cluster::specs::Shapes::as_time, rh_cluster::specs::Shapes::as_int))]
fn time(term: &Term) -> Option<u64>
    ensures { result ≡ as_time (tree_of term.now) }
{
    match term {
        Term::Int(number) if 0 <= *number && *number as u64 <= TIMEOUT_LIMIT => {
            Some(*number as u64)
        }
        _ => None,
    }
}

// How long a value of `sync_nodes_timeout` lets a node wait.
#[tactic(auto, unfolding(rh_cluster::specs::Sections::as_sync_wait))]
fn sync_wait(term: &Term) -> Option<SyncWait>
    ensures { result ≡ as_sync_wait (tree_of term.now) }
{
    match atom(term) {
        None => time(term).map(SyncWait::After),
        Some(word) => match word.as_str() {
            "undefined" => Some(SyncWait::Unset),
            "infinity" => Some(SyncWait::Forever),
            _ => None,
        },
    }
}

// The same of a value that may not be there.
fn wait_in(value: Option<&Term>) -> SyncWait
    ensures { result ≡ wait_in (option_map (λ t. tree_of t.now) value.entry) }
{
    match value {
        Some(term) => sync_wait(term).unwrap_or(SyncWait::Unset),
        None => SyncWait::Unset,
    }
}

// How long a node waits.
fn wait(config: &Term) -> SyncWait
    ensures { result ≡ wait (tree_of config.now) }
{
    wait_in(value_under("sync_nodes_timeout", kernel_of(config)))
}

// Are these the same?
fn same_wait(this: SyncWait, that: SyncWait) -> bool
    ensures { result ≡ same_wait this that }
{
    match (this, that) {
        (SyncWait::Unset, SyncWait::Unset) => true,
        (SyncWait::After(this), SyncWait::After(that)) => this == that,
        (SyncWait::Forever, SyncWait::Forever) => true,
        _ => false,
    }
}

/// A parameter on which nodes have to agree.
#[derive(Clone, Copy, Debug, PartialEq, Eq)]
pub enum Differing {
    Distributed,
    SyncTimeout,
}

impl Differing {
    /// Its name.
    pub fn word(self) -> &'static str
        ensures { result.now ≡ key_word self }
    {
        match self {
            Differing::Distributed => "distributed",
            Differing::SyncTimeout => "sync_nodes_timeout",
        }
    }
}

/// The parameter in which two configurations differ that have to agree and don't.
#[tactic(auto, unfolding(crate::specs::Differing::differing_in))]
pub fn differing_in(own: &Term, first: &Term) -> Differing
    ensures { result ≡ differing_in (tree_of own.now) (tree_of first.now) }
{
    if same_wait(wait(own), wait(first)) {
        Differing::Distributed
    } else {
        Differing::SyncTimeout
    }
}
