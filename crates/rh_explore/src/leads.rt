//! Where moves lead from a state.

ghost use Rattle.std.specs.Prelude.{◌≡◌};
ghost use Rattle.rh_explore.specs.Families.{is_new, is_told};

use rh_keys::Key;
use rh_state::State;
use rh_step::Event;

/// Where a move leads.
#[derive(Drop)]
pub enum Lead {
    /// Nowhere: it is no event there, or the rules refuse it, or too many nodes are not up behind it.
    Nowhere,
    /// To a state that was known already.
    Known,
    /// A limit of starts or of time refuses it.
    AtLimit,
    /// By this event to a state that wasn't known.
    To(Event, Marks),
}

/// What is kept of a state.
#[derive(Drop)]
pub struct Marks {
    /// The key by which it is told apart.
    pub(crate) key: Key,
    /// The numbers of the asks that fail in it, of those that failed nowhere before.
    pub(crate) fails: Vec<usize>,
}

/// Where all moves lead from a state.
#[derive(Drop)]
pub struct Expansion {
    /// Where those do, in their order, that lead to a state that wasn't known or that a limit refuses: few of them.
    pub(crate) leads: Vec<Lead>,
    /// The state, if one of them leads to a state that wasn't known.
    pub(crate) state: Option<Box<State>>,
}

impl Lead {
    /// Is it told in an expansion? The others lead to no state that wasn't known.
    pub(crate) fn is_told(&self) -> bool
        ensures { result ≡ is_told self.now }
    {
        matches!(self, Lead::AtLimit | Lead::To(_, _))
    }

    /// Does it lead to a state that wasn't known?
    pub(crate) fn is_new(&self) -> bool
        ensures { result ≡ is_new self.now }
    {
        matches!(self, Lead::To(_, _))
    }
}
