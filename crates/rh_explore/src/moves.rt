//! What may happen in the states that are reached.

ghost use Rattle.std.specs.Prelude.{◌≡◌};
ghost use Rattle.rh_state.specs.Stored.{read};
ghost use Rattle.rh_explore.specs.Moves.{ms_to, wait_in, event_in};

use rh_state::{State, Timer};
use rh_step::Event;

/// What may happen in a state.
#[derive(Clone, Copy, Debug, PartialEq, Eq)]
pub enum Move {
    /// This event.
    Make(Event),
    /// Time passes until the next timer that is set is due, if there is one: a tick of at least a millisecond.
    Wait,
}

impl Move {
    /// The event that it is in a state, if it is one there.
    pub fn event_in(self, state: &State) -> Option<Event>
        ensures { result ≡ event_in (read state.now) self }
    {
        match self {
            Move::Make(event) => Some(event),
            Move::Wait => wait_in(state),
        }
    }
}

// How long it takes until a timer is due.
pub(crate) fn ms_to(state: &State, entry: (u64, Timer)) -> u64
    ensures { result ≡ ms_to (read state.now) entry }
{
    entry.0.saturating_sub(state.now()).max(1)
}

// The tick to the next timer, if one is set.
fn wait_in(state: &State) -> Option<Event>
    ensures { result ≡ wait_in (read state.now) }
{
    match state.earliest() {
        Some(entry) => Some(Event::Tick {
            ms: ms_to(state, entry),
        }),
        None => None,
    }
}
