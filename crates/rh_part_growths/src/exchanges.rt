//! An edit of a state that is taken back, and made again.

ghost use Rattle.std.specs.Prelude.{◌≡◌, true, IfSome};
ghost use Rattle.rh_state.specs.Edits.{exchange, is_done};
ghost use Rattle.rh_state.specs.Formed.{IsFormed};

use crate::made::{HERE, SERVICE};
use rh_marks::{Answer, begin, end};
use rh_state::{Edit, Place, State};
use std::alloc::Global;

/// Takes the edit back.
pub fn call_back(alloc: Global, state: &mut State) -> Option<Answer> {
    let mut edit = unlink(state)?;
    begin(alloc);
    state.back(&mut edit);
    end(alloc);
    Some(Answer::of_call(stands_at(state, Place::InRunning)))
}

/// Makes it again.
#[tactic(auto, using(rh_state::proofs::Twice::done_turns))]
pub fn call_forth(alloc: Global, state: &mut State) -> Option<Answer> {
    let mut edit = unlink(state)?;
    state.formed();
    state.back(&mut edit);
    begin(alloc);
    state.forth(&mut edit);
    end(alloc);
    Some(Answer::of_call(stands_at(state, Place::Off)))
}

// The service is no longer started at the first node.
fn unlink(state: &mut State) -> Option<Edit>
    ensures done { IfSome result (λ edit. is_done edit ≡ true) }
    ensures exact { IfSome result (λ edit. exchange state.new edit ≡ state.old) }
    ensures formed { IsFormed state.old }
{
    state.formed();
    if state.cluster().node_count() != 3 || state.cluster().app_count() != 2 {
        return None;
    }
    if state.place_of(HERE, SERVICE) == Place::Off {
        return None;
    }
    Some(state.unlink(HERE, SERVICE))
}

// Is the service there, at the first node?
fn stands_at(state: &State, place: Place) -> bool {
    state.cluster().node_count() == 3
        && state.cluster().app_count() == 2
        && state.place_of(HERE, SERVICE) == place
}
