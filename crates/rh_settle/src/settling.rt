//! Moves until none is left.

ghost use Rattle.std.specs.Prelude.{◌≡◌, ◌≤◌, ◌*◌, [], length, All, OnOk};
ghost use Rattle.rh_state.specs.StateView.{waits_at};
ghost use Rattle.rh_state.specs.Stored.{read};
ghost use Rattle.rh_rules.specs.Course.{Course, fresh_of};
ghost use Rattle.rh_trace.specs.Traces.{IsPairOf, course};
ghost use Rattle.rh_settle.specs.Boards.{IsReadyOf};
ghost use Rattle.rh_settle.specs.Starting.{StartsAreMarked};
ghost use Rattle.rh_trace.specs.Counts.{FewEdits};
ghost use Rattle.rh_trace.specs.Ways.{Goes};
ghost use Rattle.rh_rules.specs.Settling.{NoneEnabled, nexts, all_moved, tell_waiting, waits_told, settled, Settles, pair_count};
ghost use Rattle.rh_trace.specs.Validity.{RunsWhereItStands};

use crate::board::Board;
use crate::calls::may_call;
use crate::ready::Ready;
use crate::search::next_on;
use rh_base::OutOfMemory;
use rh_place::Pick;
use rh_rules::{Notice, Pair};
use rh_state::{Place, State};
use rh_trace::{Trace, make_move};

// Makes next moves, of which these are ready, until there is none.
#[tactic(auto, using(rh_trace::proofs::Ways::goes_none))]
fn make_ready_moves(
    state: &mut State,
    ready: Ready,
    pick: Pick,
    trace: &mut Trace,
) -> Result<(), OutOfMemory>
    requires ready { IsReadyOf (read state.old) ready }
    requires runs { RunsWhereItStands (read state.old) }
    ensures moved { OnOk result
        (course (read state.new) trace.new ≡ all_moved pick (course (read state.old) trace.old)) }
    ensures still { OnOk result (nexts (course (read state.new) trace.new) ≡ []) }
    ensures cluster { (read state.new).cluster ≡ (read state.old).cluster }
    ensures runs { OnOk result (RunsWhereItStands (read state.new)) }
    ensures way { Goes state.old trace.old state.new trace.new }
    ensures few { FewEdits 0 trace.old trace.new }
{
    let mut board = Board::of(state, ready, trace.marked(), trace.freed());
    'moves: while let Some(next) = next_on(state, &board, pick) {
        state.formed();
        make_move(state, next, trace)?;
        board.follow(state, next);
    }
    Ok(())
}

// Makes next moves, of which these are ready, until there is none. Behind most events nothing is ready, and no fresh pair can
// call an application away: then no board is made, whose tables would have to be zeroed.
#[tactic(auto, using(rh_trace::proofs::Ways::goes_none))]
fn make_moves(
    state: &mut State,
    ready: Ready,
    pick: Pick,
    trace: &mut Trace,
) -> Result<(), OutOfMemory>
    requires ready { IsReadyOf (read state.old) ready }
    requires runs { RunsWhereItStands (read state.old) }
    ensures moved { OnOk result
        (course (read state.new) trace.new ≡ all_moved pick (course (read state.old) trace.old)) }
    ensures still { OnOk result (nexts (course (read state.new) trace.new) ≡ []) }
    ensures cluster { (read state.new).cluster ≡ (read state.old).cluster }
    ensures runs { OnOk result (RunsWhereItStands (read state.new)) }
    ensures way { Goes state.old trace.old state.new trace.new }
    ensures few { FewEdits 0 trace.old trace.new }
{
    state.formed();
    if ready.is_idle() && !may_call(state, trace.marked()) && !may_call(state, trace.freed()) {
        return Ok(());
    }
    make_ready_moves(state, ready, pick, trace)
}

// Does an application wait at a node?
fn waits(state: &State, pair: Pair) -> bool
    requires { IsPairOf (read state.now).cluster pair }
    ensures { result ≡ waits_at (read state.now) pair.node pair.app }
{
    state.formed();
    matches!(state.place_of(pair.node, pair.app), Place::InWaiting)
}

// A pair is told if it waits.
fn tell_if_waiting(state: &State, pair: Pair, trace: &mut Trace) -> Result<(), OutOfMemory>
    requires { IsPairOf (read state.now).cluster pair }
    ensures course { OnOk result (course (read state.now) trace.new
        ≡ tell_waiting (course (read state.now) trace.old) pair) }
    ensures way { Goes state.now trace.old state.now trace.new }
    ensures few { FewEdits 0 trace.old trace.new }
{
    if waits(state, pair) {
        trace.tell(Notice::Waits {
            app: pair.app,
            node: pair.node,
        })?;
    }
    Ok(())
}

// Tells each marked pair that waits.
#[tactic(auto, using(rh_trace::proofs::Ways::goes_none))]
fn tell_waiting(state: &State, trace: &mut Trace) -> Result<(), OutOfMemory>
    requires { All (IsPairOf (read state.now).cluster) trace.old.marked }
    ensures course { OnOk result
        (course (read state.now) trace.new ≡ waits_told (course (read state.now) trace.old)) }
    ensures way { Goes state.now trace.old state.now trace.new }
    ensures few { FewEdits 0 trace.old trace.new }
{
    let count = trace.marked().len();
    'marked: for index in 0..count {
        let pair = trace.marked()[index];
        tell_if_waiting(state, pair, trace)?;
    }
    Ok(())
}

// Settles a state in which these are ready: see [`settle`].
fn settle_ready(
    state: &mut State,
    ready: Ready,
    pick: Pick,
    trace: &mut Trace,
) -> Result<(), OutOfMemory>
    requires ready { IsReadyOf (read state.old) ready }
    requires marked { All (IsPairOf (read state.old).cluster) trace.old.marked }
    requires runs { RunsWhereItStands (read state.old) }
    ensures settled { OnOk result
        (course (read state.new) trace.new ≡ settled pick (course (read state.old) trace.old)) }
    ensures allowed { OnOk result
        (Settles (course (read state.old) trace.old) (course (read state.new) trace.new)) }
    ensures few { (p : Course) (run : Settles (course (read state.old) trace.old) p)
        → length run.moves ≤ 2 * pair_count (read state.old).cluster }
    ensures still { OnOk result
        (NoneEnabled (read state.new) (fresh_of (course (read state.new) trace.new))) }
    ensures cluster { (read state.new).cluster ≡ (read state.old).cluster }
    ensures runs { OnOk result (RunsWhereItStands (read state.new)) }
    ensures way { Goes state.old trace.old state.new trace.new }
    ensures edits { FewEdits 0 trace.old trace.new }
{
    state.formed();
    make_moves(state, ready, pick, trace)?;
    tell_waiting(state, trace)
}

/// Makes the [`next_move`](crate::next_move), one after the other, until there is none; then tells which of the marked pairs wait, in marking
/// order. Where memory is refused, the state is one on the way.
pub fn settle(state: &mut State, pick: Pick, trace: &mut Trace) -> Result<(), OutOfMemory>
    requires marked { All (IsPairOf (read state.old).cluster) trace.old.marked }
    requires runs { RunsWhereItStands (read state.old) }
    ensures settled { OnOk result
        (course (read state.new) trace.new ≡ settled pick (course (read state.old) trace.old)) }
    ensures allowed { OnOk result
        (Settles (course (read state.old) trace.old) (course (read state.new) trace.new)) }
    ensures few { (p : Course) (run : Settles (course (read state.old) trace.old) p)
        → length run.moves ≤ 2 * pair_count (read state.old).cluster }
    ensures still { OnOk result
        (NoneEnabled (read state.new) (fresh_of (course (read state.new) trace.new))) }
    ensures cluster { (read state.new).cluster ≡ (read state.old).cluster }
    ensures runs { OnOk result (RunsWhereItStands (read state.new)) }
    ensures way { Goes state.old trace.old state.new trace.new }
    ensures edits { FewEdits 0 trace.old trace.new }
{
    let ready = Ready::of(state);
    settle_ready(state, ready, pick, trace)
}

/// As [`settle`], where local applications can start at marked pairs alone, as behind most events: before the first move no other pair
/// is asked whether its local application can start. Behind a move, and for takeovers, what [`settle`] asks is asked here too.
pub fn settle_marked(state: &mut State, pick: Pick, trace: &mut Trace) -> Result<(), OutOfMemory>
    requires marked { All (IsPairOf (read state.old).cluster) trace.old.marked }
    requires runs { RunsWhereItStands (read state.old) }
    requires starts { StartsAreMarked (course (read state.old) trace.old) }
    ensures settled { OnOk result
        (course (read state.new) trace.new ≡ settled pick (course (read state.old) trace.old)) }
    ensures allowed { OnOk result
        (Settles (course (read state.old) trace.old) (course (read state.new) trace.new)) }
    ensures few { (p : Course) (run : Settles (course (read state.old) trace.old) p)
        → length run.moves ≤ 2 * pair_count (read state.old).cluster }
    ensures still { OnOk result
        (NoneEnabled (read state.new) (fresh_of (course (read state.new) trace.new))) }
    ensures cluster { (read state.new).cluster ≡ (read state.old).cluster }
    ensures runs { OnOk result (RunsWhereItStands (read state.new)) }
    ensures way { Goes state.old trace.old state.new trace.new }
    ensures edits { FewEdits 0 trace.old trace.new }
{
    let ready = Ready::of_marked(state, trace.marked());
    settle_ready(state, ready, pick, trace)
}
