//! The promise of the product: what is kept, and what is answered.
//!
//! Of what is kept: [`step_and_undo`] and those behind it are callers of a simulation or of a room. They make the calls that
//! their names tell, and each is proved by the contracts of these calls alone: that every word of the state is then as it was.
//! So they say what undo and redo really restore in memory.
//!
//! Of what is answered: [`rehearsals_are_reversible`] and [`sessions_are_reversible`] do nothing, and their contracts are laws
//! on the definition `served`. There the state is by definition the one behind the events up to the cursor. So that undo
//! restores it in these laws is true by the form of the definition, whatever a step does, and says something of the program
//! only by the contracts that tie it to that definition: `Sim::state` and those of the calls. That a step is one that the rules
//! allow, and that the state is valid, rests on the rules.

ghost use Rattle.std.specs.Prelude.{◌≡◌, ◌+◌, ◌++◌, ◌∷◌, [], ℕ, List, length, take, IfOk, OnOk, OnErr};
ghost use Rattle.rh_rules.specs.declared.notice.Notice.{Notice};
ghost use Rattle.rh_state.specs.First.{first_words};
ghost use Rattle.rh_state.specs.Stored.{read};
ghost use Rattle.rh_rules.specs.Steps.{Allowed, outcome};
ghost use Rattle.rh_calls.specs.declared.call.Call.TheVariants as call;
ghost use Rattle.rh_trail.specs.Chain.{chain};
ghost use Rattle.rh_trail.specs.Laws.{Accepts};
ghost use Rattle.rh_trail.specs.Lone.{opened, sim_after};
ghost use Rattle.rh_room.specs.Serving.{receipt_of};
ghost use Rattle.rh_app.specs.Laws.{KeepsTo, RehearsalsAreReversible, SessionsAreReversible};

use rh_base::OutOfMemory;
use rh_calls::{Call, Reply};
use rh_room::{Pass, Receipt, Room, RoomFault};
use rh_rules::{Event, Notice, Refusal};
use rh_trail::Sim;
use std::alloc::Global;

/// Makes an event, and takes it back: every word is then as it was before, each link of a list and each due of a timer among
/// them. The event is what could be made again. A refusal changes nothing.
pub fn step_and_undo(alloc: Global, sim: &mut Sim, event: Event) -> Result<Vec<Notice>, Refusal>
    ensures words { sim.new.words ≡ sim.old.words }
    ensures accepted { IfOk result (λ notices. Accepts sim.old.seen event notices.items) }
    ensures seen { OnOk result (sim.new.seen ≡ record sim.old.seen
        { trail = take sim.old.seen.cursor sim.old.seen.trail ++ event ∷ [] }) }
    ensures kept { OnErr result (sim.new ≡ sim.old) }
{
    sim.is_chained();
    let notices = sim.step(alloc, event)?;
    let _ = sim.undo();
    Ok(notices)
}

/// Takes the last step back, if there is one, and makes it again: every word is then as it was before.
pub fn undo_and_redo(sim: &mut Sim)
    ensures words { sim.new.words ≡ sim.old.words }
    ensures seen { sim.new.seen ≡ sim.old.seen }
{
    sim.is_chained();
    if sim.cursor() > 0 {
        let _ = sim.undo();
        let _ = sim.redo();
    }
}

/// Makes the next step again, if there is one, and takes it back: every word is then as it was before.
pub fn redo_and_undo(sim: &mut Sim)
    ensures words { sim.new.words ≡ sim.old.words }
    ensures seen { sim.new.seen ≡ sim.old.seen }
{
    sim.is_chained();
    if sim.cursor() < sim.trail().len() {
        let _ = sim.redo();
        let _ = sim.undo();
    }
}

/// Makes an event, takes it back and makes it again: the words then mean a state that the rules allow behind those before, with
/// these notices. A refusal changes nothing.
pub fn step_undo_and_redo(
    alloc: Global,
    sim: &mut Sim,
    event: Event,
) -> Result<Vec<Notice>, Refusal>
    ensures allowed { IfOk result (λ notices.
        Allowed (read sim.old.words) event (outcome (read sim.new.words) notices.items)) }
    ensures seen { OnOk result (sim.new.seen ≡ record sim.old.seen {
      trail = take
          sim.old.seen.cursor sim.old.seen.trail ++ event ∷ [];
      cursor = sim.old.seen.cursor + 1;
    }) }
    ensures kept { OnErr result (sim.new ≡ sim.old) }
{
    sim.is_chained();
    sim.is_reversible();
    let notices = sim.step(alloc, event)?;
    undo_and_redo(sim);
    sim.is_chained();
    Ok(notices)
}

/// Opens a simulation of the same cluster, and takes all steps back: the words of the two are equal. Want of memory changes
/// nothing.
pub fn open_and_undo_all(alloc: Global, sim: &mut Sim) -> Result<Sim, OutOfMemory>
    ensures words { IfOk result (λ fresh. sim.new.words ≡ fresh.words) }
    ensures seen { OnOk result (sim.new.seen ≡ record sim.old.seen { cursor = 0 }) }
    ensures fresh { IfOk result (λ fresh. (fresh.seen ≡ opened sim.old.seen.cluster
        sim.old.seen.pick) × (fresh.words ≡ first_words sim.old.seen.cluster)) }
    ensures kept { OnErr result (sim.new ≡ sim.old) }
{
    sim.is_chained();
    let cluster = sim.cluster().copy(alloc)?;
    let fresh = Sim::open(alloc, cluster, sim.pick())?;
    sim.undo_all();
    Ok(fresh)
}

/// Takes all steps back, and makes all again: where none could be made again before, every word is as it was.
pub fn undo_all_and_redo_all(sim: &mut Sim)
    ensures words { sim.old.seen.cursor ≡ length sim.old.seen.trail
        → sim.new.words ≡ sim.old.words }
    ensures seen { sim.new.seen ≡ record sim.old.seen { cursor = length sim.old.seen.trail } }
{
    sim.is_chained();
    sim.undo_all();
    sim.redo_all();
}

/// Makes calls one after the other, any number of steps, undos and redos among them. Where no step is made while fewer events
/// stand than did before, and as many stand at the end, every word is as it was before.
pub fn answer_all(alloc: Global, sim: &mut Sim, calls: &[Call]) -> Result<(), OutOfMemory>
    ensures seen { OnOk result (sim.new.seen ≡ sim_after sim.old.seen calls.now) }
    ensures chain { OnOk result
        ((k : ℕ) → KeepsTo sim.old.seen calls.now k → chain sim.new k ≡ chain sim.old k) }
    ensures words { OnOk result (KeepsTo sim.old.seen calls.now sim.old.seen.cursor
        → sim.new.seen.cursor ≡ sim.old.seen.cursor → sim.new.words ≡ sim.old.words) }
{
    sim.is_chained();
    for call in calls {
        sim.answer(alloc, *call)?;
    }
    sim.is_chained();
    Ok(())
}

/// Makes an event in a room, and takes it back by the call that comes next, of another session: every word of the room's
/// simulation is then as it was before. Tells the receipt for the step; one that is refused isn't taken back. A fault may come
/// behind the step.
pub fn serve_step_and_undo(
    alloc: Global,
    room: &mut Room,
    one: &mut Pass,
    other: &mut Pass,
    event: Event,
) -> Result<Receipt, RoomFault>
    ensures words { OnOk result (room.new.sim.words ≡ room.old.sim.words) }
    ensures receipt { IfOk result (λ receipt. receipt ≡ receipt_of room.old (call.Step event)) }
    ensures seen { OnOk result ((notices : List Notice) → Accepts room.old.sim.seen event notices
        → room.new.sim.seen ≡ record room.old.sim.seen
        { trail = take room.old.sim.seen.cursor room.old.sim.seen.trail ++ event ∷ [] }) }
{
    room.sim().is_chained();
    let receipt = room.serve(alloc, one, Call::Step(event))?;
    if let Reply::Done(_) = receipt.reply {
        room.serve(alloc, other, Call::Undo)?;
    }
    Ok(receipt)
}

/// The same of one session, which takes its own step back by its next call.
pub fn serve_step_and_own_undo(
    alloc: Global,
    room: &mut Room,
    pass: &mut Pass,
    event: Event,
) -> Result<Receipt, RoomFault>
    ensures words { OnOk result (room.new.sim.words ≡ room.old.sim.words) }
    ensures receipt { IfOk result (λ receipt. receipt ≡ receipt_of room.old (call.Step event)) }
    ensures seen { OnOk result ((notices : List Notice) → Accepts room.old.sim.seen event notices
        → room.new.sim.seen ≡ record room.old.sim.seen
        { trail = take room.old.sim.seen.cursor room.old.sim.seen.trail ++ event ∷ [] }) }
{
    room.sim().is_chained();
    let receipt = room.serve(alloc, pass, Call::Step(event))?;
    if let Reply::Done(_) = receipt.reply {
        room.serve(alloc, pass, Call::Undo)?;
    }
    Ok(receipt)
}

/// From every state that a cluster file and any list of calls reach: each accepted step is one that the rules allow; undoing it
/// gives the whole earlier state, and redoing it the later; a refused call changes nothing; undoing all gives the first
/// state, redoing all the last.
///
/// That undo and redo lead there holds of the definition `served` by its form. That they lead there in the program is said by
/// [`step_and_undo`] and those beside it.
pub fn rehearsals_are_reversible()
    ensures { RehearsalsAreReversible }
{}

/// The same over every log of sessions that is legal on a cluster file, however their calls come between one another: behind each
/// entry stands a simulation of which the law above speaks; a step whose session was told that it was accepted is one that the
/// rules allow, undoing it gives the whole earlier state, and redoing it the later; a call whose session was told that it was
/// refused changed nothing. What a room's undo restores is said by [`serve_step_and_undo`].
pub fn sessions_are_reversible()
    ensures { SessionsAreReversible }
{}
