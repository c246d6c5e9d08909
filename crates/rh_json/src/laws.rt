//! What ties the lines of a run to what a run prints. Each function does nothing: its contract is the law.

ghost use Rattle.rh_json.specs.Laws.{CommandsAreAnswered, NoticesAreReplied};

use rh_trail::Sim;

/// A law: the commands that have lines are those that [`rh_run::run`] answers, in their order.
pub fn commands_are_answered()
    ensures { CommandsAreAnswered }
{}

/// A law: in each simulation the notices that a line tells of a step are those of its reply, in their order. So the times of a tick's
/// notices are added to them, and nothing else.
pub fn notices_are_replied(sim: &Sim)
    ensures { NoticesAreReplied sim.now.seen }
{
    let _state = sim.state();
}
