//! What an event changes of itself.

ghost use Rattle.std.specs.Prelude.{◌≡◌, None, OnOk};
ghost use Rattle.rh_state.specs.Stored.{read};
ghost use Rattle.rh_trace.specs.Traces.{course};
ghost use Rattle.rh_trace.specs.Counts.{FewWeighed};
ghost use Rattle.rh_trace.specs.Ways.{Goes};
ghost use Rattle.rh_trace.specs.Validity.{IsSound};
ghost use Rattle.rh_rules.specs.Steps.{change};
ghost use Rattle.rh_events.specs.Counts.{own_edits};
ghost use Rattle.rh_rules.specs.Refusals.{refused};

use crate::booting::boot;
use crate::by_hand::{exit, permit, stop, take_over};
use crate::ending::end;
use crate::everywhere::{start_all, stop_all};
use crate::marking::mark;
use rh_base::OutOfMemory;
use rh_rules::Event;
use rh_state::State;
use rh_trace::Trace;

/// The change of an event that isn't refused, before nodes come up and applications settle. That of a tick is what its
/// timers do, and none of it is made here. Where memory is refused, the state is one on the way.
#[tactic(auto, using(rh_trace::proofs::Ways::goes_none))]
pub fn change(state: &mut State, event: &Event, trace: &mut Trace) -> Result<(), OutOfMemory>
    requires accepted { refused (read state.old) event.now ≡ None }
    requires sound { IsSound (read state.old) }
    ensures course { OnOk result
        (course (read state.new) trace.new ≡ change (course (read state.old) trace.old) event.now) }
    ensures way { Goes state.old trace.old state.new trace.new }
    ensures few { OnOk result (FewWeighed (read state.old).cluster
        (own_edits (read state.old).cluster event.now) trace.old trace.new) }
{
    match *event {
        Event::Boot { node } => boot(state, node, trace),
        Event::Crash { node } => end(state, node, trace),
        Event::Tick { .. } => Ok(()),
        Event::Start { node, app, restart } => mark(state, node, app, restart, trace),
        Event::Stop { node, app } => stop(state, node, app, trace),
        Event::Permit { node, app, allow } => permit(state, node, app, allow, trace),
        Event::Takeover { node, app, restart } => take_over(state, node, app, restart, trace),
        Event::Exit { node, app, normal } => exit(state, node, app, normal, trace),
        Event::StartAll { app, restart } => start_all(state, app, restart, trace),
        Event::StopAll { app } => stop_all(state, app, trace),
    }
}
