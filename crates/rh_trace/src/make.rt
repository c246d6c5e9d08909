//! What a move does.

ghost use Rattle.std.specs.Prelude.{◌≡◌, ◌++◌, ◌∷◌, [], None, OnOk};
ghost use Rattle.rh_state.specs.Shape.{IsKindOf};
ghost use Rattle.rh_state.specs.Stored.{read};
ghost use Rattle.rh_rules.specs.declared.notice.Move.TheVariants.{Local, Placement, Takeover};
ghost use Rattle.rh_state.specs.declared.status.Kind.TheVariants as kind;
ghost use Rattle.rh_rules.specs.declared.notice.Notice.TheVariants.{Started, Stopped};
ghost use Rattle.rh_trace.specs.Traces.{course};
ghost use Rattle.rh_trace.specs.Counts.{FewEdits};
ghost use Rattle.rh_trace.specs.Ways.{Tells, TellsNothing, Goes};
ghost use Rattle.rh_rules.specs.Moves.{with_started, with_stopped, lost_elsewhere, moved};
ghost use Rattle.rh_trace.specs.Making.{IsStartedPair, CanBeMade};

use crate::recording;
use crate::starting::start_kind;
use crate::trace::Trace;
use rh_base::OutOfMemory;
use rh_model::{App, Node};
use rh_rules::{Move, Notice};
use rh_state::{Kind, Standing, State};

// A pair that is started runs from now on.
#[tactic(auto, using(crate::proofs::Ways::goes_none, crate::proofs::Ways::goes_more))]
fn start_at(
    state: &mut State,
    node: Node,
    app: App,
    kind: Kind,
    trace: &mut Trace,
) -> Result<(), OutOfMemory>
    requires pair { IsStartedPair (read state.old) node app }
    requires kind { IsKindOf (read state.old).cluster kind }
    ensures part { OnOk result (read state.new ≡ with_started (read state.old) node app kind) }
    ensures silent { TellsNothing trace.old trace.new }
    ensures way { Goes state.old trace.old state.new trace.new }
    ensures few { FewEdits 3 trace.old trace.new }
{
    state.formed();
    recording::unlink(state, node, app, trace)?;
    recording::push_running(state, node, app, trace)?;
    recording::set_kind(state, node, app, kind, trace)
}

// A pair that is started waits from now on.
#[tactic(auto, using(crate::proofs::Ways::goes_none, crate::proofs::Ways::goes_more))]
fn stop_at(state: &mut State, node: Node, app: App, trace: &mut Trace) -> Result<(), OutOfMemory>
    requires { IsStartedPair (read state.old) node app }
    ensures part { OnOk result (read state.new ≡ with_stopped (read state.old) node app) }
    ensures silent { TellsNothing trace.old trace.new }
    ensures way { Goes state.old trace.old state.new trace.new }
    ensures few { FewEdits 2 trace.old trace.new }
{
    state.formed();
    recording::unlink(state, node, app, trace)?;
    recording::push_waiting(state, node, app, trace)
}

// The node with which an application was lost, if it is another one.
fn lost_elsewhere(from: Option<Node>, node: Node) -> Option<Node>
    ensures { result ≡ lost_elsewhere from node }
{
    match from {
        Some(other) if other.0 != node.0 => Some(other),
        _ => None,
    }
}

// A local application starts.
fn start_locally(
    state: &mut State,
    node: Node,
    app: App,
    trace: &mut Trace,
) -> Result<(), OutOfMemory>
    requires { IsStartedPair (read state.old) node app }
    ensures course { OnOk result (course (read state.new) trace.new
        ≡ moved (course (read state.old) trace.old) (Local node app)) }
    ensures way { Goes state.old trace.old state.new trace.new }
    ensures few { FewEdits 0 trace.old trace.new }
{
    trace.tell(Notice::Started {
        app,
        node,
        kind: Kind::Normal,
        lost: None,
    })?;
    start_at(state, node, app, Kind::Normal, trace)
}

// An application that is to run starts at a node.
fn place(
    state: &mut State,
    app: App,
    from: Option<Node>,
    node: Node,
    trace: &mut Trace,
) -> Result<(), OutOfMemory>
    requires { CanBeMade (read state.old) (Placement app from node) }
    ensures course { OnOk result (course (read state.new) trace.new
        ≡ moved (course (read state.old) trace.old) (Placement app from node)) }
    ensures way { Goes state.old trace.old state.new trace.new }
    ensures few { FewEdits 0 trace.old trace.new }
{
    let kind = start_kind(state, app, from, node);
    let lost = lost_elsewhere(from, node);
    trace.tell(Notice::Started {
        app,
        node,
        kind,
        lost,
    })?;
    start_at(state, node, app, kind, trace)?;
    recording::set_standing(state, app, Standing::Running(node), trace)
}

// An application has started at a node in place of another.
fn tell_takeover(app: App, from: Node, node: Node, trace: &mut Trace) -> Result<(), OutOfMemory>
    ensures told { OnOk result (trace.new.notices ≡ (trace.old.notices
        ++ Started app node (kind.Takeover from) None ∷ []) ++ Stopped app from ∷ []) }
    ensures marked { trace.new.marked ≡ trace.old.marked }
    ensures freed { trace.new.freed ≡ trace.old.freed }
    ensures edits { trace.new.edits ≡ trace.old.edits }
    ensures grows { Tells trace.old.notices trace.new.notices }
    ensures few { FewEdits 0 trace.old trace.new }
{
    let started = Notice::Started {
        app,
        node,
        kind: Kind::Takeover(from),
        lost: None,
    };
    trace.tell(started)?;
    trace.tell(Notice::Stopped { app, node: from })
}

// An application moves from a node to another.
fn take_over(
    state: &mut State,
    app: App,
    from: Node,
    node: Node,
    trace: &mut Trace,
) -> Result<(), OutOfMemory>
    requires { CanBeMade (read state.old) (Takeover app from node) }
    ensures course { OnOk result (course (read state.new) trace.new
        ≡ moved (course (read state.old) trace.old) (Takeover app from node)) }
    ensures way { Goes state.old trace.old state.new trace.new }
    ensures few { FewEdits 0 trace.old trace.new }
{
    tell_takeover(app, from, node, trace)?;
    start_at(state, node, app, Kind::Takeover(from), trace)?;
    stop_at(state, from, app, trace)?;
    recording::set_standing(state, app, Standing::Running(node), trace)
}

/// Makes a move, and tells it. Where memory is refused, the state is one on the way.
pub fn make_move(state: &mut State, next: Move, trace: &mut Trace) -> Result<(), OutOfMemory>
    requires { CanBeMade (read state.old) next }
    ensures course { OnOk result (course (read state.new) trace.new
        ≡ moved (course (read state.old) trace.old) next) }
    ensures way { Goes state.old trace.old state.new trace.new }
    ensures few { FewEdits 0 trace.old trace.new }
{
    match next {
        Move::Local { node, app } => start_locally(state, node, app, trace),
        Move::Placement { app, from, node } => place(state, app, from, node, trace),
        Move::Takeover { app, from, node } => take_over(state, app, from, node, trace),
    }
}
