//! The opening of a room.

ghost use Rattle.std.specs.Prelude.{◌≡◌, [], map, IfOk, OnOk, IfErr};
ghost use Rattle.std.specs.List.{range_with_len};
ghost use Rattle.rh_trail.specs.Lone.{opened};
ghost use Rattle.rh_room.specs.Legal.{IsSession, new_pass, session_limit};
ghost use Rattle.rh_room.specs.Serving.{WhyNotOpened};

use crate::pass::{Pass, RoomFault};
use crate::room::Room;
use rh_base::OutOfMemory;
use rh_model::Cluster;
use rh_rules::Pick;
use rh_trail::Sim;
use std::alloc::Global;

/// Opens a room in the first state of a cluster, with an empty log, and gives a pass for each session, in order. Log and
/// passes have the memory for all calls that the room will serve. The cluster is dropped if there is a fault.
///
/// # Errors
/// `SessionCount` unless the number of sessions is 1 to [`Room::SESSION_LIMIT`], and `OutOfMemory`.
pub fn open_room(
    alloc: Global,
    cluster: Cluster,
    pick: Pick,
    sessions: u8,
) -> Result<(Room, Vec<Pass>), RoomFault>
    ensures sim { IfOk result (λ opening. opening.0.sim.seen ≡ opened cluster pick) }
    ensures sessions { IfOk result (λ opening. opening.0.sessions ≡ sessions) }
    ensures log { IfOk result (λ opening. opening.0.log ≡ []) }
    ensures passes { IfOk result
        (λ opening. opening.1.items ≡ map new_pass (range_with_len 1 sessions)) }
    ensures fine { OnOk result (IsSession session_limit sessions) }
    ensures fault { IfErr result (WhyNotOpened sessions) }
{
    if sessions == 0 || sessions > Room::SESSION_LIMIT {
        return Err(RoomFault::SessionCount);
    }
    match room_with_passes(alloc, cluster, pick, sessions) {
        Ok(opening) => Ok(opening),
        Err(OutOfMemory) => Err(RoomFault::OutOfMemory),
    }
}

// The room and its passes.
fn room_with_passes(
    alloc: Global,
    cluster: Cluster,
    pick: Pick,
    sessions: u8,
) -> Result<(Room, Vec<Pass>), OutOfMemory>
    requires { IsSession session_limit sessions }
    ensures sim { IfOk result (λ opening. opening.0.sim.seen ≡ opened cluster pick) }
    ensures sessions { IfOk result (λ opening. opening.0.sessions ≡ sessions) }
    ensures log { IfOk result (λ opening. opening.0.log ≡ []) }
    ensures passes { IfOk result
        (λ opening. opening.1.items ≡ map new_pass (range_with_len 1 sessions)) }
{
    let passes = new_passes(alloc, sessions)?;
    let log = Vec::with_capacity(alloc, Room::LOG_LIMIT)?;
    let sim = Sim::open(alloc, cluster, pick)?;
    Ok((Room::of(sim, sessions, log), passes))
}

// A pass for each session.
fn new_passes(alloc: Global, sessions: u8) -> Result<Vec<Pass>, OutOfMemory>
    ensures { IfOk result (λ passes. passes.items ≡ map new_pass (range_with_len 1 sessions)) }
{
    let mut passes = Vec::new(alloc);
    for before in 0..sessions {
        let pass = Pass::new(alloc, before + 1)?;
        passes.push(pass)?;
    }
    Ok(passes)
}
