//! The sessions' threads.
//!
//! What a thread did to the room behind its lock, no contract says. So the room is closed behind them, which compares what each
//! session was told with the log, and the log is compared with the commands: what is answered then is a history of them,
//! whatever the threads did.

ghost use Rattle.std.specs.Prelude.{◌≡◌, ◌↔◌, ◌++◌, ◌∷◌, [], ℕ, map, false, All, IsNone, IsTrue, IfOk, IfErr, OnOk};
ghost use Rattle.std.specs.List.{list_any, range_with_len};
ghost use Rattle.rh_trail.specs.Lone.{opened, sim_after};
ghost use Rattle.rh_room.specs.Legal.{IsSession, calls, new_pass, session_limit};
ghost use Rattle.rh_app.specs.Histories.{IsHistory, answered, calls_by, session_count, asked, by_session};
ghost use Rattle.rh_app.specs.Workers.{WereServed, WhyNoHistory, WhyNoPasses, had_fault, lacked_memory, pass_of};

use crate::fault::HistoryFault;
use rh_base::{OutOfMemory, are_same};
use rh_calls::Call;
use rh_cluster::Cluster;
use rh_room::{Closed, Entry, Pass, Room, RoomFault, Shared, close, open_room};
use rh_rules::Pick;
use rh_script::Command;
use std::alloc::Global;
use std::sync::{Mutex, Wait};
use std::thread;
use std::thread::Threads;

// What a session's thread gives back.
#[derive(Drop)]
struct Ended {
    pass: Pass,
    fault: Option<RoomFault>,
}

/// Has each session make its commands in a thread of its own, and gives the closed room.
pub fn history_of<T: Threads + Wait + Sync>(
    rt: &T,
    alloc: Global,
    cluster: &Cluster,
    commands: &[Command],
    pick: Pick,
) -> Result<Closed, HistoryFault>
    requires { All (λ c. IsSession session_limit c.session) commands.now }
    ensures history { IfOk result
        (λ closed. IsHistory cluster.now pick commands.now closed.log.items) }
    ensures sim { IfOk result
        (λ closed. closed.sim.seen ≡ sim_after (opened cluster.now pick) (calls closed.log.items)) }
{
    let (room, passes) = open_with_passes(alloc, cluster, commands, pick)?;
    let (room, passes) = serve_sessions(rt, alloc, room, passes, commands)?;
    history_in(alloc, cluster, commands, pick, room, passes)
}

// The closed room, if it closes on the cluster and has the commands.
fn history_in(
    alloc: Global,
    cluster: &Cluster,
    commands: &[Command],
    pick: Pick,
    room: Room,
    passes: Vec<Pass>,
) -> Result<Closed, HistoryFault>
    requires { All (λ c. IsSession session_limit c.session) commands.now }
    ensures history { IfOk result
        (λ closed. IsHistory cluster.now pick commands.now closed.log.items) }
    ensures sim { IfOk result
        (λ closed. closed.sim.seen ≡ sim_after (opened cluster.now pick) (calls closed.log.items)) }
    ensures fault { IfErr result (WhyNoHistory cluster.now pick commands.now room passes.items) }
{
    let Ok(closed) = close(room, passes, cluster, pick) else {
        return Err(HistoryFault::Room);
    };
    if are_interleaved(alloc, commands, closed.log.as_slice())? {
        Ok(closed)
    } else {
        Err(HistoryFault::Room)
    }
}

// A room with a pass for each session.
fn open_with_passes(
    alloc: Global,
    cluster: &Cluster,
    commands: &[Command],
    pick: Pick,
) -> Result<(Room, Vec<Pass>), OutOfMemory>
    requires { All (λ c. IsSession session_limit c.session) commands.now }
    ensures sim { IfOk result (λ opening. opening.0.sim.seen ≡ opened cluster.now pick) }
    ensures sessions { IfOk result (λ opening. opening.0.sessions ≡ session_count commands.now) }
    ensures log { IfOk result (λ opening. opening.0.log ≡ []) }
    ensures passes { IfOk result (λ opening.
        opening.1.items ≡ map new_pass (range_with_len 1 (session_count commands.now))) }
{
    let copy = cluster.copy(alloc)?;
    open_room(alloc, copy, pick, session_count(commands)).map_err(|_| OutOfMemory)
}

// The greatest number of a session, and 1 without commands.
fn session_count(commands: &[Command]) -> u8
    requires { All (λ c. IsSession session_limit c.session) commands.now }
    ensures count { result ≡ session_count commands.now }
    ensures few { IsSession session_limit result }
{
    let mut count = 1;
    for command in commands {
        if count < command.session {
            count = command.session;
        }
    }
    count
}

// The room and the passes, when all threads have ended, without a fault: each session was answered its commands.
fn serve_sessions<T: Threads + Wait + Sync>(
    rt: &T,
    alloc: Global,
    room: Room,
    passes: Vec<Pass>,
    commands: &[Command],
) -> Result<(Room, Vec<Pass>), HistoryFault>
    ensures { IfOk result (λ both. WereServed commands.now passes.items both.1.items) }
{
    let shared = Mutex::new(room);
    let passes = in_threads(rt, alloc, &shared, passes, commands);
    let room = shared.into_inner();
    Ok((room, passes?))
}

// The passes, when each session has made its commands, all and in order, in a thread of its own.
fn in_threads<T: Threads + Wait + Sync>(
    rt: &T,
    alloc: Global,
    shared: &Shared,
    passes: Vec<Pass>,
    commands: &[Command],
) -> Result<Vec<Pass>, HistoryFault>
    ensures { IfOk result (λ served. WereServed commands.now passes.items served.items) }
{
    let ended = thread::map_vec(rt, passes, &|pass| work(rt, alloc, shared, pass, commands))?;
    passes_of(alloc, ended)
}

// Makes the commands of a session, in order, as far as there is no fault. Without one, the session was answered all of them.
fn work<T: Wait>(rt: &T, alloc: Global, shared: &Shared, given: Pass, commands: &[Command]) -> Ended
    ensures session { result.pass.session ≡ given.session }
    ensures answered { IsNone result.fault
        → answered result.pass ≡ answered given ++ calls_by given.session commands.now }
{
    let mut pass = given;
    let fault = make_own(rt, alloc, shared, &mut pass, commands).err();
    Ended { pass, fault }
}

// Makes those of the commands that are the session's.
fn make_own<T: Wait>(
    rt: &T,
    alloc: Global,
    shared: &Shared,
    pass: &mut Pass,
    commands: &[Command],
) -> Result<(), RoomFault>
    ensures session { pass.new.session ≡ pass.old.session }
    ensures answered { OnOk result
        (answered pass.new ≡ answered pass.old ++ calls_by pass.old.session commands.now) }
{
    let own = commands_by(alloc, pass.session(), commands).map_err(|_| RoomFault::OutOfMemory)?;
    make_all(rt, alloc, shared, pass, own.as_slice())
}

// Makes these commands, each under the lock.
fn make_all<T: Wait>(
    rt: &T,
    alloc: Global,
    shared: &Shared,
    pass: &mut Pass,
    commands: &[Command],
) -> Result<(), RoomFault>
    ensures session { pass.new.session ≡ pass.old.session }
    ensures answered { OnOk result
        (answered pass.new ≡ answered pass.old ++ map (λ c. c.call) commands.now) }
{
    for command in commands {
        make_one(rt, alloc, shared, pass, command.call)?;
    }
    Ok(())
}

// Makes a call under the lock.
fn make_one<T: Wait>(
    rt: &T,
    alloc: Global,
    shared: &Shared,
    pass: &mut Pass,
    call: Call,
) -> Result<(), RoomFault>
    ensures session { pass.new.session ≡ pass.old.session }
    ensures answered { OnOk result (answered pass.new ≡ answered pass.old ++ call ∷ []) }
{
    shared.lock(rt).serve(alloc, pass, call)?;
    Ok(())
}

// The passes of the sessions, if none had a fault. Want of memory is the first fault that is told.
fn passes_of(alloc: Global, ended: Vec<Ended>) -> Result<Vec<Pass>, HistoryFault>
    ensures passes { IfOk result (λ passes. passes.items ≡ map pass_of ended.items) }
    ensures fine { OnOk result (list_any had_fault ended.items ≡ false) }
    ensures fault { IfErr result (WhyNoPasses ended.items) }
{
    if lacked_memory(ended.as_slice()) {
        return Err(HistoryFault::OutOfMemory);
    }
    if had_fault(ended.as_slice()) {
        return Err(HistoryFault::Room);
    }
    let passes = ended.into_iter().map(|one| one.pass).collect(alloc)?;
    Ok(passes)
}

// Did a session lack memory?
fn lacked_memory(ended: &[Ended]) -> bool
    ensures { result ≡ list_any lacked_memory ended.now }
{
    ended
        .iter()
        .any(|one| matches!(one.fault, Some(RoomFault::OutOfMemory)))
}

// Had a session a fault?
fn had_fault(ended: &[Ended]) -> bool
    ensures { result ≡ list_any had_fault ended.now }
{
    ended.iter().any(|one| one.fault.is_some())
}

// Does the log have each session's commands, all and in their order, and no others?
fn are_interleaved(alloc: Global, commands: &[Command], log: &[Entry]) -> Result<bool, OutOfMemory>
    requires commands { All (λ c. IsSession session_limit c.session) commands.now }
    requires log { All (λ e. IsSession session_limit e.session) log.now }
    ensures { IfOk result (λ are. IsTrue are ↔ ((session : ℕ)
        → by_session session (map asked log.now) ≡ by_session session commands.now)) }
{
    let logged = commands_in_log(alloc, log)?;
    for before in 0..Room::SESSION_LIMIT {
        let these = commands_by(alloc, before + 1, logged.as_slice())?;
        let those = commands_by(alloc, before + 1, commands)?;
        if !are_same(these.as_slice(), those.as_slice()) {
            return Ok(false);
        }
    }
    Ok(true)
}

// The commands of a session.
fn commands_by(
    alloc: Global,
    session: u8,
    commands: &[Command],
) -> Result<Vec<Command>, OutOfMemory>
    ensures { IfOk result (λ found. found.items ≡ by_session session commands.now) }
{
    let found = commands
        .iter()
        .filter(|command| command.session == session)
        .copied()
        .collect(alloc)?;
    Ok(found)
}

// The commands of a log.
fn commands_in_log(alloc: Global, log: &[Entry]) -> Result<Vec<Command>, OutOfMemory>
    ensures { IfOk result (λ found. found.items ≡ map asked log.now) }
{
    let found = log
        .iter()
        .map(|entry| Command {
            session: entry.session,
            call: entry.call,
        })
        .collect(alloc)?;
    Ok(found)
}
