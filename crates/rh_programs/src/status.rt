//! A program from its devices to the exit status.

ghost use Rattle.std.specs.Prelude.{◌≡◌, false, true};
ghost use Rattle.rh_manner.specs.DialogueText.{DialogueGives};
ghost use Rattle.rh_run.specs.Programs.{ProgramGives};
ghost use Rattle.rh_asked.specs.Programs.{IsStaffed, is_alone};
ghost use Rattle.rh_programs.specs.Status.{DialogueStatus, Owes, MayTear, Flushed, IsDone, StatusGives, live, manual, said_in, status_of, tongue_of};

use crate::sweeping::{sweep_json, sweep_json_alone};
use rh_app::{run_sessions, run_sweep, run_sweep_alone};
use rh_asked::{Manner, Program};
use rh_devices::{Sink, Source, Watched};
use rh_explore::{Alone, Threaded, Watch};
use rh_explore_text::{explore_json, run_explore};
use rh_json::{check_json, run_json};
use rh_lint::run_lint;
use rh_manner::{Form, Voice, run_dialogue, run_in};
use rh_otp_dialogue::{LiveVoice, run_live_dialogue};
use rh_otp_explore_text::run_explore_live;
use rh_otp_json::live_json;
use rh_otp_lint::run_live_lint;
use rh_otp_net::Order;
use rh_otp_plans::{sweep_live, sweep_live_json};
use rh_otp_run::run_live;
use rh_otp_story::run_live_story;
use rh_otp_sweep::{Alone as OneTries, Threaded as ManyTry};
use rh_otp_verify::run_live_verify;
use rh_rules::Pick;
use rh_run::{RunFault, run, run_check};
use rh_story::run_story;
use rh_verify::run_verify;
use std::alloc::Global;
use std::sync::Wait;
use std::thread::Threads;

// The manner in which a run writes the answers alone.
const PLAIN: Manner = Manner {
    echo: false,
    strict: false,
};

/// Runs a program that starts no threads over its devices, flushes the writer, however it ended, and answers the exit status.
/// It is lent nothing by which it could wait. Of a search it is told how far that is.
///
/// 0 says that the whole text of all that was read was written and flushed, and tells no fault. 2 is a text that describes no
/// cluster, 3 a bad line, 4 a device that failed or an input that is too long, 5 want of memory, 6 plans that can't be swept,
/// 9 a step that was refused where the program was asked to be strict, or what a script expects or asks and doesn't hold, or an
/// input in which lint finds what counts, 10 a search that ended before all was looked at.
pub fn rehearse_alone<S: Source, K: Sink, W: Watch>(
    alloc: Global,
    program: Program,
    reader: &mut Watched<S>,
    writer: &mut Watched<K>,
    watch: &mut W,
) -> u8
    requires reader { reader.old.failed ≡ false }
    requires writer { writer.old.failed ≡ false }
    requires alone { is_alone program ≡ true }
    ensures ends { StatusGives S.gives S.fails K.takes K.flushes K.fails program result reader.old
        reader.new writer.old writer.new }
    ensures done { result ≡ 0
        → IsDone S.gives K.takes K.flushes program reader.old reader.new writer.old writer.new }
{
    let ended = ended_alone(alloc, program, reader, writer, watch);
    flush_and_answer(ended, writer)
}

/// Runs a program over its devices, with threads where it starts any, flushes the writer, however it ended, and answers the
/// exit status. It may wait for its threads: the contract holds if it returns.
///
/// The status is that of [`rehearse_alone`]; and 6 is sessions whose threads made no one history, too.
pub fn rehearse_together<T: Threads + Wait + Sync, S: Source, K: Sink, W: Watch>(
    rt: &T,
    alloc: Global,
    program: Program,
    reader: &mut Watched<S>,
    writer: &mut Watched<K>,
    watch: &mut W,
) -> u8
    requires reader { reader.old.failed ≡ false }
    requires writer { writer.old.failed ≡ false }
    requires workers { IsStaffed program }
    ensures ends { StatusGives S.gives S.fails K.takes K.flushes K.fails program result reader.old
        reader.new writer.old writer.new }
    ensures done { result ≡ 0
        → IsDone S.gives K.takes K.flushes program reader.old reader.new writer.old writer.new }
{
    let ended = ended_together(rt, alloc, program, reader, writer, watch);
    flush_and_answer(ended, writer)
}

/// In which voice a program answers each line of a script before more is read, and by which rules.
#[derive(Clone, Copy)]
pub enum Tongue {
    /// By the manual's rules.
    Manual(Voice),
    /// By those of live nodes.
    Live(LiveVoice),
}

/// In which tongue a program answers each line of a script before more is read, by [`rehearse_dialogue`]; nothing where it reads all
/// first.
pub fn tongue_of(program: Program) -> Option<Tongue>
    ensures { result ≡ tongue_of program }
{
    match program {
        Program::Dialogue(pick) => Some(manual(pick, Form::Plain)),
        Program::DialogueJson(pick) => Some(manual(pick, Form::Json)),
        Program::DialogueLive(order) => Some(live(order, Form::Plain)),
        Program::DialogueLiveJson(order) => Some(live(order, Form::Json)),
        _ => None,
    }
}

// By the manual's rules, in this form.
fn manual(pick: Pick, form: Form) -> Tongue
    ensures { result ≡ manual pick form }
{
    Tongue::Manual(Voice { pick, form })
}

// By those of live nodes.
fn live(order: Order, form: Form) -> Tongue
    ensures { result ≡ live order form }
{
    Tongue::Live(LiveVoice { order, form })
}

/// Answers each command of a script before more is read, in this tongue, over one device with both directions, flushes it, however
/// that ended, and answers the exit status, which is that of [`rehearse_alone`].
pub fn rehearse_dialogue<D: Source + Sink>(
    alloc: Global,
    tongue: Tongue,
    device: &mut Watched<D>,
) -> u8
    requires { device.old.failed ≡ false }
    ensures { DialogueStatus D.Source.gives D.Source.fails D.Sink.takes D.Sink.flushes D.Sink.fails
        (said_in tongue) result device.old device.new }
{
    let ended = talk(alloc, tongue, device);
    flush_and_answer(ended, device)
}

// Answers them so, and says how that ended.
fn talk<D: Source + Sink>(
    alloc: Global,
    tongue: Tongue,
    device: &mut Watched<D>,
) -> Result<(), RunFault>
    requires { device.old.failed ≡ false }
    ensures { DialogueGives D.Source.gives D.Source.fails D.Sink.takes D.Sink.flushes D.Sink.fails
        (said_in tongue) result device.old device.new }
{
    match tongue {
        Tongue::Manual(voice) => run_dialogue(alloc, device, voice),
        Tongue::Live(voice) => run_live_dialogue(alloc, device, voice),
    }
}

// Runs a program that starts no threads over its devices.
fn ended_alone<S: Source, K: Sink, W: Watch>(
    alloc: Global,
    program: Program,
    reader: &mut Watched<S>,
    writer: &mut Watched<K>,
    watch: &mut W,
) -> Result<(), RunFault>
    requires reader { reader.old.failed ≡ false }
    requires writer { writer.old.failed ≡ false }
    requires alone { is_alone program ≡ true }
    ensures { ProgramGives S.gives S.fails K.takes K.fails (Owes program)
        (MayTear program) result reader.old reader.new writer.old writer.new }
{
    match program {
        Program::Check => run_check(alloc, reader, writer),
        Program::CheckJson => check_json(alloc, reader, writer),
        Program::Run(pick) | Program::Dialogue(pick) => run(alloc, reader, writer, pick),
        Program::RunLive(order, manner) => run_live(alloc, reader, writer, order, manner),
        Program::DialogueLive(order) => run_live(alloc, reader, writer, order, PLAIN),
        Program::RunLiveJson(order) | Program::DialogueLiveJson(order) => {
            live_json(alloc, reader, writer, order)
        }
        Program::RunIn(pick, manner) => run_in(alloc, reader, writer, pick, manner),
        Program::RunJson(pick) | Program::DialogueJson(pick) => {
            run_json(alloc, reader, writer, pick)
        }
        Program::Story(pick, whole) => run_story(alloc, reader, writer, pick, whole),
        Program::StoryLive(order, whole) => { run_live_story(alloc, reader, writer, order, whole) }
        Program::Verify(pick) => run_verify(alloc, reader, writer, pick),
        Program::VerifyLive(order) => run_live_verify(alloc, reader, writer, order),
        Program::Lint(pick, manner) => run_lint(alloc, reader, writer, pick, manner),
        Program::LintLive(order, manner) => run_live_lint(alloc, reader, writer, order, manner),
        Program::Explore(pick, room, _) => {
            run_explore(&Alone, watch, alloc, reader, writer, pick, room)
        }
        Program::ExploreJson(pick, room, _) => {
            explore_json(&Alone, watch, alloc, reader, writer, pick, room)
        }
        Program::ExploreLive(order, lists, json) => {
            run_explore_live(alloc, reader, writer, order, lists, json)
        }
        Program::Sweep(pick, _) => run_sweep_alone(alloc, reader, writer, pick),
        Program::SweepJson(pick, _) => sweep_json_alone(alloc, reader, writer, pick),
        Program::SweepLive(order, _) => { sweep_live(&OneTries, alloc, reader, writer, order) }
        Program::SweepLiveJson(order, _) => {
            sweep_live_json(&OneTries, alloc, reader, writer, order)
        }
        Program::Sessions(_) => unreachable!(),
    }
}

// Runs a program over its devices, with threads where it starts any.
fn ended_together<T: Threads + Wait + Sync, S: Source, K: Sink, W: Watch>(
    rt: &T,
    alloc: Global,
    program: Program,
    reader: &mut Watched<S>,
    writer: &mut Watched<K>,
    watch: &mut W,
) -> Result<(), RunFault>
    requires reader { reader.old.failed ≡ false }
    requires writer { writer.old.failed ≡ false }
    requires workers { IsStaffed program }
    ensures { ProgramGives S.gives S.fails K.takes K.fails (Owes program)
        (MayTear program) result reader.old reader.new writer.old writer.new }
{
    match program {
        Program::Explore(pick, room, workers) => {
            let crew = Threaded::new(rt, workers);
            run_explore(&crew, watch, alloc, reader, writer, pick, room)
        }
        Program::ExploreJson(pick, room, workers) => {
            let crew = Threaded::new(rt, workers);
            explore_json(&crew, watch, alloc, reader, writer, pick, room)
        }
        Program::Sessions(pick) => run_sessions(rt, alloc, reader, writer, pick),
        Program::Sweep(pick, workers) => run_sweep(rt, alloc, reader, writer, pick, workers),
        Program::SweepJson(pick, workers) => {
            sweep_json(rt, alloc, reader, writer, pick, workers)
        }
        Program::SweepLive(order, workers) => {
            let crew = ManyTry::new(rt, workers);
            sweep_live(&crew, alloc, reader, writer, order)
        }
        Program::SweepLiveJson(order, workers) => {
            let crew = ManyTry::new(rt, workers);
            sweep_live_json(&crew, alloc, reader, writer, order)
        }
        _ => ended_alone(alloc, program, reader, writer, watch),
    }
}

// Flushes the writer, however the program ended, and answers the exit status.
fn flush_and_answer<K: Sink>(ended: Result<(), RunFault>, writer: &mut Watched<K>) -> u8
    ensures { Flushed K.flushes K.fails writer.old writer.new result ended }
{
    match writer.flush() {
        Ok(()) => status_of(&ended),
        Err(_) => 4,
    }
}

// The exit status for how a program ended.
fn status_of(ended: &Result<(), RunFault>) -> u8
    ensures { result ≡ status_of ended.now }
{
    match ended {
        Ok(()) => 0,
        Err(RunFault::Cluster(_)) => 2,
        Err(RunFault::BadLine(_)) => 3,
        Err(RunFault::Read | RunFault::Write) => 4,
        Err(RunFault::OutOfMemory) => 5,
        Err(RunFault::Sweep(_) | RunFault::Room) => 6,
        Err(RunFault::Refused | RunFault::Differs) => 9,
        Err(RunFault::Unfinished) => 10,
    }
}
