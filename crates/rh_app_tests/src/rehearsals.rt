//! Whole runs over memory, with devices that give or take a little at a time, and devices that fail.

use crate::devices::{Failure, Sink, Source};
use rh_app::run_in_memory;
use rh_devices::{Reader, Sink as _, Watched, Writer};
use rh_run::{RunFault, run};
use rh_step::Pick;
use std::alloc::Global;
use std::process::Abort;

// Two bare nodes: boot, crash, undo, show, redo, undo all, undo, redo all.
static TWO_NODES: &str = "\
{node, a@x, []}. {node, b@x, []}.
===
boot a@x
crash a@x
undo
show
redo
undo_all
undo
redo_all
";

static TWO_NODES_TEXT: &str = "\
ok
up a@x
ok
ended a@x
ok
ok
now 0
node a@x up 1
node b@x down 0
ok
ok 2
refused at_start
ok 2
";

/// How a run ended, in a word.
pub fn word_of_end(ended: Result<(), RunFault>) -> &'static str {
    match ended {
        Ok(()) => "done",
        Err(RunFault::Cluster(_)) => "cluster",
        Err(RunFault::BadLine(_)) => "bad line",
        Err(RunFault::Read) => "read",
        Err(RunFault::Write) => "write",
        Err(RunFault::OutOfMemory) => "memory",
        Err(RunFault::Sweep(_)) => "sweep",
        Err(RunFault::Room) => "room",
        Err(RunFault::Refused) => "refused",
        Err(RunFault::Differs) => "differs",
        Err(RunFault::Unfinished) => "unfinished",
    }
}

// How a run over these devices ends.
fn end_of(alloc: Global, source: Source<'_>, sink: &mut Sink) -> &'static str {
    let mut reader = Watched::new(Reader::new(source));
    let mut writer = Watched::new(Writer::new(sink));
    word_of_end(run(alloc, &mut reader, &mut writer, Pick::First))
}

// Does a run over this reader end so, with this text?
fn is_end(rt: &impl Abort, alloc: Global, source: Source<'_>, end: &str, text: &str) -> bool {
    let mut sink = Sink::new(alloc);
    let ended = end_of(alloc, source, &mut sink);
    assert!(rt; ended == "read" || ended == "done");
    ended == end && sink.bytes.as_slice() == text.as_bytes()
}

#[test]
fn reads_one_byte_a_call(rt: HostRuntime) {
    let source = Source::byte_by_byte(TWO_NODES.as_bytes());
    assert!(rt; is_end(&rt, rt.alloc(), source, "done", TWO_NODES_TEXT));
}

#[test]
fn writes_one_byte_a_call(rt: HostRuntime) {
    let mut sink = Sink::byte_by_byte(rt.alloc());
    let source = Source::of(TWO_NODES.as_bytes());
    assert!(rt; end_of(rt.alloc(), source, &mut sink) == "done");
    assert!(rt; sink.bytes.as_slice() == TWO_NODES_TEXT.as_bytes());
}

// No clause can say that memory is there. Here it is, so the whole text is answered, and how the run ended.
#[test]
fn runs_over_memory(rt: HostRuntime) {
    let answer = run_in_memory(rt.alloc(), TWO_NODES.as_bytes(), Pick::First)
        .ok()
        .expect(&rt, "memory");
    assert!(rt; answer.text.as_slice() == TWO_NODES_TEXT.as_bytes());
    assert!(rt; word_of_end(answer.end) == "done");
}

// The last call of the reader is the one that tells the end; it isn't called again behind that.
#[test]
fn writes_nothing_after_a_failed_read(rt: HostRuntime) {
    let calls = TWO_NODES.len() as u32 + 1;
    for call in 0..calls {
        let source = Source::failing_after(TWO_NODES.as_bytes(), call);
        assert!(rt; is_end(&rt, rt.alloc(), source, "read", ""), "call {call}");
    }
    let source = Source::failing_after(TWO_NODES.as_bytes(), calls);
    assert!(rt; is_end(&rt, rt.alloc(), source, "done", TWO_NODES_TEXT));
}

// Does a run whose writer fails at this call end as it must? Did it fail?
fn leaves_a_front(rt: &impl Abort, alloc: Global, call: u32, failure: Failure) -> bool {
    let mut sink = Sink::failing_after(alloc, call, failure);
    let ended = end_of(alloc, Source::of(TWO_NODES.as_bytes()), &mut sink);
    let text = TWO_NODES_TEXT.as_bytes();
    let has_failed = sink.bytes.len() < text.len();
    assert!(rt; text.starts_with(sink.bytes.as_slice()), "call {call}");
    assert!(rt;
        ended == (if has_failed { "write" } else { "done" }),
        "call {call}"
    );
    has_failed
}

// At most three bytes go with each call, so there are at least 28 calls that can fail.
#[test]
fn leaves_a_front_after_a_failed_write(rt: HostRuntime) {
    for failure in [Failure::Error, Failure::Full] {
        let mut failed: u32 = 0;
        for call in 0..200 {
            if leaves_a_front(&rt, rt.alloc(), call, failure) {
                failed = failed.saturating_add(1);
            }
        }
        assert!(rt; failed >= 28, "{failure:?}");
    }
}

// No clause can say that a flush of the wrapper is one of the device.
#[test]
fn a_flush_is_the_inner_one(rt: HostRuntime) {
    let mut sink = Sink::new(rt.alloc());
    let flushed = Watched::new(Writer::new(&mut sink)).flush();
    assert!(rt; flushed.is_ok());
    assert!(rt; sink.flushes == 1);
}
