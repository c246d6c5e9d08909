//! Sessions over memory, with devices that fail.

use crate::devices::{Failure, Sink, Source};
use crate::rehearsals::word_of_end;
use rh_app::run_sessions;
use rh_devices::{Reader, Watched, Writer};
use rh_step::Pick;
use std::alloc::Global;
use std::rt::Runtime;
use std::sync::Wait;
use std::thread::Threads;

// Two bare nodes, and a session that boots one and takes that back.
static CALLS: &str = "\
{node, a@x, []}. {node, b@x, []}.
===
1 boot a@x
1 undo
";

static CALLS_TEXT: &str = "\
entry 1 boot a@x
ok
up a@x
entry 1 undo
ok
final
now 0
node a@x down 0
node b@x down 0
";

// How sessions over these devices end.
fn end_of<T: Runtime<A = Global> + Threads + Wait + Sync>(
    rt: &T,
    source: Source<'_>,
    sink: &mut Sink,
) -> &'static str {
    let mut reader = Watched::new(Reader::new(source));
    let mut writer = Watched::new(Writer::new(sink));
    word_of_end(run_sessions(rt, rt.alloc(), &mut reader, &mut writer, Pick::First))
}

#[test]
fn take_and_give_one_byte_a_call(rt: HostRuntime) {
    let mut sink = Sink::byte_by_byte(rt.alloc());
    assert!(rt; end_of(&rt, Source::byte_by_byte(CALLS.as_bytes()), &mut sink) == "done");
    assert!(rt; sink.bytes.as_slice() == CALLS_TEXT.as_bytes());
}

#[test]
fn read_all_before_they_write(rt: HostRuntime) {
    for call in 0..CALLS.len() as u32 + 1 {
        let mut sink = Sink::new(rt.alloc());
        let source = Source::failing_after(CALLS.as_bytes(), call);
        assert!(rt; end_of(&rt, source, &mut sink) == "read", "call {call}");
        assert!(rt; sink.bytes.is_empty(), "call {call}");
    }
}

// At most three bytes go with each call.
#[test]
fn leave_a_front_after_a_failed_write(rt: HostRuntime) {
    let text = CALLS_TEXT.as_bytes();
    for failure in [Failure::Error, Failure::Full] {
        for call in 0..50 {
            let mut sink = Sink::failing_after(rt.alloc(), call, failure);
            let ended = end_of(&rt, Source::of(CALLS.as_bytes()), &mut sink);
            let is_whole = sink.bytes.as_slice() == text;
            assert!(rt; text.starts_with(sink.bytes.as_slice()), "call {call}");
            assert!(rt;
                ended == (if is_whole { "done" } else { "write" }),
                "call {call}"
            );
        }
    }
}
