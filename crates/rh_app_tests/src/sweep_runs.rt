//! Sweeps over memory, with devices that fail.

use crate::devices::{Failure, Sink, Source};
use crate::rehearsals::word_of_end;
use rh_app::run_sweep;
use rh_devices::{Reader, Watched, Writer};
use rh_step::Pick;
use std::alloc::Global;
use std::rt::Runtime;
use std::sync::Wait;
use std::thread::Threads;

// Two bare nodes, one of which is up, and two plans.
static PLANS: &str = "\
{node, a@x, []}. {node, b@x, []}.
===
boot a@x
plan one
crash a@x
boot b@x
plan two
boot a@x
";

static PLANS_TEXT: &str = "\
ok
up a@x
plan one accepted 2 failovers 0 takeovers 0
plan two accepted 0 failovers 0 takeovers 0
refused 1 S3 already_alive
";

// How a sweep over these devices ends.
fn end_of<T: Runtime<A = Global> + Threads + Wait + Sync>(
    rt: &T,
    source: Source<'_>,
    sink: &mut Sink,
) -> &'static str {
    let mut reader = Watched::new(Reader::new(source));
    let mut writer = Watched::new(Writer::new(sink));
    word_of_end(run_sweep(rt, rt.alloc(), &mut reader, &mut writer, Pick::First, 2))
}

#[test]
fn reads_all_before_it_writes(rt: HostRuntime) {
    for call in 0..PLANS.len() as u32 {
        let mut sink = Sink::new(rt.alloc());
        let source = Source::failing_after(PLANS.as_bytes(), call);
        assert!(rt; end_of(&rt, source, &mut sink) == "read", "call {call}");
        assert!(rt; sink.bytes.is_empty(), "call {call}");
    }
}

// At most three bytes go with each call.
#[test]
fn leaves_a_front_after_a_failed_write(rt: HostRuntime) {
    let text = PLANS_TEXT.as_bytes();
    for failure in [Failure::Error, Failure::Full] {
        for call in 0..60 {
            let mut sink = Sink::failing_after(rt.alloc(), call, failure);
            let ended = end_of(&rt, Source::of(PLANS.as_bytes()), &mut sink);
            let is_whole = sink.bytes.as_slice() == text;
            assert!(rt; text.starts_with(sink.bytes.as_slice()), "call {call}");
            assert!(rt;
                ended == (if is_whole { "done" } else { "write" }),
                "call {call}"
            );
        }
    }
}
