//! Checks over memory, with devices that fail.

use crate::devices::{Failure, Sink, Source};
use crate::rehearsals::word_of_end;
use rh_devices::{Reader, Watched, Writer};
use rh_run::run_check;
use std::alloc::Global;
use std::process::Abort;

// A node and an application, and a script, which isn't read.
static FILE: &str = "\
{node, a@x, []}. {application, p, []}.
===
boot a@x
";

static TEXT: &str = "ok 1 nodes 1 applications\n";

// How a check over these devices ends.
fn end_of(alloc: Global, source: Source<'_>, sink: &mut Sink) -> &'static str {
    let mut reader = Watched::new(Reader::new(source));
    let mut writer = Watched::new(Writer::new(sink));
    word_of_end(run_check(alloc, &mut reader, &mut writer))
}

#[test]
fn takes_and_gives_one_byte_a_call(rt: HostRuntime) {
    let mut sink = Sink::byte_by_byte(rt.alloc());
    assert!(rt; end_of(rt.alloc(), Source::byte_by_byte(FILE.as_bytes()), &mut sink) == "done");
    assert!(rt; sink.bytes.as_slice() == TEXT.as_bytes());
}

// Is nothing written where this call of the reader fails?
fn writes_nothing(rt: &impl Abort, alloc: Global, call: u32) {
    let mut sink = Sink::new(alloc);
    let source = Source::failing_after(FILE.as_bytes(), call);
    assert!(rt; end_of(alloc, source, &mut sink) == "read", "call {call}");
    assert!(rt; sink.bytes.is_empty(), "call {call}");
}

// The last call of the reader is the one that tells the end.
#[test]
fn writes_nothing_after_a_failed_read(rt: HostRuntime) {
    for call in 0..FILE.len() as u32 + 1 {
        writes_nothing(&rt, rt.alloc(), call);
    }
}

// Does a check whose writer fails at this call leave a front of the text?
fn leaves_a_front(rt: &impl Abort, alloc: Global, call: u32, failure: Failure) {
    let mut sink = Sink::failing_after(alloc, call, failure);
    let ended = end_of(alloc, Source::of(FILE.as_bytes()), &mut sink);
    assert!(rt;
        TEXT.as_bytes().starts_with(sink.bytes.as_slice()),
        "call {call}"
    );
    assert!(rt;
        ended == "write" && sink.bytes.len() < TEXT.len(),
        "call {call}"
    );
}

// Three bytes go with each call, so there are nine calls.
#[test]
fn leaves_a_front_after_a_failed_write(rt: HostRuntime) {
    for failure in [Failure::Error, Failure::Full] {
        for call in 0..9 {
            leaves_a_front(&rt, rt.alloc(), call, failure);
        }
    }
}
