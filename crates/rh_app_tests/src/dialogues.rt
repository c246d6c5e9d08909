//! Dialogues over one device.

use crate::partner::Partner;
use rh_devices::Watched;
use rh_manner::{Form, Voice, run_dialogue};
use rh_rules::Pick;
use rh_run::RunFault;
use std::alloc::Global;
use std::process::Abort;

// Two bare nodes: each line is given by a call of its own.
static TWO_NODES: &str = "\
{node, a@x, []}. {node, b@x, []}.
===
boot a@x
# a comment
crash a@x
undo
tick
boot b@x
";

static TWO_NODES_TEXT: &str = "\
ok
up a@x
ok
ended a@x
ok
bad line 5
";

// How much of the text is due at each call that asks: for the file, the line `===`, and each line of the script up to the bad one.
static TWO_NODES_DUE: [usize; 7] = [0, 0, 0, 10, 10, 23, 26];

// The same as JSON: the line of the cluster is due behind the line `===`.
static TWO_NODES_JSON: [&str; 5] = [
    "{\"profile\":1,\"nodes\":[\"a@x\",\"b@x\"],\"applications\":[]}\n",
    "{\"line\":1,\"command\":\"boot a@x\",\"answer\":\"ok\",\"notices\":[{\"kind\":\"up\",\"node\":\"a@x\"}]}\n",
    "{\"line\":3,\"command\":\"crash a@x\",\"answer\":\"ok\",\"notices\":[{\"kind\":\"ended\",\"node\":\"a@x\"}]}\n",
    "{\"line\":4,\"command\":\"undo\",\"answer\":\"ok\"}\n",
    "{\"line\":5,\"bad\":true}\n",
];

static TWO_NODES_JSON_DUE: [usize; 7] = [0, 0, 54, 139, 139, 228, 270];

/// How a dialogue ended, in a word.
pub fn word_of_end(ended: Result<(), RunFault>) -> &'static str {
    match ended {
        Ok(()) => "done",
        Err(RunFault::Cluster(_)) => "cluster",
        Err(RunFault::BadLine(_)) => "bad line",
        Err(RunFault::Read) => "read",
        Err(RunFault::Write) => "write",
        Err(RunFault::OutOfMemory) => "memory",
        Err(_) => "other",
    }
}

// How a dialogue with this partner ends.
fn end_in<'a>(alloc: Global, partner: Partner<'a>, form: Form) -> (&'static str, Partner<'a>) {
    let mut device = Watched::new(partner);
    let voice = Voice {
        pick: Pick::First,
        form,
    };
    let ended = word_of_end(run_dialogue(alloc, &mut device, voice));
    (ended, device.into_inner())
}

// How a plain one does.
fn end_of<'a>(alloc: Global, partner: Partner<'a>) -> (&'static str, Partner<'a>) {
    end_in(alloc, partner, Form::Plain)
}

// A line at a time: each answer is there when the next line is asked for, and nothing is asked behind the bad line.
#[test]
fn answers_each_line_before_the_next(rt: HostRuntime) {
    let partner = Partner::new(rt.alloc(), TWO_NODES.as_bytes(), 4096);
    let (ended, partner) = end_of(rt.alloc(), partner);
    assert!(rt; ended == "bad line");
    assert!(rt; partner.taken.as_slice() == TWO_NODES_TEXT.as_bytes());
    assert!(rt; partner.due.as_slice() == TWO_NODES_DUE.as_slice());
}

/// The text that these lines make.
pub fn join_lines(alloc: Global, lines: &[&str]) -> String {
    let mut text = String::new(alloc);
    for line in lines {
        let _ = text.push_str(line);
    }
    text
}

// So it is as JSON.
#[test]
fn answers_each_line_as_json_before_the_next(rt: HostRuntime) {
    let partner = Partner::new(rt.alloc(), TWO_NODES.as_bytes(), 4096);
    let (ended, partner) = end_in(rt.alloc(), partner, Form::Json);
    let text = join_lines(rt.alloc(), TWO_NODES_JSON.as_slice());
    assert!(rt; ended == "bad line");
    assert!(rt; partner.taken.as_slice() == text.as_bytes());
    assert!(rt; partner.due.as_slice() == TWO_NODES_JSON_DUE.as_slice());
}

// A file that is refused is told as JSON once the line `===` has come, and nothing more is asked.
#[test]
fn refuses_a_file_as_json(rt: HostRuntime) {
    let partner = Partner::new(rt.alloc(), "\n===\nboot a@x\n".as_bytes(), 4096);
    let (ended, partner) = end_in(rt.alloc(), partner, Form::Json);
    let text = "{\"refused\":\"C2\",\"reason\":\"no_nodes\"}\n";
    assert!(rt; ended == "cluster");
    assert!(rt; partner.taken.as_slice() == text.as_bytes());
    assert!(rt; partner.due.as_slice() == [0usize, 0].as_slice());
}

// What a dialogue with one byte a call answers, and how often it asked once the input had ended.
fn is_answered(rt: &impl Abort, alloc: Global, input: &str, end: &str, text: &str) {
    let (ended, partner) = end_of(alloc, Partner::new(alloc, input.as_bytes(), 1));
    assert!(rt; ended == end, "{input}");
    assert!(rt; partner.taken.as_slice() == text.as_bytes(), "{input}");
    assert!(rt; partner.late == 0, "{input}");
}

// At the end of the input the last line needs no LF.
#[test]
fn ends_as_a_run_does(rt: HostRuntime) {
    is_answered(&rt, rt.alloc(), "{node, a@x, []}.", "done", "");
    is_answered(&rt, rt.alloc(), "{node, a@x, []}.\n===", "done", "");
    is_answered(
        &rt,
        rt.alloc(),
        "{node, a@x, []}.\n===\nboot a@x",
        "done",
        "ok\nup a@x\n",
    );
    is_answered(
        &rt,
        rt.alloc(),
        "",
        "cluster",
        "cluster refused C2 no_nodes\n",
    );
    is_answered(
        &rt,
        rt.alloc(),
        "\n===\nboot a@x\n",
        "cluster",
        "cluster refused C2 no_nodes\n",
    );
    is_answered(
        &rt,
        rt.alloc(),
        "{node, a@x, []}.\n===\nboot",
        "bad line",
        "bad line 1\n",
    );
}

// Does a dialogue whose device fails at this call leave a front of the text, and end as a device's failure does?
fn leaves_a_front(rt: &impl Abort, alloc: Global, call: u32, form: Form, text: &str) -> bool {
    let partner = Partner::failing_at(alloc, TWO_NODES.as_bytes(), 7, call);
    let (ended, partner) = end_in(alloc, partner, form);
    assert!(rt;
        text.as_bytes().starts_with(partner.taken.as_slice()),
        "call {call}"
    );
    assert!(rt;
        ended == "read" || ended == "write" || ended == "bad line",
        "call {call}"
    );
    ended != "bad line"
}

// The first call whose failure a dialogue doesn't meet, or 300.
fn first_unmet(rt: &impl Abort, alloc: Global, form: Form, text: &str) -> u32 {
    for call in 0..300 {
        if !leaves_a_front(rt, alloc, call, form, text) {
            return call;
        }
    }
    300
}

// Up to the call behind the last one: the text is taken three bytes a call.
#[test]
fn leaves_a_front_where_a_call_fails(rt: HostRuntime) {
    let calls = first_unmet(&rt, rt.alloc(), Form::Plain, TWO_NODES_TEXT);
    assert!(rt; calls > 30 && calls < 70);
}

#[test]
fn leaves_a_front_of_json_where_a_call_fails(rt: HostRuntime) {
    let text = join_lines(rt.alloc(), TWO_NODES_JSON.as_slice());
    let calls = first_unmet(&rt, rt.alloc(), Form::Json, text.as_str());
    assert!(rt; calls > 120 && calls < 300);
}
