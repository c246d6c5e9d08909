//! Dialogues with live nodes over one device.

use crate::dialogues::{join_lines, word_of_end};
use crate::partner::Partner;
use rh_devices::Watched;
use rh_manner::Form;
use rh_otp_dialogue::{LiveVoice, run_live_dialogue};
use rh_otp_net::Order;
use std::alloc::Global;

// A start hangs, and is answered when the node for which it waits has ended: each line is given by a call of its own.
static HANGING: &str = "\
{node, n1@lab, [{kernel, [{distributed, [{svc, 1000, [n1@lab, n2@lab]}]}, {sync_nodes_optional, [n2@lab]}, {sync_nodes_timeout, 1000}]}]}.
{node, n2@lab, [{kernel, [{distributed, [{svc, 1000, [n1@lab, n2@lab]}]}, {sync_nodes_optional, [n1@lab]}, {sync_nodes_timeout, 1000}]}]}.
{application, svc, []}.
===
boot n1@lab
boot n2@lab
start n2@lab svc transient
crash n1@lab
";

static HANGING_TEXT: &str = "\
ok
ok
up n2@lab
up n1@lab
no answer
ok
ended n1@lab
started svc n2@lab normal
answered start n2@lab svc transient: ok
";

// How much of the text is due at each call that asks: for the three lines of the file, the line `===`, each line of the script, and
// what stands behind it.
static HANGING_DUE: [usize; 9] = [0, 0, 0, 0, 0, 3, 26, 36, 118];

static HANGING_JSON: [&str; 5] = [
    "{\"profile\":1,\"nodes\":[\"n1@lab\",\"n2@lab\"],\"applications\":[{\"name\":\"svc\",\"distributed\":true,\"nodes\":[[\"n1@lab\"],[\"n2@lab\"]]}]}\n",
    "{\"line\":1,\"command\":\"boot n1@lab\",\"answer\":\"ok\",\"notices\":[]}\n",
    "{\"line\":2,\"command\":\"boot n2@lab\",\"answer\":\"ok\",\"notices\":[{\"kind\":\"up\",\"node\":\"n2@lab\"},{\"kind\":\"up\",\"node\":\"n1@lab\"}]}\n",
    "{\"line\":3,\"command\":\"start n2@lab svc transient\",\"answer\":\"no answer\",\"notices\":[]}\n",
    "{\"line\":4,\"command\":\"crash n1@lab\",\"answer\":\"ok\",\"notices\":[{\"kind\":\"ended\",\"node\":\"n1@lab\"},{\"kind\":\"started\",\"application\":\"svc\",\"node\":\"n2@lab\",\"start\":\"normal\"},{\"kind\":\"answered\",\"call\":\"start\",\"application\":\"svc\",\"node\":\"n2@lab\",\"restart\":\"transient\",\"answer\":\"ok\"}]}\n",
];

static HANGING_JSON_DUE: [usize; 9] = [0, 0, 0, 0, 125, 187, 308, 392, 666];

// How a dialogue with this partner ends.
fn end_in<'a>(alloc: Global, partner: Partner<'a>, form: Form) -> (&'static str, Partner<'a>) {
    let mut device = Watched::new(partner);
    let voice = LiveVoice {
        order: Order::FirstComes,
        form,
    };
    let ended = word_of_end(run_live_dialogue(alloc, &mut device, voice));
    (ended, device.into_inner())
}

// A line at a time: each answer is there when the next line is asked for, also the one that has no answer.
#[test]
fn answers_each_line_before_the_next(rt: HostRuntime) {
    let partner = Partner::new(rt.alloc(), HANGING.as_bytes(), 4096);
    let (ended, partner) = end_in(rt.alloc(), partner, Form::Plain);
    assert!(rt; ended == "done");
    assert!(rt; partner.taken.as_slice() == HANGING_TEXT.as_bytes());
    assert!(rt; partner.due.as_slice() == HANGING_DUE.as_slice());
}

// So it is as JSON, where the line of the cluster is due behind the line `===`.
#[test]
fn answers_each_line_as_json_before_the_next(rt: HostRuntime) {
    let partner = Partner::new(rt.alloc(), HANGING.as_bytes(), 4096);
    let (ended, partner) = end_in(rt.alloc(), partner, Form::Json);
    let text = join_lines(rt.alloc(), HANGING_JSON.as_slice());
    assert!(rt; ended == "done");
    assert!(rt; partner.taken.as_slice() == text.as_bytes());
    assert!(rt; partner.due.as_slice() == HANGING_JSON_DUE.as_slice());
}
