//! What no clause says: whole sweeps, with texts that were written by hand from those of `run --rules otp25`.

use rh_devices::{Bytes, Text, Watched};
use rh_otp_net::Order;
use rh_otp_plans::{sweep_live, sweep_live_json};
use rh_otp_sweep::Alone;
use std::alloc::Global;
use std::process::Abort;

// A start hangs at n2, and is answered when the node for which it waits has ended.
static HANGING: &str = r#"{node, n1@lab, [
  {kernel, [{distributed, [{svc, 1000, [n1@lab, n2@lab]}]},
    {sync_nodes_optional, [n2@lab]}, {sync_nodes_timeout, 1000}]}]}.
{node, n2@lab, [
  {kernel, [{distributed, [{svc, 1000, [n1@lab, n2@lab]}]},
    {sync_nodes_optional, [n1@lab]}, {sync_nodes_timeout, 1000}]}]}.
{application, svc, []}.
===
boot n1@lab
# Both come up together.
boot n2@lab
plan hangs
start n2@lab svc transient
plan ends-well
start n2@lab svc transient
crash n1@lab
plan is-refused
start n1@lab svc transient
crash n1@lab
crash n1@lab
boot n1@lab
plan idle
"#;

static HANGING_TEXT: &str = "ok
ok
up n2@lab
up n1@lab
plan hangs accepted 1
answer 1 no answer
app svc nowhere
blocked n2@lab dist_ac start svc for n1@lab
open start n2@lab svc transient
plan ends-well accepted 2
answer 1 no answer
app svc running n2@lab
plan is-refused accepted 2
refused 3 S5 not_alive
app svc nowhere
plan idle accepted 0
app svc nowhere
";

static HANGING_JSON: &str = concat!(
    r#"{"profile":1,"nodes":["n1@lab","n2@lab"],"applications":[{"name":"svc","distributed":true,"nodes":[["n1@lab"],["n2@lab"]]}]}"#,
    "\n",
    r#"{"line":1,"command":"boot n1@lab","answer":"ok","notices":[]}"#,
    "\n",
    r#"{"line":3,"command":"boot n2@lab","answer":"ok","notices":[{"kind":"up","node":"n2@lab"},{"kind":"up","node":"n1@lab"}]}"#,
    "\n",
    r#"{"plan":"hangs","accepted":1,"answers":[{"event":1,"answer":"no answer"}],"applications":[{"name":"svc","nodes":[]}],"#,
    r#""blocked":[{"node":"n2@lab","dist_ac":{"for":"start","application":"svc","node":"n1@lab"}}],"#,
    r#""open":[{"call":"start","application":"svc","node":"n2@lab","restart":"transient"}]}"#,
    "\n",
    r#"{"plan":"ends-well","accepted":2,"answers":[{"event":1,"answer":"no answer"}],"#,
    r#""applications":[{"name":"svc","nodes":["n2@lab"]}],"blocked":[],"open":[]}"#,
    "\n",
    r#"{"plan":"is-refused","accepted":2,"answers":[],"refused":{"event":3,"answer":"refused S5 not_alive"},"#,
    r#""applications":[{"name":"svc","nodes":[]}],"blocked":[],"open":[]}"#,
    "\n",
    r#"{"plan":"idle","accepted":0,"answers":[],"applications":[{"name":"svc","nodes":[]}],"blocked":[],"open":[]}"#,
    "\n"
);

// What a sweep by the caller alone writes for this input.
fn text_of(rt: &impl Abort, alloc: Global, input: &str) -> Vec<u8> {
    let mut reader = Watched::new(Bytes::new(input.as_bytes()));
    let mut writer = Watched::new(Text::new(alloc));
    let ended = sweep_live(&Alone, alloc, &mut reader, &mut writer, Order::FirstComes);
    assert!(rt; ended.is_ok());
    writer.into_inner().into_bytes().expect(rt, "memory")
}

// And what it writes as JSON.
fn json_of(rt: &impl Abort, alloc: Global, input: &str) -> Vec<u8> {
    let mut reader = Watched::new(Bytes::new(input.as_bytes()));
    let mut writer = Watched::new(Text::new(alloc));
    let ended = sweep_live_json(&Alone, alloc, &mut reader, &mut writer, Order::FirstComes);
    assert!(rt; ended.is_ok());
    writer.into_inner().into_bytes().expect(rt, "memory")
}

#[test]
fn tells_what_comes_of_plans(rt: HostRuntime) {
    let text = text_of(&rt, rt.alloc(), HANGING);
    assert!(rt; text.as_slice() == HANGING_TEXT.as_bytes());
}

#[test]
fn tells_it_as_json(rt: HostRuntime) {
    let text = json_of(&rt, rt.alloc(), HANGING);
    assert!(rt; text.as_slice() == HANGING_JSON.as_bytes());
}
