//! What no clause says: whole searches on live nodes, with texts that were written by hand from those of `run --rules otp25`.

use rh_devices::{Bytes, Text, Watched};
use rh_otp_explore_text::run_explore_live;
use rh_otp_net::Order;
use std::alloc::Global;
use std::process::Abort;

// A start hangs at n2, where n1 is up and didn't start the application.
static HANGING: &str = r#"{node, n1@lab, [
  {kernel, [{distributed, [{svc, 1000, [n1@lab, n2@lab]}]},
    {sync_nodes_optional, [n2@lab]}, {sync_nodes_timeout, 1000}]}]}.
{node, n2@lab, [
  {kernel, [{distributed, [{svc, 1000, [n1@lab, n2@lab]}]},
    {sync_nodes_optional, [n1@lab]}, {sync_nodes_timeout, 1000}]}]}.
{application, svc, []}.
===
boot n1@lab
# Both come up together.
boot n2@lab
may start n2@lab svc transient
may crash n1@lab
down 1
steps 1
ask nothing hangs
ask app svc once
ask app svc running
"#;

static HANGING_TEXT: &str = "ok
ok
up n2@lab
up n1@lab
explored 3 lists up to 1 steps up to 1 down
fails in 1
start n2@lab svc transient
now 0
node n1@lab up 1
node n2@lab up 1
  starting svc
  blocked dist_ac start svc for n1@lab
app svc nowhere
open start n2@lab svc transient
holds
fails in 0
now 0
node n1@lab up 1
node n2@lab up 1
app svc nowhere
";

static HANGING_JSON: &str = concat!(
    r#"{"profile":1,"nodes":["n1@lab","n2@lab"],"applications":[{"name":"svc","distributed":true,"nodes":[["n1@lab"],["n2@lab"]]}]}"#,
    "\n",
    r#"{"line":1,"command":"boot n1@lab","answer":"ok","notices":[]}"#,
    "\n",
    r#"{"line":3,"command":"boot n2@lab","answer":"ok","notices":[{"kind":"up","node":"n2@lab"},{"kind":"up","node":"n1@lab"}]}"#,
    "\n",
    r#"{"lists":3,"steps":1,"down":1,"finished":true}"#,
    "\n",
    r#"{"ask":1,"holds":false,"events":["start n2@lab svc transient"],"report":{"time":0,"nodes":["#,
    r#"{"name":"n1@lab","mode":"up","starts":1,"running":[],"waiting":[],"forbidden":[],"starting":[],"timers":[]},"#,
    r#"{"name":"n2@lab","mode":"up","starts":1,"running":[],"waiting":[],"forbidden":[],"starting":["svc"],"#,
    r#""dist_ac":{"for":"start","application":"svc","node":"n1@lab"},"timers":[]}],"#,
    r#""applications":[{"name":"svc","nodes":[]}],"#,
    r#""open":[{"call":"start","application":"svc","node":"n2@lab","restart":"transient"}]}}"#,
    "\n",
    r#"{"ask":2,"holds":true}"#,
    "\n",
    r#"{"ask":3,"holds":false,"events":[],"report":{"time":0,"nodes":["#,
    r#"{"name":"n1@lab","mode":"up","starts":1,"running":[],"waiting":[],"forbidden":[],"starting":[],"timers":[]},"#,
    r#"{"name":"n2@lab","mode":"up","starts":1,"running":[],"waiting":[],"forbidden":[],"starting":[],"timers":[]}],"#,
    r#""applications":[{"name":"svc","nodes":[]}],"open":[]}}"#,
    "\n"
);

// svc runs at n1, and is started at n2. Where n1 ends it runs again behind 1,000 milliseconds.
static FAILING: &str = r#"{node, n1@lab, [
  {kernel, [{distributed, [{svc, 1000, [n1@lab, n2@lab]}]},
    {sync_nodes_optional, [n2@lab]}, {sync_nodes_timeout, 1000}]}]}.
{node, n2@lab, [
  {kernel, [{distributed, [{svc, 1000, [n1@lab, n2@lab]}]},
    {sync_nodes_optional, [n1@lab]}, {sync_nodes_timeout, 1000}]}]}.
{application, svc, []}.
===
boot n1@lab
boot n2@lab
start n1@lab svc transient
start n2@lab svc transient
"#;

// Behind it a search of which each ask fails: so it ends where the last one does, before `crash n2@lab`.
static SOON: &str = "may wait
may crash *
ask app svc running within 999
ask always app svc running or down n2@lab
";

static SOON_TEXT: &str = "explored 2 lists up to 0 steps
fails in 1
crash n1@lab
now 0
node n1@lab down 1
node n2@lab up 1
  waiting svc transient
  timer failover svc 1000
app svc nowhere
fails in 1
crash n1@lab
now 0
node n1@lab down 1
node n2@lab up 1
  waiting svc transient
  timer failover svc 1000
app svc nowhere
";

// And one of which each holds: a wait leads to the failover.
static LATER: &str = "may crash n1@lab
may wait
ask app svc running within 1000
ask app svc running
ask nothing hangs
";

static LATER_TEXT: &str = "explored 3 lists
holds
holds
holds
";

// So many lists are too few for it.
static FEW_TEXT: &str = "explored 2 lists up to 0 steps
holds
holds
holds
unfinished
";

// What a search of so many lists at most writes for these inputs.
fn told_of(
    rt: &impl Abort,
    alloc: Global,
    file: &str,
    lines: &str,
    lists: usize,
    json: bool,
) -> Vec<u8> {
    let input = format!(in alloc; "{file}{lines}").expect(rt, "memory");
    let mut reader = Watched::new(Bytes::new(input.as_bytes()));
    let mut writer = Watched::new(Text::new(alloc));
    let order = Order::FirstComes;
    let _ended = run_explore_live(alloc, &mut reader, &mut writer, order, lists, json);
    writer.into_inner().into_bytes().expect(rt, "memory")
}

// Are these the last bytes of what is written?
fn ends_with(text: &[u8], end: &str) -> bool {
    text.ends_with(end.as_bytes())
}

#[test]
fn tells_what_hangs(rt: HostRuntime) {
    let text = told_of(&rt, rt.alloc(), HANGING, "", 1_000_000, false);
    assert!(rt; text.as_slice() == HANGING_TEXT.as_bytes());
}

#[test]
fn tells_it_as_json(rt: HostRuntime) {
    let text = told_of(&rt, rt.alloc(), HANGING, "", 1_000_000, true);
    assert!(rt; text.as_slice() == HANGING_JSON.as_bytes());
}

#[test]
fn ends_where_each_ask_has_failed(rt: HostRuntime) {
    let text = told_of(&rt, rt.alloc(), FAILING, SOON, 1_000_000, false);
    assert!(rt; ends_with(text.as_slice(), SOON_TEXT));
}

#[test]
fn ends_where_no_event_may_come(rt: HostRuntime) {
    let text = told_of(&rt, rt.alloc(), FAILING, LATER, 1_000_000, false);
    assert!(rt; ends_with(text.as_slice(), LATER_TEXT));
}

#[test]
fn tries_so_many_lists(rt: HostRuntime) {
    let text = told_of(&rt, rt.alloc(), FAILING, LATER, 2, false);
    assert!(rt; ends_with(text.as_slice(), FEW_TEXT));
}
