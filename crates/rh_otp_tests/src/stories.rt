//! What no clause says: whole stories, with texts that were written by hand from those of `run --rules otp25`.

use rh_devices::{Bytes, Text, Watched};
use rh_otp_net::Order;
use rh_otp_story::run_live_story;
use std::alloc::Global;
use std::process::Abort;

// The story that is written for this cluster and this script.
fn text_of(rt: &impl Abort, alloc: Global, cluster: &str, script: &str) -> Vec<u8> {
    let input = format!(in alloc; "{cluster}===\n{script}").expect(rt, "memory");
    let mut reader = Watched::new(Bytes::new(input.as_bytes()));
    let mut writer = Watched::new(Text::new(alloc));
    let _ended = run_live_story(alloc, &mut reader, &mut writer, Order::FirstComes, false);
    writer.into_inner().into_bytes().expect(rt, "memory")
}

fn is_told(rt: &impl Abort, alloc: Global, script: &str, want: &str) {
    let text = text_of(rt, alloc, PAIR, script);
    assert!(rt; text.as_slice() == want.as_bytes());
}

// Two nodes, at which one application is distributed.
static PAIR: &str = r#"{node, n1@lab, [
  {kernel, [{distributed, [{svc, 1000, [n1@lab, n2@lab]}]},
    {sync_nodes_optional, [n2@lab]}, {sync_nodes_timeout, 1000}]}]}.
{node, n2@lab, [
  {kernel, [{distributed, [{svc, 1000, [n1@lab, n2@lab]}]},
    {sync_nodes_optional, [n1@lab]}, {sync_nodes_timeout, 1000}]}]}.
{application, svc, []}.
"#;

// A start hangs, and is answered when the node for which it waits has ended. What an earlier story told is told anew.
static HANGING: &str = "boot n1@lab
#= up n1@lab
boot n2@lab
# the start
start n2@lab svc transient
show
crash n1@lab

#- n2@lab blocked boot svc
undo
crash n2@lab";

static HANGING_TOLD: &str = "boot n1@lab
#= ok
boot n2@lab
#= ok
#= up n2@lab
#= up n1@lab
# the start
start n2@lab svc transient
#= no answer
#- n2@lab blocked dist_ac start svc for n1@lab
show
#= ok
#= now 0
#= node n1@lab up 1
#= node n2@lab up 1
#=   starting svc
#=   blocked dist_ac start svc for n1@lab
#= app svc nowhere
#= open start n2@lab svc transient
crash n1@lab
#= ok
#= ended n1@lab
#= started svc n2@lab normal
#= answered start n2@lab svc transient: ok

undo
#= ok
#- n2@lab blocked dist_ac start svc for n1@lab
crash n2@lab
#= ok
#= ended n2@lab
";

#[test]
fn tells_where_a_start_hangs(rt: HostRuntime) {
    is_told(&rt, rt.alloc(), HANGING, HANGING_TOLD);
}

#[test]
fn tells_a_story_again(rt: HostRuntime) {
    is_told(&rt, rt.alloc(), HANGING_TOLD, HANGING_TOLD);
}
