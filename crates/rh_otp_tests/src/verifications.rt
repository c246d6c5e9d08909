//! What no clause says: whole verifications, with texts that were written by hand from those of `run --rules otp25`.

use rh_devices::{Bytes, Text, Watched};
use rh_otp_net::Order;
use rh_otp_verify::run_live_verify;
use std::alloc::Global;
use std::process::Abort;

// What a verification on live nodes writes for this input.
fn text_of(rt: &impl Abort, alloc: Global, input: &str) -> Vec<u8> {
    let mut reader = Watched::new(Bytes::new(input.as_bytes()));
    let mut writer = Watched::new(Text::new(alloc));
    let _ended = run_live_verify(alloc, &mut reader, &mut writer, Order::FirstComes);
    writer.into_inner().into_bytes().expect(rt, "memory")
}

fn is_written(rt: &impl Abort, alloc: Global, input: &str, want: &str) {
    let text = text_of(rt, alloc, input);
    assert!(rt; text.as_slice() == want.as_bytes());
}

// A start hangs, and is answered when the node for which it waits has ended.
static HANGING: &str = r#"{node, n1@lab, [
  {kernel, [{distributed, [{svc, 1000, [n1@lab, n2@lab]}]},
    {sync_nodes_optional, [n2@lab]}, {sync_nodes_timeout, 1000}]}]}.
{node, n2@lab, [
  {kernel, [{distributed, [{svc, 1000, [n1@lab, n2@lab]}]},
    {sync_nodes_optional, [n1@lab]}, {sync_nodes_timeout, 1000}]}]}.
{application, svc, []}.
===
boot n1@lab
#= ok
boot n2@lab
#= ok
#= up n1@lab
start n2@lab svc transient
#= no answer
#? blocked dist_ac start svc for n1@lab
#? blocked boot svc
crash n1@lab
#? running svc transient normal
undo
#= ok
"#;

static HANGING_TOLD: &str = "line 11: boot n2@lab
  wanted ok
  wanted up n1@lab
  came ok
  came up n2@lab
  came up n1@lab
line 14: start n2@lab svc transient
  wanted in the report blocked boot svc
differs 2 of 5
";

#[test]
fn tells_what_differs(rt: HostRuntime) {
    is_written(&rt, rt.alloc(), HANGING, HANGING_TOLD);
}

// An error of a live node, and a line that is no command.
static NO_COMMAND: &str = "{node, a@x, []}.
===
boot a@x
#= ok
#= up a@x
beep a@x
#= ok
";

#[test]
fn ends_at_a_line_that_is_no_command(rt: HostRuntime) {
    is_written(&rt, rt.alloc(), NO_COMMAND, "bad line 4\n");
}
