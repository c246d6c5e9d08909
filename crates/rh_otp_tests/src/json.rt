//! What no clause says: whole runs, and a line of each kind, with texts that were written by hand from those of `run --rules otp25`.

use rh_base::OutOfMemory;
use rh_cluster::{App, Cluster, Dep, Node, Restart, read_cluster};
use rh_devices::{Bytes, Text, Watched};
use rh_otp_json::live_json;
use rh_otp_json_lines::{push_node_report, push_notices, push_report};
use rh_otp_model::{Fault, StartType};
use rh_otp_net::Order;
use rh_otp_node::Phase;
use rh_otp_report::{AppReport, Block, NodeReport, NodeTimer, OpenCall, Report, Runs, Waits};
use rh_otp_sim::{Line, Verdict};
use rh_otp_system::Ask;
use rh_rules::Refusal;
use std::alloc::Global;
use std::process::Abort;

// What a run on live nodes writes for this input.
fn text_of(rt: &impl Abort, alloc: Global, input: &str) -> Vec<u8> {
    let mut reader = Watched::new(Bytes::new(input.as_bytes()));
    let mut writer = Watched::new(Text::new(alloc));
    let _ended = live_json(alloc, &mut reader, &mut writer, Order::FirstComes);
    writer.into_inner().into_bytes().expect(rt, "memory")
}

fn is_written(rt: &impl Abort, alloc: Global, input: &str, want: &str) {
    let text = text_of(rt, alloc, input);
    assert!(rt; text.as_slice() == want.as_bytes());
}

// A start hangs, and is answered when the node for which it waits has ended.
static HANGING: &str = r#"{node, n1@lab, [
  {kernel, [{distributed, [{svc, 1000, [n1@lab, n2@lab]}]},
    {sync_nodes_optional, [n2@lab]}, {sync_nodes_timeout, 1000}]}]}.
{node, n2@lab, [
  {kernel, [{distributed, [{svc, 1000, [n1@lab, n2@lab]}]},
    {sync_nodes_optional, [n1@lab]}, {sync_nodes_timeout, 1000}]}]}.
{application, svc, []}.
===
boot n1@lab
boot n2@lab
start n2@lab svc transient
show
crash n1@lab
crash n1@lab
undo_all
"#;

static HANGING_LINES: &str =
    r#"{"profile":1,"nodes":["n1@lab","n2@lab"],"applications":[{"name":"svc","distributed":true,"nodes":[["n1@lab"],["n2@lab"]]}]}
{"line":1,"command":"boot n1@lab","answer":"ok","notices":[]}
{"line":2,"command":"boot n2@lab","answer":"ok","notices":[{"kind":"up","node":"n2@lab"},{"kind":"up","node":"n1@lab"}]}
{"line":3,"command":"start n2@lab svc transient","answer":"no answer","notices":[]}
{"line":4,"command":"show","answer":"ok","report":{"time":0,"steps":3,"trail":3,"nodes":[{"name":"n1@lab","mode":"up","starts":1,"running":[],"waiting":[],"forbidden":[],"starting":[],"timers":[]},{"name":"n2@lab","mode":"up","starts":1,"running":[],"waiting":[],"forbidden":[],"starting":["svc"],"dist_ac":{"for":"start","application":"svc","node":"n1@lab"},"timers":[]}],"applications":[{"name":"svc","nodes":[]}],"open":[{"call":"start","application":"svc","node":"n2@lab","restart":"transient"}]}}
{"line":5,"command":"crash n1@lab","answer":"ok","notices":[{"kind":"ended","node":"n1@lab"},{"kind":"started","application":"svc","node":"n2@lab","start":"normal"},{"kind":"answered","call":"start","application":"svc","node":"n2@lab","restart":"transient","answer":"ok"}]}
{"line":6,"command":"crash n1@lab","answer":"refused S5 not_alive"}
{"line":7,"command":"undo_all","answer":"ok 4"}
"#;

#[test]
fn tells_of_a_start_that_hangs(rt: HostRuntime) {
    is_written(&rt, rt.alloc(), HANGING, HANGING_LINES);
}

static NO_COMMAND: &str = r#"{node, a@x, []}.
===
boot a@x
beep a@x
boot a@x
"#;

static NO_COMMAND_LINES: &str = r#"{"profile":1,"nodes":["a@x"],"applications":[]}
{"line":1,"command":"boot a@x","answer":"ok","notices":[{"kind":"up","node":"a@x"}]}
{"line":2,"bad":true}
"#;

#[test]
fn ends_at_a_line_that_is_no_command(rt: HostRuntime) {
    is_written(&rt, rt.alloc(), NO_COMMAND, NO_COMMAND_LINES);
}

#[test]
fn tells_why_a_file_is_refused(rt: HostRuntime) {
    let want = "{\"refused\":\"C10\",\"reason\":\"bad_value\"}\n";
    is_written(&rt, rt.alloc(), "{apple, a, []}.\n", want);
}

// Nodes n1 and n2, and applications log and svc.
fn two_nodes(rt: &impl Abort, alloc: Global) -> Cluster {
    let text = "{node, n1, []}. {node, n2, []}. {application, log, []}. {application, svc, []}.";
    read_cluster(alloc, text.as_bytes())
        .ok()
        .expect(rt, "a cluster")
}

static N1: Node = Node(0);

static N2: Node = Node(1);

static LOG: App = App(0);

static SVC: App = App(1);

static NOTICES: &str = concat!(
    r#"[{"kind":"up","node":"n1"},{"kind":"ended","node":"n2"},"#,
    r#"{"kind":"started","application":"svc","node":"n2","start":"failover","from":"n1"},"#,
    r#"{"kind":"stopped","application":"svc","node":"n1"},"#,
    r#"{"kind":"failed","application":"svc","node":"n1","error":"{not_started,log}"},"#,
    r#"{"kind":"answered","call":"permit","application":"svc","node":"n1","permission":false,"answer":"ok"},"#,
    r#"{"kind":"answered","call":"exit","application":"svc","node":"n1","reason":"abnormal","answer":"refused S15 not_running_here"},"#,
    r#"{"kind":"answered","call":"takeover","application":"svc","node":"n2","restart":"permanent","answer":"error {n1,{not_running,log}}","error":"{n1,{not_running,log}}"},"#,
    r#"{"kind":"waits","application":"svc","node":"n2"},"#,
    r#"{"kind":"pending","application":"log","node":"n2"}]"#
);

#[test]
fn tells_each_kind_of_notice(rt: HostRuntime) {
    let log = Dep::Listed(LOG);
    let refused = Verdict::Refused(Refusal::NotRunningHere);
    let failed = Verdict::Failed(Fault::FailedAt(N1, log));
    let lines = [
        Line::Up(N1),
        Line::Ended(N2),
        Line::Started(SVC, N2, StartType::Failover(N1)),
        Line::Stopped(SVC, N1),
        Line::Failed(SVC, N1, Fault::NeedsStarted(log)),
        Line::Answered(Ask::Permit(false), N1, SVC, Verdict::Done),
        Line::Answered(Ask::Exit(false), N1, SVC, refused),
        Line::Answered(Ask::Takeover(Restart::Permanent), N2, SVC, failed),
        Line::Waits(SVC, N2),
        Line::Pending(LOG, N2),
    ];
    let cluster = two_nodes(&rt, rt.alloc());
    let mut out = Vec::new(rt.alloc());
    let told = push_notices(rt.alloc(), &mut out, &cluster, lines.as_slice());
    assert!(rt; told.is_ok() && out.as_slice() == NOTICES.as_bytes());
}

// A node of which nothing is told but this.
fn bare_node(alloc: Global, node: Node, phase: Phase, block: Option<Block>) -> NodeReport {
    NodeReport {
        node,
        phase,
        life: 1,
        running: Vec::new(alloc),
        waiting: Vec::new(alloc),
        forbidden: Vec::new(alloc),
        starting: Vec::new(alloc),
        block,
        boot: None,
        timers: Vec::new(alloc),
    }
}

// A node of which all is told.
fn full_node(alloc: Global) -> Result<NodeReport, OutOfMemory> {
    let mut node = bare_node(alloc, N1, Phase::Up, Some(Block::Lock));
    node.life = 2;
    node.running.push(Runs {
        app: LOG,
        restart: None,
        kind: StartType::Takeover(N2),
    })?;
    node.waiting.push(Waits {
        app: SVC,
        restart: Some(Restart::Temporary),
    })?;
    node.forbidden.push(SVC)?;
    node.starting.push(LOG)?;
    node.starting.push(SVC)?;
    node.boot = Some(LOG);
    node.timers.push(NodeTimer::Failover(SVC, 9000))?;
    Ok(node)
}

fn full_report(alloc: Global) -> Result<Report, OutOfMemory> {
    let mut waiting = bare_node(alloc, N2, Phase::Waiting, None);
    waiting.timers.push(NodeTimer::Sync(8500))?;
    let mut report = Report {
        time: 8000,
        nodes: Vec::new(alloc),
        apps: Vec::new(alloc),
        calls: Vec::new(alloc),
    };
    report.nodes.push(full_node(alloc)?)?;
    report.nodes.push(waiting)?;
    let mut at = Vec::new(alloc);
    at.push(N1)?;
    at.push(N2)?;
    report.apps.push(AppReport {
        app: SVC,
        nodes: at,
    })?;
    report.calls.push(OpenCall {
        ask: Ask::Stop,
        node: N2,
        app: SVC,
    })?;
    Ok(report)
}

static REPORT: &str = concat!(
    r#"{"time":8000,"steps":5,"trail":7,"nodes":["#,
    r#"{"name":"n1","mode":"up","starts":2,"running":[{"application":"log","restart":"undefined","start":"takeover","from":"n2"}],"#,
    r#""waiting":[{"application":"svc","restart":"temporary"}],"forbidden":["svc"],"starting":["log","svc"],"#,
    r#""dist_ac":{"for":"lock"},"boot":"log","timers":[{"timer":"failover","application":"svc","due":9000}]},"#,
    r#"{"name":"n2","mode":"waiting","starts":1,"running":[],"waiting":[],"forbidden":[],"starting":[],"#,
    r#""timers":[{"timer":"sync","due":8500}]}],"#,
    r#""applications":[{"name":"svc","nodes":["n1","n2"]}],"#,
    r#""open":[{"call":"stop","application":"svc","node":"n2"}]}"#
);

#[test]
fn tells_all_parts_of_a_report(rt: HostRuntime) {
    let cluster = two_nodes(&rt, rt.alloc());
    let report = full_report(rt.alloc()).ok().expect(&rt, "memory");
    let mut out = Vec::new(rt.alloc());
    let told = push_report(rt.alloc(), &mut out, 5, 7, &cluster, &report);
    assert!(rt; told.is_ok() && out.as_slice() == REPORT.as_bytes());
}

static BEFORE_BLOCK: &str =
    r#"{"name":"n1","mode":"down","starts":1,"running":[],"waiting":[],"forbidden":[],"starting":[],"dist_ac":{"for":"#;

static BEHIND_BLOCK: &str = r#"},"timers":[]}"#;

#[test]
fn tells_for_what_dist_ac_waits(rt: HostRuntime) {
    let cluster = two_nodes(&rt, rt.alloc());
    for (block, want) in [
        (Block::Introduction(N2), r#""introduction","node":"n2""#),
        (
            Block::Weight(SVC, N2),
            r#""weight","application":"svc","node":"n2""#,
        ),
        (
            Block::Start(SVC, N2),
            r#""start","application":"svc","node":"n2""#,
        ),
        (Block::AnyStart(SVC), r#""start","application":"svc""#),
    ] {
        let node = bare_node(rt.alloc(), N1, Phase::Down, Some(block));
        let mut out = Vec::new(rt.alloc());
        let told = push_node_report(rt.alloc(), &mut out, &cluster, &node);
        let want = format!(in rt.alloc(); "{BEFORE_BLOCK}{want}{BEHIND_BLOCK}")
            .ok()
            .expect(&rt, "memory");
        assert!(rt; told.is_ok() && out.as_slice() == want.as_bytes());
    }
}
