//! Clusters of both profiles: which is read, a permission that is given back, and the greatest numbers of the second one.

use crate::support::{
    are_clusters_same, cluster_of, copy_of_cluster, make_all, sim_on, state_of, step, undo_all,
};
use rh_cluster::{App, Cluster, Node, Restart};
use rh_place::{candidates, choose, operational};
use rh_state::{Kind, State};
use rh_step::{Event, Notice, Pick, Refusal};
use rh_trail::Sim;
use std::alloc::{AllocError, Global};
use std::process::Abort;

// Two nodes and a service of theirs, without a profile and in both.
static NONE: &str = "\
{node, n1, [{kernel, [{distributed, [{svc, [n1, n2]}]}]}]}.
{node, n2, [{kernel, [{distributed, [{svc, [n1, n2]}]}]}]}.
{application, svc, []}.
";

static FIRST: &str = "\
{profile, 1}.
{node, n1, [{kernel, [{distributed, [{svc, [n1, n2]}]}]}]}.
{node, n2, [{kernel, [{distributed, [{svc, [n1, n2]}]}]}]}.
{application, svc, []}.
";

static SECOND: &str = "\
{profile, 2}.
{node, n1, [{kernel, [{distributed, [{svc, [n1, n2]}]}]}]}.
{node, n2, [{kernel, [{distributed, [{svc, [n1, n2]}]}]}]}.
{application, svc, []}.
";

// The profile of a cluster, if its copy is the same and has it too.
fn profile_of(rt: &impl Abort, alloc: Global, text: &str) -> u8 {
    let cluster = cluster_of(rt, alloc, text);
    profile_in_copy(rt, alloc, &cluster)
}

fn profile_in_copy(rt: &impl Abort, alloc: Global, cluster: &Cluster) -> u8 {
    let copy = copy_of_cluster(rt, alloc, cluster);
    assert!(rt; copy.same(cluster) && copy.profile() == cluster.profile());
    cluster.profile()
}

#[test]
fn the_profile_of_a_cluster(rt: HostRuntime) {
    let alloc = rt.alloc();
    assert!(rt; profile_of(&rt, alloc, NONE) == 1 && profile_of(&rt, alloc, FIRST) == 1);
    assert!(rt; profile_of(&rt, alloc, SECOND) == 2);
    assert!(rt;
        are_clusters_same(&rt, alloc, NONE, FIRST) && are_clusters_same(&rt, alloc, SECOND, SECOND)
    );
    assert!(rt;
        !are_clusters_same(&rt, alloc, NONE, SECOND)
            && !are_clusters_same(&rt, alloc, SECOND, FIRST)
    );
}

// The service may run at the first node, or may not.
fn permission(allow: bool) -> Event {
    Event::Permit {
        node: Node(0),
        app: App(0),
        allow,
    }
}

// Both nodes are up, and the service, which may not run at the first, runs at the second.
fn sim_away(rt: &impl Abort, alloc: Global, text: &str) -> Sim {
    let mut sim = sim_on(rt, alloc, text);
    let boots = [Event::Boot { node: Node(0) }, Event::Boot { node: Node(1) }];
    make_all(rt, alloc, &mut sim, boots.as_slice());
    let restart = Restart::Temporary;
    let starts = [
        Event::StartAll {
            app: App(0),
            restart,
        },
        permission(false),
    ];
    make_all(rt, alloc, &mut sim, starts.as_slice());
    sim
}

// It moves to the first node.
fn notices_of_return() -> [Notice; 2] {
    let app = App(0);
    let kind = Kind::Takeover(Node(1));
    [
        Notice::Started {
            app,
            node: Node(0),
            kind,
            lost: None,
        },
        Notice::Stopped { app, node: Node(1) },
    ]
}

// Where a permission is given back, are these the notices, and none where it is given again?
fn tells(rt: &impl Abort, alloc: Global, sim: &mut Sim, wanted: &[Notice]) -> bool {
    let told = notices_of_permission(rt, alloc, sim);
    let again = notices_of_permission(rt, alloc, sim);
    told.as_slice() == wanted && again.as_slice().is_empty()
}

fn notices_of_permission(rt: &impl Abort, alloc: Global, sim: &mut Sim) -> Vec<Notice> {
    step(alloc, sim, permission(true)).ok().expect(rt, "a step")
}

// Makes all steps again, and says how many.
fn redo_all(sim: &mut Sim) -> u32 {
    sim.redo_all()
}

// In the first profile nothing moves.
fn stays_away(rt: &impl Abort, alloc: Global) {
    let mut first = sim_away(rt, alloc, FIRST);
    assert!(rt; tells(rt, alloc, &mut first, &[]));
}

// In the second one the service comes back. All of that is taken back, and made again.
fn comes_back(rt: &impl Abort, alloc: Global) {
    let mut second = sim_away(rt, alloc, SECOND);
    assert!(rt; tells(rt, alloc, &mut second, notices_of_return().as_slice()));
    assert!(rt; undo_all(&mut second) == 6 && redo_all(&mut second) == 6);
}

#[test]
fn a_permission_that_is_given_back(rt: HostRuntime) {
    stays_away(&rt, rt.alloc());
    comes_back(&rt, rt.alloc());
}

// All nodes but the last one.
fn write_nodes(text: &mut String) -> Result<(), AllocError> {
    text.push_str("{profile, 2}.\n")?;
    for node in 0..63 {
        writeln!(text, "{{node, n{node}, []}}.")?;
    }
    Ok(())
}

// As many applications as there can be.
fn write_apps(text: &mut String) -> Result<(), AllocError> {
    for app in 0..128 {
        writeln!(text, "{{application, a{app}, []}}.")?;
    }
    Ok(())
}

// The greatest cluster. Its last node alone may run the last application.
fn greatest_text(rt: &impl Abort, alloc: Global) -> String {
    let mut text = String::new(alloc);
    assert!(rt; write_nodes(&mut text).is_ok());
    let last = "{node, n63, [{kernel, [{distributed, [{a127, [n63]}]}]}]}.\n";
    assert!(rt; text.push_str(last).is_ok() && write_apps(&mut text).is_ok());
    text
}

// A simulation on it.
fn greatest_sim(rt: &impl Abort, alloc: Global) -> Sim {
    let text = greatest_text(rt, alloc);
    sim_on(rt, alloc, text.as_str())
}

fn has_the_last(rt: &impl Abort, cluster: &Cluster) {
    assert!(rt; cluster.node_count() == 64 && cluster.app_count() == 128);
    knows_the_last(rt, cluster);
}

fn knows_the_last(rt: &impl Abort, cluster: &Cluster) {
    assert!(rt; cluster.node_of("n63") == Some(Node(63)) && cluster.node_of("n64").is_none());
    assert!(rt; cluster.app_of("a127") == Some(App(127)) && cluster.app_of("a128").is_none());
}

// The last application may run at the last node.
fn last_may_run(rt: &impl Abort, state: &State) {
    assert!(rt; state.cluster().node_count() == 64 && state.cluster().app_count() == 128);
    assert!(rt; operational(state, App(127), Node(63)));
    assert!(rt; candidates(state, App(127)).has(Node(63)));
}

// It runs there.
fn last_runs(rt: &impl Abort, state: &State) {
    assert!(rt; state.cluster().node_count() == 64 && state.cluster().app_count() == 128);
    assert!(rt; choose(state, App(127), Pick::Last) == Some(Node(63)));
    assert!(rt; state.first_running(Node(63)) == Some(App(127)));
}

// Is an event refused for this reason?
fn is_refused(rt: &impl Abort, alloc: Global, sim: &mut Sim, event: Event, wanted: Refusal) {
    let refusal = step(alloc, sim, event).err().expect(rt, "refused");
    assert!(rt; refusal == wanted);
}

// Numbers behind the last ones are unknown.
fn knows_no_more(rt: &impl Abort, alloc: Global, sim: &mut Sim) {
    let boot = Event::Boot { node: Node(64) };
    is_refused(rt, alloc, sim, boot, Refusal::UnknownNode);
    let stop = Event::StopAll { app: App(128) };
    is_refused(rt, alloc, sim, stop, Refusal::UnknownApp);
}

// The last node boots, and the last application starts.
static LAST_START: [Event; 2] = [
    Event::Boot { node: Node(63) },
    Event::StartAll {
        app: App(127),
        restart: Restart::Permanent,
    },
];

fn last_starts(rt: &impl Abort, alloc: Global, sim: &mut Sim) {
    make_all(rt, alloc, sim, LAST_START.as_slice());
    last_may_run(rt, state_of(sim));
    last_runs(rt, state_of(sim));
}

#[test]
fn the_last_node_and_the_last_application(rt: HostRuntime) {
    let mut sim = greatest_sim(&rt, rt.alloc());
    has_the_last(&rt, sim.cluster());
    last_starts(&rt, rt.alloc(), &mut sim);
    knows_no_more(&rt, rt.alloc(), &mut sim);
}
