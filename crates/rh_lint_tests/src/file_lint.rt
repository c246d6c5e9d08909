//! What is found in cluster files, asked of clusters that are read.

use rh_cluster::{App, Dep, Node, read_cluster};
use rh_file_lint::{FileFinding, file_findings};
use rh_samples::{CAVE, ONE_NODE, THREE_NODES, TWO_NODES};
use std::alloc::Global;
use std::process::Abort;

// The two nodes of the pair have one another in their lists, and a timeout of 1 ms.
static PAIR: &str = "\
{profile, 2}.
{node, n1, [{kernel, [{distributed, [{a, [n1, n2]}]},
  {sync_nodes_optional, [n2]}, {sync_nodes_timeout, 1}]},
  {rehearse, [{boot, [{a, temporary}]}]}]}.
{node, n2, [{kernel, [{distributed, [{a, [n1, n2]}]},
  {sync_nodes_mandatory, [n1]}, {sync_nodes_timeout, 1}]},
  {rehearse, [{boot, [{a, temporary}]}]}]}.
{application, a, []}.
";

// The same without a timeout.
static UNTIMED: &str = "\
{node, n1, [{kernel, [{distributed, [{a, [n1, n2]}]},
  {sync_nodes_optional, [n2]}]},
  {rehearse, [{boot, [{a, temporary}]}]}]}.
{node, n2, [{kernel, [{distributed, [{a, [n1, n2]}]},
  {sync_nodes_mandatory, [n1]}]},
  {rehearse, [{boot, [{a, temporary}]}]}]}.
{application, a, []}.
";

// n2 doesn't name n3, the tuple of a isn't in order, n2 boots b before a, b needs c, and c and d need one another.
static MISTAKEN: &str = "\
{node, n1, [{kernel, [{distributed, [{a, 5000, [n1, {n3, n2}]}, {b, 5000, [n1, {n2, n3}]}]},
  {sync_nodes_optional, [n2, n3]}, {sync_nodes_timeout, 0}]},
  {rehearse, [{boot, [{a, temporary}, {b, temporary}, {c, temporary}]}]}]}.
{node, n2, [{kernel, [{distributed, [{a, 5000, [n1, {n3, n2}]}, {b, 5000, [n1, {n2, n3}]}]},
  {sync_nodes_optional, [n1]}, {sync_nodes_timeout, 0}]},
  {rehearse, [{boot, [{b, temporary}, {a, temporary}]}]}]}.
{node, n3, [{kernel, [{distributed, [{a, 5000, [n1, {n3, n2}]}, {b, 5000, [n1, {n2, n3}]}]},
  {sync_nodes_mandatory, [n1, n2]}, {sync_nodes_timeout, 0}]},
  {rehearse, [{boot, [{a, temporary}, {b, temporary}, {c, temporary}]}]}]}.
{application, a, []}.
{application, b, [{applications, [kernel, c]}]}.
{application, c, [{applications, [d]}]}.
{application, d, [{applications, [c]}]}.
";

// What is found in the cluster that a text describes is this.
fn finds(rt: &impl Abort, alloc: Global, text: &str, expected: &[FileFinding]) {
    let cluster = read_cluster(alloc, text.as_bytes())
        .ok()
        .expect(rt, "a cluster");
    let found = file_findings(alloc, &cluster).ok().expect(rt, "memory");
    assert!(rt; found.as_slice() == expected);
}

// A finding at a node whose boot list has an application before what it needs.
fn boot_too_early(node: u8, app: u8, other: u8) -> FileFinding {
    FileFinding::BootBeforeDependency {
        node: Node(node),
        app: App(app),
        dep: Dep::Listed(App(other)),
    }
}

#[test]
fn nothing_is_found_in_a_pair(rt: HostRuntime) {
    finds(&rt, rt.alloc(), PAIR, &[]);
}

#[test]
fn lists_are_without_a_timeout(rt: HostRuntime) {
    finds(
        &rt,
        rt.alloc(),
        UNTIMED,
        &[
            FileFinding::ListsWithoutTimeout { node: Node(0) },
            FileFinding::ListsWithoutTimeout { node: Node(1) },
        ],
    );
}

#[test]
fn cave_boots_as_permanent(rt: HostRuntime) {
    finds(
        &rt,
        rt.alloc(),
        CAVE,
        &[FileFinding::PermanentDistributed { app: App(0) }],
    );
}

#[test]
fn nothing_is_distributed(rt: HostRuntime) {
    finds(
        &rt,
        rt.alloc(),
        ONE_NODE,
        &[FileFinding::NoDistributedApplication],
    );
    finds(
        &rt,
        rt.alloc(),
        TWO_NODES,
        &[
            FileFinding::NoDistributedApplication,
            boot_too_early(1, 0, 1),
        ],
    );
}

#[test]
fn three_nodes_have_no_lists(rt: HostRuntime) {
    let expected = [
        FileFinding::NoLists { node: Node(0) },
        FileFinding::NoLists { node: Node(1) },
        FileFinding::NoLists { node: Node(2) },
        FileFinding::NotBootedAtListedNode {
            node: Node(0),
            app: App(0),
        },
        FileFinding::NotBootedAtListedNode {
            node: Node(1),
            app: App(0),
        },
        FileFinding::NotBootedAtListedNode {
            node: Node(1),
            app: App(1),
        },
        FileFinding::NotBootedAtListedNode {
            node: Node(2),
            app: App(0),
        },
    ];
    finds(&rt, rt.alloc(), THREE_NODES, &expected);
}

#[test]
fn all_is_told_in_order(rt: HostRuntime) {
    let expected = [
        FileFinding::OneSidedLists {
            node: Node(2),
            other: Node(1),
        },
        FileFinding::SyncTimeoutZero { node: Node(0) },
        FileFinding::SyncTimeoutZero { node: Node(1) },
        FileFinding::SyncTimeoutZero { node: Node(2) },
        FileFinding::TupleNotInOrder { app: App(0) },
        boot_too_early(0, 1, 2),
        boot_too_early(0, 2, 3),
        boot_too_early(1, 1, 2),
        boot_too_early(2, 1, 2),
        boot_too_early(2, 2, 3),
        FileFinding::CrossedBootLists {
            app: App(0),
            other: App(1),
            node: Node(0),
            crossing: Node(1),
        },
        FileFinding::LocalAtSeveralNodes { app: App(2) },
        FileFinding::DependencyCircle { app: App(2) },
        FileFinding::DependencyCircle { app: App(3) },
        FileFinding::LostTogether {
            app: App(0),
            other: App(1),
        },
    ];
    finds(&rt, rt.alloc(), MISTAKEN, &expected);
}
