//! What no clause says: that the call can succeed, and that the definitions say what is written in files.

use rh_base::OutOfMemory;
use rh_cluster::read_cluster;
use rh_model::Cluster;
use rh_otp_file::own_files;
use rh_otp_model::{OwnFile, Written};
use std::alloc::Global;
use std::process::Abort;

// Two nodes that list the same, written otherwise: another order of entries and in a tuple, tuples of one, and a timeout of 0.
static WRITTEN: &str = "\
{profile, 2}.
{node, n1@lab, [{kernel, [
  {distributed, [{web, 5000, [n1@lab, {n2@lab, n3@lab}]}, {mail, [{n3@lab}]}]},
  {sync_nodes_optional, [n2@lab]}, {sync_nodes_timeout, infinity}]}]}.
{application, mail, []}.
{node, n2@lab, [{sasl, [{distributed, [{mail, [n2@lab]}]}]}, {kernel, [
  {sync_nodes_optional, [n1@lab]}, {sync_nodes_timeout, infinity},
  {distributed, [{mail, 0, [n3@lab]}, {web, 5000, [{n1@lab}, {n3@lab, n2@lab}]}]}]}]}.
{application, web, []}.
{node, n3@lab, [{rehearse, [{boot, []}]}, {kernel, [{sync_nodes_timeout, infinity},
  {distributed, [{mail, [n3@lab]}, {web, 5000, [n1@lab, {n3@lab, n2@lab}]}]}]}]}.
";

// Nodes that take no part in distribution, each with another wait.
static WAITS: &str = "\
{node, z@lab, [{kernel, [{sync_nodes_optional, [y@lab]}, {sync_nodes_timeout, 0}]}]}.
{node, y@lab, [{kernel, [{sync_nodes_mandatory, [z@lab]}]}]}.
{node, u@lab, [{kernel, [{sync_nodes_optional, [z@lab]}, {sync_nodes_timeout, undefined}]}]}.
{node, s@lab, [{kernel, [{distributed, []}, {sync_nodes_timeout, 6000}]}]}.
{node, i@lab, [{kernel, [{sync_nodes_timeout, infinity}]}]}.
{node, o@lab, [{sasl, [{sync_nodes_timeout, 1}]}, {rehearse, []}]}.
{node, e@lab, []}.
";

// The nodes of examples/release.txt.
static RELEASE: &str = "\
{profile, 2}.
{node, 'a@host1.example.org', [
  {kernel, [
    {distributed, [{billing, 5000, ['a@host1.example.org', 'b@host2.example.org']}]},
    {sync_nodes_optional, ['b@host2.example.org']},
    {sync_nodes_timeout, 10000}]},
  {sasl, [{errlog_type, error}]},
  {rehearse, [
    {boot, [{pool, permanent}, {billing, permanent}]},
    {platform, [crypto, ssl]}]}]}.
{node, 'b@host2.example.org', [
  {kernel, [
    {distributed, [{billing, 5000, ['a@host1.example.org', 'b@host2.example.org']}]},
    {sync_nodes_optional, ['a@host1.example.org']},
    {sync_nodes_timeout, 10000}]},
  {rehearse, [
    {boot, [{pool, permanent}, {billing, permanent}]},
    {platform, [crypto, ssl]}]}]}.
{application, pool, [{vsn, \"1.2\"}, {applications, [kernel, stdlib, ssl]}, {mod, {pool_app, []}}]}.
{application, billing, [{vsn, \"3.0\"}, {applications, [kernel, stdlib, pool]},
  {mod, {billing_app, []}}]}.
";

// The cluster of a text, which is one, unless memory runs out.
fn cluster_of(rt: &impl Abort, alloc: Global, text: &str) -> Result<Cluster, OutOfMemory> {
    match read_cluster(alloc, text.as_bytes()) {
        Ok(cluster) => Ok(cluster),
        Err(fault) => {
            assert!(rt; fault.is_memory());
            Err(OutOfMemory)
        }
    }
}

// A place: its nodes in braces where it is a tuple.
fn push_place(alloc: Global, text: &mut String, place: &Written) -> Result<(), OutOfMemory> {
    text.push_str(if place.is_tuple() { " {" } else { "" })?;
    for node in place.nodes() {
        text.push_str(format!(in alloc; " {}", node.0)?.as_str())?;
    }
    text.push_str(if place.is_tuple() { " }" } else { "" })?;
    Ok(())
}

// A file: each entry with its application, its timeout and its places, and behind them the wait.
fn text_of(alloc: Global, file: &OwnFile) -> Result<String, OutOfMemory> {
    let mut text = String::new(alloc);
    text.push_str(if file.own.has_dist() { "" } else { "none, " })?;
    for entry in file.own.entries() {
        text.push_str(format!(in alloc; "{} {} [", entry.app().0, entry.timeout())?.as_str())?;
        for place in entry.places() {
            push_place(alloc, &mut text, place)?;
        }
        text.push_str(" ], ")?;
    }
    text.push_str(format!(in alloc; "{:?}", file.wait)?.as_str())?;
    Ok(text)
}

// The files of a cluster, as the text tells them, are these.
fn tells(
    rt: &impl Abort,
    alloc: Global,
    cluster: &Cluster,
    text: &str,
    expected: &[&str],
) -> Result<(), OutOfMemory> {
    let files = own_files(alloc, cluster, text.as_bytes())?;
    assert_eq!(rt; files.len(), expected.len());
    for (file, line) in files.iter().zip(expected.iter()) {
        assert_eq!(rt; text_of(alloc, file)?.as_str(), *line);
    }
    Ok(())
}

#[test]
fn each_node_keeps_what_it_wrote(rt: HostRuntime) -> Result<(), OutOfMemory> {
    let cluster = cluster_of(&rt, rt.alloc(), WRITTEN)?;
    tells(
        &rt,
        rt.alloc(),
        &cluster,
        WRITTEN,
        &[
            "1 5000 [ 0 { 1 2 } ], 0 0 [ { 2 } ], Forever",
            "0 0 [ 2 ], 1 5000 [ { 0 } { 2 1 } ], Forever",
            "0 0 [ 2 ], 1 5000 [ 0 { 2 1 } ], Forever",
        ],
    )
}

#[test]
fn waits_are_told_apart(rt: HostRuntime) -> Result<(), OutOfMemory> {
    let cluster = cluster_of(&rt, rt.alloc(), WAITS)?;
    tells(
        &rt,
        rt.alloc(),
        &cluster,
        WAITS,
        &[
            "none, Refused",
            "none, Unset",
            "none, Refused",
            "After(6000)",
            "none, Forever",
            "none, Unset",
            "none, Unset",
        ],
    )
}

#[test]
fn a_release_is_told(rt: HostRuntime) -> Result<(), OutOfMemory> {
    let cluster = cluster_of(&rt, rt.alloc(), RELEASE)?;
    tells(
        &rt,
        rt.alloc(),
        &cluster,
        RELEASE,
        &[
            "1 5000 [ 0 1 ], After(10000)",
            "1 5000 [ 0 1 ], After(10000)",
        ],
    )
}

// Of the release's cluster only node b is there, and it lists a node and an application that the cluster doesn't have.
#[test]
fn another_text_tells_what_it_can(rt: HostRuntime) -> Result<(), OutOfMemory> {
    let cluster = cluster_of(&rt, rt.alloc(), RELEASE)?;
    let other = "\
        {node, c, [{kernel, [{sync_nodes_timeout, 5}]}]}.
        {node, 'b@host2.example.org', [{kernel, [{sync_nodes_timeout, 5},
          {distributed, [{till, [c]}, {pool, [c, {c, 'a@host1.example.org'}]}]}]}]}.";
    tells(
        &rt,
        rt.alloc(),
        &cluster,
        other,
        &["none, Unset", "0 0 [ { 0 } ], After(5)"],
    )?;
    tells(
        &rt,
        rt.alloc(),
        &cluster,
        "{node",
        &["none, Unset", "none, Unset"],
    )
}
