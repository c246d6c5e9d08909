//! The line of a cluster, and the one of a text that is none.

ghost use Rattle.std.specs.Prelude.{◌≡◌, ◌<◌, ◌++◌, List, ℕ, OnOk, IfOk, codes};
ghost use Rattle.std.specs.List.{flat_map};
ghost use Rattle.std.specs.Option.{option_map};
ghost use Rattle.rh_model.specs.ClusterView.{app_count};
ghost use Rattle.rh_state.specs.Numbers.{nodes_of, apps_of};
ghost use Rattle.rh_json_text.specs.Json.{json_array, behind_comma};
ghost use Rattle.rh_json_lines.specs.ClusterLines.{node_json, app_json, group_json, spread_json, settings_json, cluster_line, refused_json, refused_line, fault_line};

use rh_base::OutOfMemory;
use rh_calls::{app_word, node_word};
use rh_cluster::{App, Cluster, ClusterFault, Group, Node, Spread};
use rh_json_text::{after_first, before_first, push_array, push_number, push_string, push_text};
use std::alloc::Global;

/// Adds the name of a node.
#[tactic(auto, unfolding(crate::specs::ClusterLines::node_json))]
pub fn push_node(out: &mut Vec<u8>, cluster: &Cluster, node: Node) -> Result<(), OutOfMemory>
    ensures { OnOk result (out.new.items ≡ out.old.items ++ node_json cluster.now node) }
{
    push_string(out, node_word(cluster, node).as_bytes())
}

/// Adds the name of an application.
#[tactic(auto, unfolding(crate::specs::ClusterLines::app_json))]
pub fn push_app(out: &mut Vec<u8>, cluster: &Cluster, app: App) -> Result<(), OutOfMemory>
    ensures { OnOk result (out.new.items ≡ out.old.items ++ app_json cluster.now app) }
{
    push_string(out, app_word(cluster, app).as_bytes())
}

// Adds the names of nodes, each behind a comma.
fn push_each_of(out: &mut Vec<u8>, cluster: &Cluster, nodes: &[Node]) -> Result<(), OutOfMemory>
    ensures { OnOk result (out.new.items
        ≡ out.old.items ++ flat_map (behind_comma (node_json cluster.now)) nodes.now) }
{
    for node in nodes {
        push_text(out, ",")?;
        push_node(out, cluster, *node)?;
    }
    Ok(())
}

// Adds nodes of equal rank.
#[tactic(auto, unfolding(crate::specs::ClusterLines::group_json), using(rh_json_text::proofs::Arrays::array_is_bracketed))]
fn push_group(
    alloc: Global,
    out: &mut Vec<u8>,
    cluster: &Cluster,
    nodes: &[Node],
) -> Result<(), OutOfMemory>
    ensures { OnOk result (out.new.items ≡ out.old.items ++ group_json cluster.now nodes.now) }
{
    let mut values = Vec::new(alloc);
    push_each_of(&mut values, cluster, nodes)?;
    push_array(out, values.as_slice())
}

// Adds groups, each behind a comma.
fn push_each_group(
    alloc: Global,
    out: &mut Vec<u8>,
    cluster: &Cluster,
    groups: &[Group],
) -> Result<(), OutOfMemory>
    ensures { OnOk result (out.new.items
        ≡ out.old.items ++ flat_map (behind_comma (group_json cluster.now)) groups.now) }
{
    for group in groups {
        push_text(out, ",")?;
        push_group(alloc, out, cluster, group.as_slice())?;
    }
    Ok(())
}

// Adds the array of groups.
#[tactic(auto, using(rh_json_text::proofs::Arrays::array_is_bracketed))]
fn push_groups(
    alloc: Global,
    out: &mut Vec<u8>,
    cluster: &Cluster,
    groups: &[Group],
) -> Result<(), OutOfMemory>
    ensures { OnOk result
        (out.new.items ≡ out.old.items ++ json_array (group_json cluster.now) groups.now) }
{
    let mut values = Vec::new(alloc);
    push_each_group(alloc, &mut values, cluster, groups)?;
    push_array(out, values.as_slice())
}

// Adds that an application is distributed, with the groups of its nodes.
fn push_spread_groups(
    alloc: Global,
    out: &mut Vec<u8>,
    cluster: &Cluster,
    groups: &[Group],
) -> Result<(), OutOfMemory>
    ensures { OnOk result (out.new.items ≡ out.old.items
        ++ (codes "true,\"nodes\":" ++ json_array (group_json cluster.now) groups.now)) }
{
    push_text(out, "true,\"nodes\":")?;
    push_groups(alloc, out, cluster, groups)
}

// Adds whether an application is distributed, and the groups of its nodes.
fn push_spread(
    alloc: Global,
    out: &mut Vec<u8>,
    cluster: &Cluster,
    spread: Option<&Spread>,
) -> Result<(), OutOfMemory>
    ensures { OnOk result (out.new.items
        ≡ out.old.items ++ spread_json cluster.now (option_map (λ s. s.now) spread.entry)) }
{
    match spread {
        None => push_text(out, "false"),
        Some(spread) => push_spread_groups(alloc, out, cluster, spread.groups.as_slice()),
    }
}

// Adds an application of the cluster.
#[tactic(auto, unfolding(crate::specs::ClusterLines::settings_json))]
fn push_settings(
    alloc: Global,
    out: &mut Vec<u8>,
    cluster: &Cluster,
    app: App,
) -> Result<(), OutOfMemory>
    requires { app.0 < app_count cluster.now }
    ensures { OnOk result (out.new.items ≡ out.old.items ++ settings_json cluster.now app) }
{
    push_text(out, "{\"name\":")?;
    push_app(out, cluster, app)?;
    push_text(out, ",\"distributed\":")?;
    push_spread(alloc, out, cluster, cluster.spread(app))?;
    push_text(out, "}")
}

// Adds the names of all nodes, each behind a comma.
#[tactic(auto, unfolding(rh_state::specs::Numbers::nodes_of))]
fn push_each_node(out: &mut Vec<u8>, cluster: &Cluster) -> Result<(), OutOfMemory>
    ensures { OnOk result (out.new.items
        ≡ out.old.items ++ flat_map (behind_comma (node_json cluster.now)) (nodes_of cluster.now)) }
{
    let count = cluster.node_count();
    for number in 0..count {
        push_text(out, ",")?;
        push_node(out, cluster, Node(number as u8))?;
    }
    Ok(())
}

// Adds all applications, each behind a comma.
#[tactic(auto, unfolding(rh_state::specs::Numbers::apps_of))]
fn push_each_app(alloc: Global, out: &mut Vec<u8>, cluster: &Cluster) -> Result<(), OutOfMemory>
    ensures { OnOk result (out.new.items ≡ out.old.items
        ++ flat_map (behind_comma (settings_json cluster.now)) (apps_of cluster.now)) }
{
    let count = cluster.app_count();
    for number in 0..count {
        push_text(out, ",")?;
        push_settings(alloc, out, cluster, App(number as u8))?;
    }
    Ok(())
}

// Adds the array of the nodes' names.
#[tactic(auto, using(rh_json_text::proofs::Arrays::array_is_bracketed))]
fn push_all_nodes(alloc: Global, out: &mut Vec<u8>, cluster: &Cluster) -> Result<(), OutOfMemory>
    ensures { OnOk result (out.new.items
        ≡ out.old.items ++ json_array (node_json cluster.now) (nodes_of cluster.now)) }
{
    let mut values = Vec::new(alloc);
    push_each_node(&mut values, cluster)?;
    push_array(out, values.as_slice())
}

// Adds the array of the applications.
#[tactic(auto, using(rh_json_text::proofs::Arrays::array_is_bracketed))]
fn push_all_apps(alloc: Global, out: &mut Vec<u8>, cluster: &Cluster) -> Result<(), OutOfMemory>
    ensures { OnOk result (out.new.items
        ≡ out.old.items ++ json_array (settings_json cluster.now) (apps_of cluster.now)) }
{
    let mut values = Vec::new(alloc);
    push_each_app(alloc, &mut values, cluster)?;
    push_array(out, values.as_slice())
}

/// The line of a cluster.
#[tactic(auto, unfolding(crate::specs::ClusterLines::cluster_line))]
pub fn cluster_line(alloc: Global, cluster: &Cluster) -> Result<Vec<u8>, OutOfMemory>
    ensures { IfOk result (λ line. line.items ≡ cluster_line cluster.now) }
{
    let mut line = Vec::new(alloc);
    push_text(&mut line, "{\"profile\":")?;
    push_number(alloc, &mut line, cluster.profile() as u128)?;
    push_text(&mut line, ",\"nodes\":")?;
    push_all_nodes(alloc, &mut line, cluster)?;
    push_text(&mut line, ",\"applications\":")?;
    push_all_apps(alloc, &mut line, cluster)?;
    push_text(&mut line, "}\n")?;
    Ok(line)
}

// The line of a fault with this code, for this reason.
#[tactic(auto, unfolding(crate::specs::ClusterLines::refused_json))]
fn refused_json(alloc: Global, code: &[u8], reason: &[u8]) -> Result<Vec<u8>, OutOfMemory>
    ensures { IfOk result (λ line. line.items ≡ refused_json code.now reason.now) }
{
    let mut line = Vec::new(alloc);
    push_text(&mut line, "{\"refused\":")?;
    push_string(&mut line, code)?;
    push_text(&mut line, ",\"reason\":")?;
    push_string(&mut line, reason)?;
    push_text(&mut line, "}\n")?;
    Ok(line)
}

// The line of a fault that is shown by these words.
#[tactic(auto, unfolding(crate::specs::ClusterLines::refused_line))]
pub fn refused_line(alloc: Global, words: &str) -> Result<Vec<u8>, OutOfMemory>
    ensures { IfOk result (λ line. line.items ≡ refused_line words.now) }
{
    let words = words.as_bytes();
    refused_json(alloc, before_first(words, b' '), after_first(words, b' '))
}

/// The line of a text that is no cluster.
pub fn fault_line(alloc: Global, fault: &ClusterFault) -> Result<Vec<u8>, OutOfMemory>
    ensures { IfOk result (λ line. line.items ≡ fault_line fault.now) }
{
    let words = format!(in alloc; "{fault}")?;
    refused_line(alloc, words.as_str())
}
