//! The file of each node.

ghost use Rattle.std.specs.Prelude.{◌≡◌, map, length, IfOk};
ghost use Rattle.std.specs.Option.{option_map};
ghost use Rattle.rh_base.specs.Tree.{tree_of};
ghost use Rattle.rh_model.specs.ClusterView.{node_count};
ghost use Rattle.rh_otp_file.specs.Files.{config_if, config_of, file_in, file_by, files_of, own_files};

use crate::distributed::own_in;
use crate::parameters::{kernel_of, value_under};
use crate::waits::wait_in;
use rh_base::{OutOfMemory, Term};
use rh_model::{Cluster, Node};
use rh_otp_model::{Own, OwnFile, Wait};
use rh_term_lint::node;
use rh_terms::{TermFault, read_terms};
use std::alloc::Global;

// The configuration that a term has, where it is that of the node of this name.
#[tactic(auto, unfolding(crate::specs::Files::config_if))]
fn config_if<'a>(name: &str, term: &'a Term) -> Option<&'a Term>
    ensures { option_map (λ config. tree_of config.now) result
        ≡ config_if name.now (tree_of term.now) }
{
    let (other, config) = node(term)?;
    if other.as_str() == name {
        Some(config)
    } else {
        None
    }
}

// The configuration of the node of this name.
fn config_of<'a>(name: &str, terms: &'a [Term]) -> Option<&'a Term>
    ensures { option_map (λ config. tree_of config.now) result
        ≡ config_of name.now (map tree_of terms.now) }
{
    for term in terms {
        if let Some(config) = config_if(name, term) {
            return Some(config);
        }
    }
    None
}

// What a node's configuration tells it.
#[tactic(auto, unfolding(crate::specs::Files::file_in))]
fn file_in(alloc: Global, cluster: &Cluster, config: &Term) -> Result<OwnFile, OutOfMemory>
    ensures { IfOk result (λ file. file ≡ file_in cluster.now (tree_of config.now)) }
{
    let kernel = kernel_of(config);
    let own = own_in(alloc, cluster, value_under("distributed", kernel))?;
    let wait = wait_in(value_under("sync_nodes_timeout", kernel));
    Ok(OwnFile { own, wait })
}

// The same of a configuration that may not be there.
fn file_by(alloc: Global, cluster: &Cluster, config: Option<&Term>) -> Result<OwnFile, OutOfMemory>
    ensures { IfOk result
        (λ file. file ≡ file_by cluster.now (option_map (λ t. tree_of t.now) config.entry)) }
{
    match config {
        Some(config) => file_in(alloc, cluster, config),
        None => Ok(OwnFile {
            own: Own::without(alloc),
            wait: Wait::Unset,
        }),
    }
}

// What these terms tell each node of the cluster.
#[tactic(auto, unfolding(crate::specs::Files::files_of))]
fn files_of(alloc: Global, cluster: &Cluster, terms: &[Term]) -> Result<Vec<OwnFile>, OutOfMemory>
    ensures exact { IfOk result
        (λ files. files.items ≡ files_of cluster.now (map tree_of terms.now)) }
    ensures each { IfOk result (λ files. length files.items ≡ node_count cluster.now) }
{
    let mut files = Vec::new(alloc);
    for index in 0..cluster.node_count() {
        let name = cluster.node_name(Node(index as u8));
        let config = config_of(name, terms);
        files.push(file_by(alloc, cluster, config)?)?;
    }
    Ok(files)
}

/// What the text of a cluster file tells each node of the cluster that it describes, in the cluster's order. A text that can't be
/// read tells nothing.
#[tactic(auto, unfolding(crate::specs::Files::own_files))]
pub fn own_files(alloc: Global, cluster: &Cluster, text: &[u8]) -> Result<Vec<OwnFile>, OutOfMemory>
    // What each node's own terms say, by the definition.
    ensures exact { IfOk result (λ files. files.items ≡ own_files cluster.now text.now) }
    // There is one for each node.
    ensures each { IfOk result (λ files. length files.items ≡ node_count cluster.now) }
{
    match read_terms(alloc, text) {
        Ok(terms) => files_of(alloc, cluster, terms.as_slice()),
        Err(TermFault::OutOfMemory) => Err(OutOfMemory),
        Err(_) => files_of(alloc, cluster, &[]),
    }
}
