//! The cluster that a cluster file describes: its nodes and its applications, as `sys.config` and
//! `.app` files configure them.
//!
//! [`read_cluster`] reads a text by `rh_terms`, and answers the [`Cluster`] of `rh_model` or the first [`ClusterFault`] of the
//! least stage (docs/CLUSTER_FILES.md tells the stages). A term that no rule reads is checked and not kept ([`skipped_tells_nothing`]).
//! Each key of a file has one reader, which answers its value or the fault.
#![tactic(auto)]

mod agreement;
mod building_apps;
mod building_nodes;
mod building_shares;
mod common;
mod descriptions;
mod entries;
mod fault;
mod gathering;
mod headers;
mod kept;
mod kernel;
mod keys;
mod laws;
mod lists;
mod name_rule;
mod names;
mod profile;
mod reading;
mod rehearse;
mod sections;
mod shapes;
mod shares;
mod shown;
mod values;

pub use fault::ClusterFault;
pub use laws::{clusters_are_within, skipped_tells_nothing};
pub use reading::read_cluster;
pub use rh_model::{App, Cluster, Dep, Group, Groups, Node, Restart, Spread, SyncWait};
