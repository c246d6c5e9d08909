//! What a node's own file tells it, as it is written.
//!
//! A cluster keeps one list for each distributed application, and what a wait comes to. A live node reads its own `sys.config`:
//! it tells `{n}` from `n`, goes by its own order of entries, places and nodes, and refuses a `sync_nodes_timeout` of 0 or a
//! written `undefined`. So the text of a cluster file is read once more. [`own_files`] answers an
//! [`OwnFile`](rh_otp_model::OwnFile) for each node of the cluster that `rh_cluster` read from it, in the cluster's order;
//! `rh_terms` reads the terms, and `rh_otp_model` has the types. Three laws tell what is read here from what the cluster keeps.
//!
//! Nothing is asked of the text: where it isn't one of this cluster, names that the cluster doesn't have are left out, and a
//! node that the text doesn't have has a file without parameters.
#![tactic(auto)]

mod distributed;
mod files;
mod laws;
mod parameters;
mod shapes;
mod waits;

pub use files::own_files;
pub use laws::{each_node_has_its_own, entries_are_kept, waits_are_meant};
