//! A cluster: what its file sets, and the readers of that.
//!
//! A [`Cluster`] has the settings of each [`Node`] and each [`App`], which are numbered in the order of the file, within the
//! limits of its profile ([`MAX_NODES`], [`MAX_APPS`]). `rh_cluster` makes one from the terms of a file; all that happens to a
//! cluster (`rh_state` and above) reads it, and nothing changes it. [`AppMarks`] is a set of applications in two words.
#![tactic(auto)]

mod app_marks;
mod app_settings;
mod cluster;
mod groups;
mod kept_marks;
mod laws;
mod limits;
mod mark_rows;
mod name_set;
mod names;
mod needs;
mod node;
mod node_settings;
mod platforms;
mod settings;

pub use app_marks::{AppMarks, with_mark_in_front};
pub use app_settings::{AppSettings, Start, copy_of_spread, copy_of_start};
pub use cluster::Cluster;
pub use groups::{Group, Groups, is_in};
pub use laws::symbols_tell_terms;
pub use limits::{
    FIRST_PROFILE_APPS, FIRST_PROFILE_NODES, MAX_APPS, MAX_NODES, MAX_PLATFORMS, TIMEOUT_LIMIT,
    app_limit, is_profile, node_limit,
};
pub use name_set::NameSet;
pub use names::Names;
pub use node::{App, Node};
pub use node_settings::NodeSettings;
pub use platforms::Platforms;
pub use settings::{Dep, Restart, Spread, SyncWait};
