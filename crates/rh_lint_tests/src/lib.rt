//! Tests of what lint finds: in the terms of a cluster file, as a hurried person types them, in cluster files that are read,
//! and of a step, asked of states that rehearsals reach.
#![tactic(auto)]

#[cfg(test)]
mod file_lint;
#[cfg(test)]
mod nearest_names;
#[cfg(test)]
mod step_lint;
#[cfg(test)]
mod term_lint;
