//! Tests of calls that the program doesn't make. Each test owns what it needs in as few lines as can be, and hands it by reference to
//! functions that ask and compare. What costs much to prove is a function that owns two clusters, states or simulations at once: here one
//! makes the first, and hands it to another, which makes the second. Those of rooms and of rh_app stand in crates of their own, so that
//! none waits for the others.
#![tactic(auto)]

#[cfg(test)]
mod all_nodes;
#[cfg(test)]
mod clusters;
#[cfg(test)]
mod lists;
#[cfg(test)]
mod places;
#[cfg(test)]
mod profiles;
#[cfg(test)]
mod records;
#[cfg(test)]
mod shown;
#[cfg(test)]
mod sims;
#[cfg(test)]
mod states;
#[cfg(test)]
mod steps;
#[cfg(test)]
mod support;
#[cfg(test)]
mod sweeps;
#[cfg(test)]
mod trees;
#[cfg(test)]
mod wheels;
