//! Tests of what stands on a trail: rooms with their sessions, and threads that share one; where applications ran, why they
//! wait, and searches through all states. Each is asked of states that rehearsals reach.
#![tactic(auto)]

#[cfg(test)]
mod all_nodes;
#[cfg(test)]
mod courses;
#[cfg(test)]
mod explore;
#[cfg(test)]
mod passes;
#[cfg(test)]
mod rooms;
#[cfg(test)]
mod support;
#[cfg(test)]
mod told;
#[cfg(test)]
mod turns;
#[cfg(test)]
mod why;
