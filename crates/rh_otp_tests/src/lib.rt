//! Tests of what the program does by the rules of OTP 25: whole runs, stories, verifications and sweeps, what is read of each node's own
//! file, and a line of JSON of each kind.
#![tactic(auto)]

#[cfg(test)]
mod explored;
#[cfg(test)]
mod files;
#[cfg(test)]
mod json;
#[cfg(test)]
mod plans;
#[cfg(test)]
mod stories;
#[cfg(test)]
mod verifications;
