//! Plans that are tried on live nodes of OTP 25.2.3 from one simulation, by the caller alone or by several threads.
//!
//! A plan (`rh_plans`) is a list of events, and its [`LiveOutcome`] is what comes of them from a base: the events are given to live nodes
//! one after the other, whatever they are answered, up to the first that changes nothing. A [`Crew`] tries many plans, each worker on a
//! simulation of its own (`LiveSim::without_past`), and takes each plan back by undo. [`Alone`] is the caller as the only worker,
//! [`Threaded`] several in threads; the outcomes are the same.
#![tactic(auto)]

mod crew;
mod outcome;
mod sharing;
mod trial;

pub use crew::{Alone, Crew, Threaded};
pub use outcome::{EventAnswer, Hang, LiveOutcome, Stop};
pub use sharing::STEP_LIMIT;
