//! Plans that are tried from one simulation by several threads, with the outcomes that one caller would get.
//!
//! A [`Plan`] is a list of events, and its [`Outcome`] is what comes of them from a base simulation, up to the first that
//! is refused. [`try_plan`] gives the outcome of one plan and leaves the simulation as it was. [`sweep`] gives those of
//! many, each worker on a copy of the base's state, with a [`Gate`] round each plan, and [`sweep_alone`] those that one
//! worker gives, without a thread. A [`Crew`] is either of them: whoever tries plans for a program.
#![tactic(auto)]

mod branch;
mod crews;
mod shares;
mod standing;
mod steps;
mod trial;
mod workers;

pub use branch::sweep_alone;
pub use crews::{Alone, Threaded};
pub use rh_outcomes::Crew;
pub use rh_plans::{MAX_WORKERS, Outcome, Plan, Standings, SweepFault};
pub use trial::try_plan;
pub use workers::{FreeGate, Gate, sweep};
