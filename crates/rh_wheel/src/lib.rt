//! Timers of a simulation, in the order in which they fire.
//!
//! A [`Wheel`] has a fixed number of timers, numbered from 0. Each is armed with a due time in milliseconds, or isn't
//! armed. The armed timers fire by due time, and those that are due together in the order in which they were armed.
//!
//! It has 64 slots, each a list of timers: an armed timer is in the slot of its due time modulo 64, behind those that
//! were armed before it. So arming and cancelling take the same time however many timers are armed.
//!
//! Both answer an **edit**, [`TimerEdit`], by which [`Wheel::revert`] takes the change back and [`Wheel::reapply`] makes
//! it again, exactly: a timer whose cancelling is taken back stands where it stood.
#![tactic(auto)]

mod edit;
mod wheel;

pub use edit::TimerEdit;
pub use wheel::Wheel;
