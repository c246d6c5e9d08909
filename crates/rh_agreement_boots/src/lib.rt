//! Where both sets of rules answer a boot alike, as laws: that of the first node that begins, where it waits for others, and that of any
//! node that waits on, whoever else is alive; and lists of such boots and of the peaceful calls of `rh_agreement`. No program stands on it.
//!
//! Each is a function without a body, whose contract is the law ([`first_boots_are_answered_alike`], [`waiting_boots_are_answered_alike`],
//! [`waiting_boots_come_to_an_end`], [`boots_and_peaceful_calls_are_answered_alike`]); the statements stand in `specs/`. They go on from
//! `rh_agreement`, whose laws begin where both are at rest and end there again, and so they fit between them.
#![tactic(auto)]

mod laws;

pub use laws::{
    boots_and_peaceful_calls_are_answered_alike, first_boots_are_answered_alike,
    waiting_boots_are_answered_alike, waiting_boots_come_to_an_end,
};
