//! What programs read from and write to: devices, which say themselves what they give, take and how they fail.
//!
//! [`Reader`], [`Writer`] and [`Buffered`] are those of the standard library, [`Bytes`] and [`Text`] are memory. A [`Watched`]
//! device knows whether it has failed. [`read_input`] reads all that a [`Source`] gives, and [`write_text`] has a [`Sink`] take
//! a whole text.
#![tactic(auto)]

mod device;
mod fault;
mod memory;
mod standard;
mod transfer;
mod watched;

pub use device::{Failed, Sink, Source};
pub use fault::{ReadFault, WriteFault};
pub use memory::{Bytes, Text};
pub use standard::{Buffered, Reader, Writer};
pub use transfer::{read_input, write_text};
pub use watched::Watched;
