//! A list of cells with undo and redo, whatever the cells hold.
//!
//! A [`History`] has a fixed number of cells. [`History::put`] writes one, and keeps what it held: these are the **changes** of the
//! open step. [`History::roll_back`] takes them back; [`History::commit`] closes the step and keeps its changes as a **record**.
//! [`History::undo`] takes a closed step back and [`History::redo`] makes it again: each exchanges what the changes of a record hold
//! with what the cells hold, so neither takes memory.
//!
//! A step can be made apart, in a [`Draft`]: it borrows the cells of the history, and has its own in place of those that the step has
//! touched. [`History::make`] puts its writes and closes the step, or changes nothing.
//!
//! A caller sees the cells as they are now, the cells behind each number of steps, and how many of these steps are done
//! (`specs/HistoryView.antt`). The cells behind other numbers of steps aren't kept: they are what the records lead to
//! (`specs/States.antt`). Of a draft a caller sees the cells of the history and those of the draft (`specs/Draft.antt`). What is said
//! of all calls together is the contract of [`calls_are_reversible`].
//!
//! Of `rh_base` it takes want of memory, copies (`Duplicate`), and what holds of changes that are exchanged one after the other
//! (`Exchanges`).
#![tactic(auto)]

mod change;
mod draft;
mod history;
mod laws;
mod records;
#[cfg(test)]
mod tests;

pub use draft::Draft;
pub use history::History;
pub use laws::calls_are_reversible;
