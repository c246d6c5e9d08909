//! Where each distributed application ran, from when to when, along the trail of a simulation.
//!
//! [`courses_of`] goes the trail along once, from the first state up to the cursor, and gives a [`Course`] for each distributed
//! application. [`course_text`] is a course as a line.
#![tactic(auto)]

mod course;
mod firing;
mod laws;
mod text;
mod walk;

pub use course::{Change, Course, Stay};
pub use laws::lengths_add_up;
pub use text::course_text;
pub use walk::courses_of;
