//! All states that a set of events can reach from a base, and what holds in each of them.
//!
//! [`explore`] makes the moves one after the other, in every order in which the rules accept them, and merges states that are alike. For
//! each [`Ask`] it tells that what is asked holds in all states that were reached, or the first of the shortest lists of events that
//! lead to one in which it doesn't. A sweep tells what comes of the plans that it is given; here no plan is given.
//!
//! Of each state that was found it finds where the moves lead, and keeps the states there, one by one, in their order. A [`Crew`] in
//! threads finds where the moves lead from many states at a time, before the states there are kept.
#![tactic(auto)]

mod alone;
mod answers;
mod asking;
mod bounds;
mod crew;
mod families;
mod laws;
mod leads;
mod moves;
mod paths;
mod reaching;
mod search;
mod space;
mod trial;
mod watch;
mod worker;

pub use answers::{Explored, Verdict, explore};
pub use asking::{Ask, Condition};
pub use bounds::{Bounds, Covered};
pub use crew::{Alone, Crew, Threaded};
pub use laws::{answers_are_one, reaches_go_on, within_is_met_in_time};
pub use moves::Move;
pub use search::Search;
pub use watch::{Nobody, Watch};
