//! What is found in an input, the text that lists it, and the lines on which something stands.
//!
//! A [`Finding`] has a line, a [`Kind`] and words. [`put_in_order`] puts findings in the order in which they are listed,
//! [`report_text`] is the text of the list, and [`is_clean`] says whether nothing was found that counts.
//!
//! [`term_starts`] finds where each term of a text begins that stands inside no other, [`line_of_word`] the line of a word, and
//! [`parts_at`] the parts of a depth, as the bytes alone tell it. None of them reads the terms: of a text that `rh_terms` reads the
//! n-th start is that of the n-th term.
#![tactic(auto)]

mod finding;
mod laws;
mod order;
mod parts;
mod plain;
mod report;
mod scan;
mod sentences;
mod starts;
mod words;

pub use finding::{Finding, Kind};
pub use laws::list_is_one;
pub use order::put_in_order;
pub use parts::{Part, closes, depth_behind, opens, parts_at};
pub use report::{count, is_clean, report_text};
pub use scan::Standing;
pub use sentences::{Names, Words, sentence};
pub use starts::{Start, term_starts};
pub use words::line_of_word;
