//! The program `explore --rules otp25`: what no sequence of events can do on live nodes of OTP 25.2.3.
//!
//! [`run_explore_live`] reads a cluster file, a base, and behind it which events may come and what is asked, as `rh_explore_text` reads
//! them. It answers the base as a run on live nodes does, tries the lists of the events that may come behind it (`rh_otp_explore`), and
//! tells of each ask that it held, or the first list behind which it didn't, with the report of the live nodes there: as text, or by lines
//! of JSON.
#![tactic(auto)]

mod bases;
mod exploring;
mod found_lines;
mod telling;

pub use exploring::run_explore_live;
