//! The exchange's end of the link: sessions of its turns, its days, and days of both ends in one process.
#![tactic(auto)]

mod both_ends;
mod day;
mod session;

pub use both_ends::run_both_ends;
pub use day::run_day;
pub use session::Session;
