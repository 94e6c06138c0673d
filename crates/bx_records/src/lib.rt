//! Records of a day's calls, as switches write them for bills: CSV with a line for each booking.
#![tactic(auto)]

mod fault;
mod lasted;
mod lines;
mod records;
mod tallies;
mod totals;
mod writing;

pub use fault::RecordsFault;
pub use tallies::Tally;
pub use totals::write_totals;
pub use writing::write_records;
