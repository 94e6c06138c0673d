//! A day as a picture: what was carried of each booking, and what became of the others.
#![tactic(auto)]

mod calls;
mod chart;
mod counting;
mod head;
mod maintenance;
mod marks;
mod now;
mod outages;
mod standings;
mod starts;
mod writing;

pub use counting::is_over;
pub use outages::{DaySight, Outage, Outages};
pub use writing::write_day_chart;
