//! Days of the calendar, from one local midnight to the next, their clocks, and the times that texts name.
#![tactic(auto)]

mod clock;
mod day;
mod place;
mod time;

pub use clock::Clock;
pub use day::{Day, DayFault, MAX_DAY};
pub use time::{Instant, instant_at};
