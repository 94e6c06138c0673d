//! Days for tests: either end at the opening of its day, and what a test does with any end.
#![tactic(auto)]

mod ends;
mod openings;

pub use ends::{DayEnd, TICK, are_same, goes_through};
pub use openings::{Row, exchange, exchange_of, exchange_of_numbers, far_end, far_of, plan_of};
