//! Whether the prices of a plan prove that no choice of bookings pays more.
#![tactic(auto)]

mod apart;
mod bound;
mod checker;
pub mod laws;
mod sums;

pub use bound::price_sum;
pub use checker::{CheckFault, check};
pub use sums::{Sums, cost, sums_of};
