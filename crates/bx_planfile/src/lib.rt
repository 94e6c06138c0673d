//! The text of a plan: read with the first fault that is met, and written.
#![tactic(auto)]

mod booking_line;
mod channel_line;
mod decimals;
mod fault;
mod fields;
pub mod laws;
mod lines;
mod lists;
mod one_booking;
mod reading;
mod version;
mod writing;
mod written_lines;

pub use decimals::decimal;
pub use fault::{PlanTextFault, PlanWriteFault};
pub use one_booking::{booking_on, spell_booking};
pub use reading::read_plan;
pub use writing::write_plan;
