//! A live run with sales and changes: between two seconds customers ask for bookings, give some up and change some, and what is done is logged before
//! they are told.
#![tactic(auto)]

mod changing;
mod choosing;
mod keeping;
pub mod laws;
mod leaving;
mod market;
mod offering;
mod running;

pub use choosing::promised;
pub use market::{Answer, Batch, Market, Request};
pub use running::run_market;
