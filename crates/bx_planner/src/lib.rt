//! The best plan of a day, the prices that prove it, and quotes: at which price a booking that it refuses would be taken.
#![tactic(auto)]

mod amending;
mod answer;
mod choice;
mod demand;
mod earnings;
pub mod laws;
mod musts;
mod naming;
mod planning;
mod prices;
mod quoting;
mod rooms;
mod texts;
mod weighing;
mod writing;

pub use amending::{NoAmendment, amend};
pub use answer::{NoQuote, Quote};
pub use earnings::{Earning, capacity, next_gain};
pub use planning::{NoPlan, plan};
pub use quoting::{explain, quote};
pub use writing::{QuoteFault, write_explained, write_quote, write_refused};
