//! The day of an exchange: what becomes of each booking of a plan, tick by tick and message by message. The
//! definitions are over all bookings at once; `laws` holds over every list of events. `Exchange` is the day
//! in memory.
#![tactic(auto)]

mod calling;
mod changing;
mod end;
mod entry;
mod exchange;
pub mod handing;
pub mod laws;
mod linking;
mod moving;
mod opening;
mod outages;
mod outcome;
mod outcome_lines;
mod quiet_seconds;
mod receiving;
mod restoring;
mod scheduling;
mod settling;
mod ticking;

pub use changing::CannotGoOn;
pub use entry::{Activity, Entry, Standing};
pub use exchange::Exchange;
pub use outcome::{GivenUp, Outcome};
