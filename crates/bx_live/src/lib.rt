//! The run of a live day: by the clock, over a link that comes and goes, and with each event logged before it happens.
#![tactic(auto)]

mod hearing;
mod holding;
pub mod laws;
mod log;
mod replying;
mod running;
mod schedule;
mod turn;
mod world;

pub use holding::{goes_on, has_call, run_held};
pub use log::Log;
pub use running::{Second, close_day, run_live, run_second};
pub use schedule::{SECOND, Schedule};
pub use world::{Begin, CannotLog, Loss, World};
