//! The day of an exchange from its events: from a journal, of which each happens as it is read, or from a list.
#![tactic(auto)]

mod following;
mod recovering;
mod replaying;

pub use bx_events::Event;
pub use recovering::recover_day;
pub use replaying::{Replayed, replay};
