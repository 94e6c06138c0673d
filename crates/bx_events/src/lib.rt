//! What the days of both ends go through.
#![tactic(auto)]

mod amendment;
mod event;
mod moment;
mod rules;

pub use amendment::Amendment;
pub use event::{Event, LiveEvent};
pub use moment::LAST_MOMENT;
pub use rules::Rules;
