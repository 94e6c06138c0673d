//! How a live day has ended.

use bx_day::{Exchange, GivenUp};

/// The exchange at the end of a live day, and how its bookings were given up, by the numbers of their rows.
#[derive(Drop)]
pub struct LiveEnd {
    pub exchange: Exchange,
    pub given_up: Vec<Option<GivenUp>>,
}
