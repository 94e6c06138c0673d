//! The answer for a booking that is refused.

use thiserror::Error;

/// What a booking has to pay to be taken, beside a plan that does not take it. Rows are named 1, 2, ..
#[derive(Drop)]
pub struct Quote {
    /// Where it pays more than this, each best choice takes it; where it pays less, none does; at it some do. In auctions this is
    /// its critical value.
    pub threshold: u64,
    /// What its seconds cost at the plan's prices: never above the threshold.
    pub cost: u64,
    /// The accepted rows that one best choice with it leaves out, in rising order.
    pub instead: Vec<u16>,
    /// The refused rows that this choice takes beside it, in rising order. The threshold and what these pay is what
    /// the rows in `instead` pay.
    pub besides: Vec<u16>,
}

/// Why there is no quote.
#[derive(Clone, Copy, Debug, PartialEq, Eq, Error)]
pub enum NoQuote {
    /// The plan has 16,000 bookings.
    #[error("K2 TooMany")]
    TooMany,
    /// At this moment, in seconds of the day, must bookings have all channels; at no earlier moment of the booking.
    #[error("Q1 NoChannel {0}")]
    NoChannel(u32),
    /// The plan has no row of this name.
    #[error("Q2 NoSuchRow")]
    NoSuchRow,
    /// The plan accepts the row.
    #[error("Q3 Accepted {0}")]
    Accepted(u16),
    /// Memory ran out.
    #[error("Memory")]
    Memory,
}
