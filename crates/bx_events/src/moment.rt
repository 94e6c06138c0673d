//! Moments of a day.

/// The moment at which the days of both ends stand still, in seconds from the first: nothing happens after it.
pub const LAST_MOMENT: u32 = 300_000;
