//! What becomes of the bookings of a day while it runs.

/// By what a line of a journal amends the plan: a booking that is sold, one of the day that its customer gives up, or one of it that is changed; the same of
/// a sale by the rules 2; and where a channel is lost, a booking that waits behind it and starts a second later, one that the exchange gives up,
/// and the channel, which all leave that can.
#[derive(Clone, Copy)]
pub enum Amendment {
    Sold,
    Cancelled,
    Changed,
    SoldByRulesTwo,
    Delayed,
    Dropped,
    Out,
}
