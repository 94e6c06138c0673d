//! Values that plans speak of: sets of B channels, bookings, prices and plans.
#![tactic(auto)]

mod booking;
mod bookings;
mod channel_set;
pub mod laws;
mod plan;
mod price;

pub use booking::{Booking, MAX_MOMENT, MAX_PAY};
pub use bookings::{AddFault, Bookings, MAX_BOOKINGS};
pub use channel_set::{ChannelFault, ChannelSet};
pub use plan::{MAX_PRICES, MAX_TOTAL, Plan};
pub use price::Price;
