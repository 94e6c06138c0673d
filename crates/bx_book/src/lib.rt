//! The booking text of a day.
#![tactic(auto)]

mod fault;
mod field;
mod metered;
mod row;
mod stream;
mod text;

pub use fault::BookFault;
pub use field::moment;
pub use stream::{StreamFault, read_bookings_from};
pub use text::read_bookings;
