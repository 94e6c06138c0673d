//! Channels for accepted bookings, first fit in the order of their starts.
#![tactic(auto)]

mod beside;
mod colouring;
mod fitting;
pub mod laws;
mod load;
mod order;
mod sweep;

pub use beside::{NoColouring, colour_beside};
pub use colouring::colour;
pub use fitting::fits;
pub use load::{Load, MAX_LOAD};
