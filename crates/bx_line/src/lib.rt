//! The line of moments at which bookings start or end, with an arc for each booking, and flows along it.
#![tactic(auto)]

mod arc;
mod arcs;
mod by_place;
mod incidence;
pub mod laws;
mod line;
mod moments;

pub use arc::Arc;
pub use incidence::Incidence;
pub use line::{Line, MAX_ARC_PAY, MAX_PLACES, MUST_RAISE};
