//! Flows of least cost along the line.
#![tactic(auto)]

mod flowing;
mod growing;
pub mod laws;
mod lifting;

pub use flowing::least_cost;
pub use growing::{free_distances, grown};
pub use lifting::lifted;
