//! Distances in the residual network of a flow along the line, and flows grown by a unit.
#![tactic(auto)]

mod carried;
mod dist;
mod first;
pub mod laws;
mod part;
mod path;
mod potentials;
mod relax;
mod step;
mod steps;

pub use carried::Carried;
pub use dist::{Dist, Distances};
pub use part::Part;
pub use potentials::Potentials;
pub use relax::shorten;
pub use step::Step;
pub use steps::{ends_of, is_open, is_there};
