//! Distances in the residual network of a flow along the line, by rounds over all steps: Bellman-Ford.
#![tactic(auto)]

mod circle;
mod marks;
mod rounds;
mod steps;

pub use rounds::Rounds;
