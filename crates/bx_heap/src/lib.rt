//! Distances in the residual network of a flow along the line, by a heap of places.
#![tactic(auto)]

mod frontier;
mod heap;
mod next;
mod settle;
mod waiting;

pub use heap::HeapDist;
