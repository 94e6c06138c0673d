//! How much of the residual network is meant.

/// A part of the residual network.
#[derive(Clone, Copy, Debug, PartialEq, Eq)]
pub enum Part {
    /// All of it.
    Whole,
    /// What is left without the arcs of bookings that each plan has to hold, the mandatory ones, and their reverses.
    Free,
}
