//! The world of a rehearsal towards its peer, and what stands round a world: a capture, and what is told while its day runs.
#![tactic(auto)]

mod both_ends;
mod captured;
pub mod laws;
mod peer;
mod rehearsal;
mod telling;

pub use both_ends::{BothEnds, FarEnd};
pub use captured::CapturedWorld;
pub use peer::Peer;
pub use rehearsal::Rehearsal;
pub use telling::Telling;
