//! A live day over a data link: a world with a wire and the clock beside it.
#![tactic(auto)]

pub mod laws;
mod line;
mod line_world;
mod post;
mod running;
mod seeing;
mod serving;
mod udp;
mod wire;

pub use line::Line;
pub use line_world::LineWorld;
pub use post::Post;
pub use running::run_by_line;
pub use udp::UdpWire;
pub use wire::Wire;
