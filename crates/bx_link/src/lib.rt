//! The far end of the link: sessions of its turns, and its days, as fast as they go and by the clock.
#![tactic(auto)]

mod connection;
mod far_day;
mod far_session;
mod hearing;
pub mod laws;
mod running;
mod turn;

pub use connection::Connection;
pub use far_day::run_far_day;
pub use far_session::FarSession;
pub use running::run_far_live;
