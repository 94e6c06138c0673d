//! Captures of a day: the messages that go over the link, as packets that Wireshark reads.
#![tactic(auto)]

mod captured;
mod fault;
mod packet;
mod start;

pub use captured::{Captured, is_whole, keep, keep_reply, keep_sent};
pub use fault::BeyondCapture;
pub use packet::{Direction, write_file_header, write_packet};
pub use start::{LAST_START, first_second};
