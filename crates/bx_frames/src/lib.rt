//! Frames of octets, which the two ends of the link write to each other, and turns: what an end is, the messages that it hears in a
//! turn, and its tick with what that sends.
#![tactic(auto)]

mod end;
mod fault;
mod frame;
mod frame_reading;
mod frame_writing;
mod octet_reading;
mod turn;

pub use end::{Course, End};
pub use fault::LinkFault;
pub use frame::{Frame, Receiver};
pub use frame_reading::read_frame;
pub use frame_writing::{write_end_of_day, write_end_of_turn, write_message, write_messages};
pub use turn::{MAX_MESSAGES, hear_turn, write_tick};
