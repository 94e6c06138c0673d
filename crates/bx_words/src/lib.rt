//! What the words of a command line ask for.
#![tactic(auto)]

mod arguments;
mod channel_list;
mod command_line;
mod faults;
mod line_ports;
mod meanings;
mod origins;
mod reading;

pub use meanings::explain_fault;
pub use reading::{Refusal, read_words};
