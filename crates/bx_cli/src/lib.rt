//! What the program does for the words of its command line.
#![tactic(auto)]

mod program;
mod reading;
mod words;

pub use bx_check_commands::check_self;
pub use bx_request::{Locates, Location};
pub use program::run_program;
pub use reading::ReadsWords;
pub use words::main_words;
