//! The command that runs the far end of a day: far.
#![tactic(auto)]

mod by_line;
mod far_files;
mod line_files;
mod running;

pub use far_files::{far_on_files, write_ended};
pub use line_files::far_by_line;
