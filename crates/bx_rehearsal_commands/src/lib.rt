//! The command that rehearses a day, as fast as its peer goes.
#![tactic(auto)]

mod rehearsal_files;
mod rehearsing;
mod running;
mod telling;
mod waiting;

pub use rehearsal_files::rehearse_on_files;
pub use rehearsing::{Opened, Rehearsed, rehearse};
pub use running::{Ran, View, run_in};
pub use telling::{Ended, tell};
pub use waiting::WaitingDisk;
