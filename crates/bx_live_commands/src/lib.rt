//! The command that runs the exchange's end of a day by the clock, over a data link.
#![tactic(auto)]

mod by_line;
mod by_office;
mod door_watch;
mod live_end;
mod live_files;
mod office;
mod plan_file;
mod unattended;

pub use by_line::{Told, run_by_clock};
pub use by_office::{Premises, run_with_office};
pub use live_end::LiveEnd;
pub use live_files::live_on_files;
pub use plan_file::PlanFile;
