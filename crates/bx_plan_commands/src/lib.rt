//! The commands on bookings and plans, over readers and writers and on files: plan, check, amend, capacity, explain, quote, chart.
#![tactic(auto)]

mod amending;
mod capacity_files;
mod chart_files;
mod earning;
mod fault;
mod inputs;
mod lines;
mod naming;
mod noting;
mod plan_files;
mod planning;
mod quote_files;
mod requests;

pub use amending::{AmendFault, write_amended};
pub use capacity_files::capacity_file;
pub use chart_files::chart_file;
pub use earning::{CapacityFault, capacity_run};
pub use fault::FileFault;
pub use plan_files::{amend_file, check_file, plan_file};
pub use planning::{RunFault, plan_run};
pub use quote_files::{explain_file, quote_file};
pub use requests::run_on_files;
