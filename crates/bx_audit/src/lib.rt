//! What a journal tells of its day: what became of each booking, its records, its last plan, a picture of it, and a capture of it, made afterwards.
#![tactic(auto)]

mod audited_files;
mod charted_files;
mod charting;
mod following;
mod last_plans;
pub mod laws;
mod noting;
mod opens;
mod recorded_files;
mod sold_plans;
mod telling;
mod told_days;

pub use audited_files::audit_files;
pub use charted_files::chart_day_files;
pub use opens::Opens;
pub use recorded_files::record_files;
pub use sold_plans::sold_files;
pub use telling::{AuditedDay, audited_day};
