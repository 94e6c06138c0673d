//! Uses of the crates that others would take, as a caller writes them: a plan, its check, messages of Q.931, a data link of Q.921.
#![tactic(auto)]

mod lines;
mod messages;
mod plans;

pub use lines::{first_frame, is_frame};
pub use messages::{cause_in, release_complete};
pub use plans::{best_total, is_best};
