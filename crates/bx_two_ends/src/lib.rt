//! Laws of days, without code: what is planned is earned where the far end answers, and two ends agree that hear of each other only by
//! messages.
#![tactic(auto)]

pub mod earned;
pub mod laws;
pub mod ringing;
