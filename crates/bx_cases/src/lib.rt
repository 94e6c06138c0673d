//! Cases of tests: how many of the drawn ones are tried, worked messages of Q.931, and devices that fail.
#![tactic(auto)]

mod failing;
pub mod messages;

pub use failing::Failing;

/// One in so many drawn cases is tried. Here it is each; a run that is not proved tries fewer, since it is slower.
pub const SHARE: u32 = 1;
