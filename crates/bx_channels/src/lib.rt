//! Values that messages carry: B channels and called numbers.
#![tactic(auto)]

mod channel;
mod number;

pub use channel::Channel;
pub use number::Number;
