//! A data link of ITU-T Q.921 (LAPD) for the D channel of a primary rate interface: SAPI 0, TEI 0, point-to-point, multiple frame
//! operation modulo 128. It has no socket and no clock: each call is given the instant, and answers what to send and what came.
#![tactic(auto)]

mod calls;
pub mod check_sequence;
mod data_link;
mod done;
mod endpoint;
mod frame;
mod indication;
mod information;
pub mod laws;
mod reading;
mod refusal;
mod row;
mod sending;
mod supervisory;
mod unnumbered;
mod words;
mod writing;

pub use data_link::DataLink;
pub use done::Done;
pub use endpoint::Endpoint;
pub use frame::Frame;
pub use indication::Indication;
pub use reading::read_frame;
pub use refusal::{Invalid, Refusal};
pub use words::{ErrorCode, LinkState, Supervisory, Timer, Unnumbered};
pub use writing::{FrameOctets, write_frame};
