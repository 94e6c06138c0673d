//! Watched readers and writers, and the loops that read and write octets.
#![tactic(auto)]

mod octets;
mod watched;

pub use octets::{MAX_OCTETS, ReadFault, WriteFailed, read_octets, write_octets};
pub use watched::{MAX_READS, Watched};
