//! Why a plan text was not read, or not written.

use thiserror::Error;

/// The first fault of a plan text. Lines are counted from 1, and the form of a line is looked at before its
/// values.
#[derive(Clone, Copy, Debug, PartialEq, Eq, Error)]
pub enum PlanTextFault {
    /// The line has another form than the one that belongs in its place, has no LF, or is missing.
    #[error("P1 BadLine {0}")]
    BadLine(u32),
    /// More than 16,000 bookings, or more than 32,000 prices.
    #[error("P2 BadCount")]
    BadCount,
    /// The line has the right form, and a value of it is outside its limits.
    #[error("P3 OutOfLimits {0}")]
    OutOfLimits(u32),
    /// Octets stand after the last line.
    #[error("P4 Trailing")]
    Trailing,
    /// Memory ran out.
    #[error("Memory")]
    Memory,
}

/// Why a plan text was not written whole.
#[derive(Clone, Copy, Debug, PartialEq, Eq, Error)]
pub enum PlanWriteFault {
    /// A write failed, or took no octet.
    #[error("P5 WriteFailed")]
    WriteFailed,
}
