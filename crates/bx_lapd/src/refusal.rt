//! Why octets are no frame of the link.

use crate::words::ErrorCode;

/// Why a frame is invalid, or another link's (2.9): it is dropped, and nothing is told.
#[derive(Clone, Copy, Debug, PartialEq, Eq)]
pub enum Invalid {
    /// Fewer octets than its control field needs.
    Short,
    /// The check sequence is another.
    Check,
    /// An address field that is none of two octets.
    Address,
    /// Another SAPI or TEI.
    OtherLink,
}

/// Why octets are no frame.
#[derive(Clone, Copy, Debug, PartialEq, Eq)]
pub enum Refusal {
    Dropped(Invalid),
    /// A frame rejection condition (5.8.5), which the link is told.
    Faulty(ErrorCode),
}
