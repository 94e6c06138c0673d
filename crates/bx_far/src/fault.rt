//! Why a script was not read.

use thiserror::Error;

/// The first fault of a script. Rows are named 1, 2, .. in their order.
#[derive(Clone, Copy, Debug, PartialEq, Eq, Error)]
pub enum ScriptFault {
    /// The first record is neither of the two headers, or there is none.
    #[error("S1 BadHeader")]
    BadHeader,
    /// The row has another number of fields than the header.
    #[error("S2 WrongColumns {0}")]
    WrongColumns(u16),
    /// The fields of the row say nothing that an end can do.
    #[error("S3 BadEntry {0}")]
    BadEntry(u16),
    /// There is a row after the 16,000th.
    #[error("S4 TooMany")]
    TooMany,
    /// Memory ran out.
    #[error("Memory")]
    Memory,
}
