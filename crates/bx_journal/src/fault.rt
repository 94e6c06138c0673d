//! Why a journal was not read.

use thiserror::Error;

/// The first fault of the text of a journal, in the order of its lines, or why it was not read to its end. Lines are counted from 1.
#[derive(Clone, Copy, Debug, PartialEq, Eq, Error)]
pub enum JournalFault {
    /// A whole line has another form than the one that belongs in its place.
    #[error("J1 BadLine {0}")]
    BadLine(u64),
    /// The second line names another plan.
    #[error("J2 OtherPlan")]
    OtherPlan,
    /// The third line names another day.
    #[error("J5 OtherDay")]
    OtherDay,
    /// The first line names rules by which no event is replayed, or, where a day is wanted, the older rules, or the version that named
    /// none.
    #[error("J8 OtherRules")]
    OtherRules,
    /// The text ends inside its head, so no event is logged.
    #[error("NotBegun")]
    NotBegun,
    /// A read failed.
    #[error("ReadFailed")]
    ReadFailed,
}
