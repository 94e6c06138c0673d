//! Why a booking text was not read.

use thiserror::Error;

/// The first fault of a booking text. Rows are named 1, 2, .. in their order, and in a row the faults come in the
/// order in which they stand here, but that the start is looked at before the end.
#[derive(Clone, Copy, Debug, PartialEq, Eq, Error)]
pub enum BookFault {
    /// The first record is none of the three headers, or there is none.
    #[error("B1 BadHeader")]
    BadHeader,
    /// The row has another number of fields than the header.
    #[error("B2 WrongColumns {0}")]
    WrongColumns(u16),
    /// A field is not a time.
    #[error("B3 NotATime {0}")]
    NotATime(u16),
    /// A time has a fraction with a digit other than 0.
    #[error("B4 NotWholeSeconds {0}")]
    NotWholeSeconds(u16),
    /// A time lies before the day or after its end.
    #[error("B5 OutsideDay {0}")]
    OutsideDay(u16),
    /// The end is at the start, or before it.
    #[error("B6 EndNotAfterStart {0}")]
    EndNotAfterStart(u16),
    /// The number is not 1 to 15 digits.
    #[error("B7 BadNumber {0}")]
    BadNumber(u16),
    /// The pay is not 1 to 10 digits with a value of 1 to 1,000,000,000.
    #[error("B8 BadPay {0}")]
    BadPay(u16),
    /// There is a row after the 16,000th.
    #[error("B9 TooMany")]
    TooMany,
    /// The mark is neither `yes` nor `no`.
    #[error("B10 BadMust {0}")]
    BadMust(u16),
    /// The direction is neither `out` nor `in`.
    #[error("B11 BadDirection {0}")]
    BadDirection(u16),
    /// Memory ran out.
    #[error("Memory")]
    Memory,
}
