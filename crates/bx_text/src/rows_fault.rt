//! Why the rows of a text were not read.

/// The first fault of a text of rows.
#[derive(Drop)]
pub enum RowsFault<F> {
    /// The first record is no header, or there is none.
    BadHeader,
    /// What is wrong with the first row that is not right.
    Row(F),
    /// There is a row after the 16,000th.
    TooMany,
    /// Memory ran out, or the reader underneath failed.
    Memory,
}
