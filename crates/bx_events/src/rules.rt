//! The rules by which an exchange goes through its events.

/// The rules by which a message of a call is heard, and seconds without a link are gone through, by the number that a journal gives them.
#[derive(Clone, Copy)]
pub enum Rules {
    /// Those of older journals, which lack some rows for calls that are asked for after an outage.
    Two,
    /// Those of this program.
    Three,
}
