/// The way of one booking along the line: an arc that one unit can take.
#[derive(Clone, Copy, Debug, PartialEq, Eq)]
pub struct Arc {
    /// The place of its start, counted from 0.
    pub from: u16,
    /// The place of its end.
    pub to: u16,
    /// Its pay, with the raise where each plan has to hold it.
    pub pay: u64,
    /// Whether each plan has to hold it.
    pub must: bool,
}
