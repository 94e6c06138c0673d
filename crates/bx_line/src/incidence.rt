/// On which side of its row's arc a place lies.
#[derive(Clone, Copy, Debug, PartialEq, Eq)]
pub enum Incidence {
    /// The arc leaves the place: the row starts there.
    Leaving,
    /// The arc arrives at the place: the row ends there.
    Arriving,
}
