/// A step in the residual network: a residual arc. `Idle` and `Take` are forward arcs, `Back` and `Give` backward ones. Places
/// are counted from 0, and rows are named 1, 2, ..
#[derive(Clone, Copy, Debug, PartialEq, Eq)]
pub enum Step {
    /// From this place to the next.
    Idle(u16),
    /// From the next place to this one, where a unit is idle.
    Back(u16),
    /// Along the arc of a row that carries no unit.
    Take(u16),
    /// Back along the arc of a row that carries one.
    Give(u16),
}
