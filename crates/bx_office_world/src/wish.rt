//! A call that is wished for.

ghost use Rattle.std.specs.Prelude.{◌≤◌};

/// A call that is wished for: how many seconds it lasts, at least one, and the first and the last second at which it may start.
#[derive(Clone, Copy)]
pub struct Wish {
    pub(crate) length: u32,
    pub(crate) from: u32,
    pub(crate) to: u32,
    ghost lasts: { (1 ≤ length) × (length ≤ 200_000) },
}
