ghost use Rattle.std.specs.Prelude.{◌<◌};
ghost use Rattle.bx_rounds.specs.Rounds.{IsNextOnCircle};

/// The next index in a circle of so many.
pub(crate) fn next_in(at: usize, size: usize) -> usize
    requires { at < size }
    ensures { IsNextOnCircle at size result }
{
    if at + 1 < size { at + 1 } else { 0 }
}
