//! A flow of the shorter line of cliques, on the whole line.

ghost use Rattle.std.specs.Prelude.{◌≡◌, IfOk};
ghost use Rattle.bx_dist.specs.Residual.{ArePotentials};
ghost use Rattle.bx_flow.specs.Shorter.{FitsShorter};
ghost use Rattle.bx_line.specs.Flows.{IsFlow};

use bx_dist::{Carried, Potentials};
use bx_line::Line;
use std::alloc::{AllocError, Global};

/// From a flow along the shorter line of cliques (M. C. Carlisle and E. L. Lloyd, On the k-coloring of intervals, 1995) and
/// potentials that fit it, the flow of as many units along the whole line in which the same rows carry a unit, and potentials
/// that fit this one: each place has that of its count. The counts have to be those of `cliques` for the line. `AllocError`
/// where memory runs out.
pub fn lifted(
    alloc: Global,
    line: &Line,
    counts: &[u16],
    carried: &Carried,
    potentials: &Potentials,
) -> Result<(Carried, Potentials), AllocError>
    requires { FitsShorter line.now counts.now carried.now potentials.now }
    ensures flow { IfOk result (λ r. IsFlow line.now r.0) }
    ensures accepted { IfOk result (λ r. r.0.accepted ≡ carried.now.accepted) }
    ensures units { IfOk result (λ r. r.0.units ≡ carried.now.units) }
    ensures fits { IfOk result (λ r. ArePotentials line.now r.0 r.1) }
{
    // Read for the prover alone, which learns a limit from it.
    let _places = line.places();
    let whole = carried.along(alloc, line)?;
    let heights = potentials.lifted(alloc, counts)?;
    Ok((whole, heights))
}
