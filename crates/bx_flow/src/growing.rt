//! A flow of least cost that grows by a unit at a time.

ghost use Rattle.std.specs.Prelude.{◌≡◌, ◌<◌, ◌+◌, ◌-◌, ◌≤ℤ◌, neg_ℤ, pos, IfOk};
ghost use Rattle.bx_dist.specs.Residual.{ArePotentials, height_at};
ghost use Rattle.bx_dist.specs.Walks.{AreLeast};
ghost use Rattle.bx_flow.specs.Costs.{IsLeastCost, free_pays};
ghost use Rattle.bx_line.specs.Flows.{IsFlow};
ghost use Rattle.bx_line.specs.Network.{IsNetwork, places_of};

use bx_dist::{Carried, Distances, Part, Potentials};
use bx_line::Line;
use std::alloc::{AllocError, Global};

/// Sends one more unit from the first place to the last along a least walk, the shortest augmenting path, and answers the
/// distances, which are feasible potentials of the flow that has come about. A flow with such potentials is of least cost. The
/// line has to have a place, the flow has to be one along it of fewer than 30 units, and the potentials have to fit it.
/// `AllocError` where memory runs out: the flow stays as it is then.
pub fn grown<D: Distances>(
    alloc: Global,
    line: &Line,
    carried: &mut Carried,
    potentials: &Potentials,
    distances: &D,
) -> Result<Potentials, AllocError>
    requires limits { IsNetwork line.now }
    requires moment { 0 < places_of line.now }
    requires flow { IsFlow line.now carried.old }
    requires room { carried.old.units < 30 }
    requires fits { ArePotentials line.now carried.old potentials.now }
    ensures flow { IfOk result (λ p. IsFlow line.now carried.new) }
    ensures units { IfOk result (λ p. carried.new.units ≡ carried.old.units + 1) }
    ensures fits { IfOk result (λ p. ArePotentials line.now carried.new p) }
{
    let dist = distances.from_first(alloc, line, carried, potentials, Part::Whole)?;
    carried.send(line, &dist);
    Ok(Potentials::of(dist))
}

/// The distances in the residual network without the arcs of must rows. The last is no deeper than the free bookings pay
/// together. On a line without moments there are none, and none are asked for. The flow has to be one along the line, and the
/// potentials have to fit it. `AllocError` where memory runs out.
pub fn free_distances<D: Distances>(
    alloc: Global,
    line: &Line,
    carried: &Carried,
    potentials: &Potentials,
    distances: &D,
) -> Result<Potentials, AllocError>
    requires flow { IsFlow line.now carried.now }
    requires fits { ArePotentials line.now carried.now potentials.now }
    ensures least { IfOk result (λ p. IsLeastCost line.now carried.now) }
    ensures distances { IfOk result (AreLeast Part.Free line.now carried.now) }
    ensures depth { IfOk result (λ p. 0 < places_of line.now → neg_ℤ (pos (free_pays line.now)) ≤ℤ height_at p (places_of line.now - 1)) }
{
    if line.places() == 0 {
        return Potentials::first(alloc, line);
    }
    let dist = distances.from_first(alloc, line, carried, potentials, Part::Free)?;
    Ok(Potentials::of(dist))
}
