//! Least-cost flow by shortest walks, one unit after another: successive shortest paths (R. K. Ahuja, T. L. Magnanti, J. B.
//! Orlin, Network flows, 1993).

ghost use Rattle.std.specs.Prelude.{◌≡◌, ◌≤◌, ◌<◌, ◌-◌, ◌≤ℤ◌, neg_ℤ, pos, IfOk};
ghost use Rattle.bx_dist.specs.Residual.{ArePotentials, height_at};
ghost use Rattle.bx_dist.specs.Walks.{AreLeast};
ghost use Rattle.bx_dist.specs.declared.part.Part.TheVariants.{Free};
ghost use Rattle.bx_flow.specs.Costs.{IsLeastCost, free_pays};
ghost use Rattle.bx_line.specs.Flows.{IsFlow};
ghost use Rattle.bx_line.specs.Network.{IsNetwork, places_of};

use crate::growing::{free_distances, grown};
use crate::lifting::lifted;
use bx_dist::{Carried, Distances, Potentials};
use bx_line::Line;
use std::alloc::{AllocError, Global};

/// Sends so many units from the first place to the last, each along a least walk, with the distances as potentials
/// for the next.
fn sent<D: Distances>(
    alloc: Global,
    line: &Line,
    units: u8,
    distances: &D,
) -> Result<(Carried, Potentials), AllocError>
    requires few { units ≤ 30 }
    requires limits { IsNetwork line.now }
    requires moment { 0 < places_of line.now }
    ensures flow { IfOk result (λ r. IsFlow line.now r.0) }
    ensures units { IfOk result (λ r. r.0.units ≡ units) }
    ensures fits { IfOk result (λ r. ArePotentials line.now r.0 r.1) }
{
    let mut carried = Carried::empty(alloc, line)?;
    let mut potentials = Potentials::first(alloc, line)?;
    for _ in 0..units {
        potentials = grown(alloc, line, &mut carried, &potentials, distances)?;
    }
    Ok((carried, potentials))
}

/// The same by way of the shorter line that has a place for each maximal set of rows that run together.
fn sent_over_cliques<D: Distances>(
    alloc: Global,
    line: &Line,
    units: u8,
    distances: &D,
) -> Result<(Carried, Potentials), AllocError>
    requires few { units ≤ 30 }
    requires limits { IsNetwork line.now }
    requires moment { 0 < places_of line.now }
    ensures flow { IfOk result (λ r. IsFlow line.now r.0) }
    ensures units { IfOk result (λ r. r.0.units ≡ units) }
    ensures fits { IfOk result (λ r. ArePotentials line.now r.0 r.1) }
{
    let counts = line.cliques(alloc)?;
    let shorter = line.shortened(alloc, &counts)?;
    let (carried, potentials) = sent(alloc, &shorter, units, distances)?;
    lifted(alloc, line, &counts, &carried, &potentials)
}

/// A flow of so many units, at most 30, from the first place to the last, of which none of as many units costs
/// less, and the distances in its residual network without the arcs of must rows. By successive shortest paths with
/// potentials on the shorter line of cliques, and one search on the whole line, for every lawful way to find distances. The
/// last distance is no deeper than the free bookings pay together. On a line without moments both are empty, and no
/// distances are asked for. `AllocError` where memory runs out.
pub fn least_cost<D: Distances>(
    alloc: Global,
    line: &Line,
    units: u8,
    distances: &D,
) -> Result<(Carried, Potentials), AllocError>
    requires { units ≤ 30 }
    ensures units { IfOk result (λ r. 0 < places_of line.now → r.0.units ≡ units) }
    ensures least { IfOk result (λ r. IsLeastCost line.now r.0) }
    ensures distances { IfOk result (λ r. AreLeast Free line.now r.0 r.1) }
    ensures depth { IfOk result (λ r. 0 < places_of line.now → neg_ℤ (pos (free_pays line.now)) ≤ℤ height_at r.1 (places_of line.now - 1)) }
{
    if line.places() == 0 {
        return Ok((
            Carried::empty(alloc, line)?,
            Potentials::first(alloc, line)?,
        ));
    }
    let (carried, potentials) = sent_over_cliques(alloc, line, units, distances)?;
    let lengths = free_distances(alloc, line, &carried, &potentials, distances)?;
    Ok((carried, lengths))
}
