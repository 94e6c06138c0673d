//! What each count of channels would earn.

ghost use Rattle.std.specs.Prelude.{◌≡◌, ◌<◌, ◌+◌, ℕ, Ok, IfOk};
ghost use Rattle.bx_base.specs.Channels.{count_of};
ghost use Rattle.bx_base.specs.PlanParts.{parts_of};
ghost use Rattle.bx_check.specs.Check.{IsOutcome};
ghost use Rattle.bx_colour.specs.Loads.{load_at};
ghost use Rattle.bx_dist.specs.Residual.{ArePotentials};
ghost use Rattle.bx_line.specs.Cliques.{AreCliques, IsShortened};
ghost use Rattle.bx_line.specs.Flows.{IsFlow};
ghost use Rattle.bx_line.specs.Moments.{HasJustMoments};
ghost use Rattle.bx_line.specs.Network.{AreArcsOf, places_of};
ghost use Rattle.bx_planner.specs.Earnings.{IsEarning, AreEarnings};
ghost use Rattle.bx_planner.specs.Musts.{musts_at};

use crate::choice::{best_choice, choice_of, total_of};
use crate::demand::Demand;
use crate::musts::must_load;
use bx_base::{Bookings, Plan};
use bx_check::price_sum;
use bx_colour::Load;
use bx_dist::{Carried, Potentials};
use bx_flow::{free_distances, grown, lifted};
use bx_heap::HeapDist;
use bx_line::Line;
use std::alloc::{AllocError, Global};

/// What so many channels would earn.
#[derive(Clone, Copy, Debug, PartialEq, Eq)]
pub enum Earning {
    /// The most that a lawful set pays on them, and what one more channel would add to it.
    Most { total: u64, next: u64 },
    /// At this moment, in seconds of the day, more must bookings run than there are channels; at no earlier one.
    TooFew(u32),
}

/// What each count of channels would earn, from 0 to 30, in rising order: by a flow of least cost that grows by a unit for each
/// channel (R. K. Ahuja, T. L. Magnanti, J. B. Orlin, Network flows, 1993: successive shortest paths). `AllocError` where memory
/// runs out.
pub fn capacity(alloc: Global, bookings: &Bookings) -> Result<Vec<Earning>, AllocError>
    ensures { IfOk result (λ v. AreEarnings bookings.now v.items) }
{
    let mut musts = must_load(&Demand::fresh(bookings));
    let line = Line::of(alloc, bookings)?;
    let counts = line.cliques(alloc)?;
    let shorter = line.shortened(alloc, &counts)?;
    earnings_of(alloc, bookings, &line, &counts, &shorter, &mut musts)
}

/// What one more channel would add to the total of a plan that has to be proved for its own bookings, whatever proves it: the
/// sum of the least prices for its bookings and channels. `AllocError` where memory runs out.
pub fn next_gain(alloc: Global, plan: &Plan) -> Result<u64, AllocError>
    requires proved { IsOutcome plan.now.bookings plan.now.channels (parts_of plan.now) (Ok plan.now.total) }
    ensures { IfOk result (λ next. IsEarning plan.now.bookings (count_of plan.now.channels) (Earning.Most plan.now.total next)) }
{
    let (_accepted, prices) = best_choice(alloc, &plan.bookings, plan.channels.count())?;
    Ok(price_sum(&prices))
}

/// The earnings by a flow of least cost along the shorter line of cliques that grows by a unit for each channel, and is lifted
/// to the line of the bookings.
fn earnings_of(
    alloc: Global,
    bookings: &Bookings,
    line: &Line,
    counts: &[u16],
    shorter: &Line,
    musts: &mut Load,
) -> Result<Vec<Earning>, AllocError>
    requires musts { (t : ℕ) → load_at musts.old t ≡ musts_at bookings.now t }
    requires moments { HasJustMoments bookings.now line.now.moments }
    requires arcs { AreArcsOf line.now.moments bookings.now line.now.arcs }
    requires cliques { AreCliques line.now counts.now }
    requires shortened { IsShortened line.now counts.now shorter.now }
    ensures { IfOk result (λ v. AreEarnings bookings.now v.items) }
{
    // Read for the prover alone, which learns a limit from it.
    let _places = shorter.places();
    let mut carried = Carried::empty(alloc, shorter)?;
    let mut potentials = Potentials::first(alloc, shorter)?;
    let mut earnings = Vec::new(alloc);
    for count in 0..30u8 {
        let (whole, heights) = lifted(alloc, line, counts, &carried, &potentials)?;
        let earning = earning_of(alloc, bookings, line, &whole, &heights, musts, count)?;
        earnings.push(earning)?;
        potentials = one_more(alloc, shorter, &mut carried, potentials)?;
    }
    let (whole, heights) = lifted(alloc, line, counts, &carried, &potentials)?;
    let last = earning_of(alloc, bookings, line, &whole, &heights, musts, 30)?;
    earnings.push(last)?;
    Ok(earnings)
}

/// Sends one more unit, where there are places.
fn one_more(
    alloc: Global,
    line: &Line,
    carried: &mut Carried,
    potentials: Potentials,
) -> Result<Potentials, AllocError>
    requires flow { IsFlow line.now carried.old }
    requires room { 0 < places_of line.now → carried.old.units < 30 }
    requires fits { ArePotentials line.now carried.old potentials }
    ensures flow { IfOk result (λ p. IsFlow line.now carried.new) }
    ensures units { IfOk result (λ p. 0 < places_of line.now → carried.new.units ≡ carried.old.units + 1) }
    ensures fits { IfOk result (λ p. ArePotentials line.now carried.new p) }
{
    if line.places() == 0 {
        return Ok(potentials);
    }
    grown(alloc, line, carried, &potentials, &HeapDist)
}

/// What so many channels would earn, by the rows of a flow of least cost with as many units, and the sum of their prices.
fn earning_of(
    alloc: Global,
    bookings: &Bookings,
    line: &Line,
    carried: &Carried,
    potentials: &Potentials,
    musts: &mut Load,
    count: u8,
) -> Result<Earning, AllocError>
    requires musts { (t : ℕ) → load_at musts.old t ≡ musts_at bookings.now t }
    requires moments { HasJustMoments bookings.now line.now.moments }
    requires arcs { AreArcsOf line.now.moments bookings.now line.now.arcs }
    requires units { 0 < places_of line.now → carried.now.units ≡ count }
    requires flow { IsFlow line.now carried.now }
    requires fits { ArePotentials line.now carried.now potentials.now }
    ensures earned { IfOk result (IsEarning bookings.now count) }
    ensures same { (t : ℕ) → load_at musts.new t ≡ load_at musts.old t }
{
    if let Some(moment) = musts.first_above(count) {
        return Ok(Earning::TooFew(moment));
    }
    let lengths = free_distances(alloc, line, carried, potentials, &HeapDist)?;
    let (accepted, prices) = choice_of(alloc, bookings, line, carried, &lengths, count)?;
    let total = total_of(bookings, &accepted);
    let next = price_sum(&prices);
    Ok(Earning::Most { total, next })
}
