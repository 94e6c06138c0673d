//! The best choice of bookings.

ghost use Rattle.std.specs.Prelude.{◌≡◌, ◌≤◌, ◌<◌, ◌-◌, ◌≤ℤ◌, neg_ℤ, pos, ℕ, IfOk, length};
ghost use Rattle.bx_base.specs.Bookings.{AreBookings, pay_of};
ghost use Rattle.bx_colour.specs.Colouring.{is_in};
ghost use Rattle.bx_dist.specs.Residual.{height_at};
ghost use Rattle.bx_dist.specs.Walks.{AreLeast};
ghost use Rattle.bx_dist.specs.declared.part.Part.TheVariants.{Free};
ghost use Rattle.bx_flow.specs.Costs.{IsLeastCost, free_pays};
ghost use Rattle.bx_line.specs.Flows.{carries_unit};
ghost use Rattle.bx_line.specs.Moments.{HasJustMoments};
ghost use Rattle.bx_line.specs.Network.{AreArcsOf, places_of};
ghost use Rattle.bx_planner.specs.Musts.{musts_at};
ghost use Rattle.bx_planner.specs.Inside.{IsBestChoice};
ghost use Rattle.bx_base.specs.declared.bookings.TheConstants.{MAX_BOOKINGS};
ghost use Rattle.bx_base.specs.declared.plan.TheConstants.{MAX_TOTAL};

use crate::prices::prices_of;
use bx_base::{Bookings, Price};
use bx_dist::{Carried, Potentials};
use bx_flow::least_cost;
use bx_heap::HeapDist;
use bx_line::Line;
use std::alloc::{AllocError, Global};

/// Which bookings so many channels are to carry, and the prices that prove it best: those of a flow of least cost,
/// and the falls of the distances that it leaves to the free bookings.
pub(crate) fn best_choice(
    alloc: Global,
    bookings: &Bookings,
    count: u8,
) -> Result<(Vec<bool>, Vec<Price>), AllocError>
    requires few { count ≤ 30 }
    requires room { (s : ℕ) → musts_at bookings.now s ≤ count }
    ensures best { IfOk result (λ r. IsBestChoice bookings.now count r.0.items r.1.items) }
    ensures bookings { AreBookings bookings.now }
{
    // Read for the prover alone, which learns a limit from it.
    let _rows = bookings.len();
    let line = Line::of(alloc, bookings)?;
    let (carried, lengths) = least_cost(alloc, &line, count, &HeapDist)?;
    choice_of(alloc, bookings, &line, &carried, &lengths, count)
}

/// The rows that carry a unit in a flow of least cost along the line of the bookings, of so many units, and the prices
/// from the distances that it leaves to the free bookings.
pub(crate) fn choice_of(
    alloc: Global,
    bookings: &Bookings,
    line: &Line,
    carried: &Carried,
    lengths: &Potentials,
    count: u8,
) -> Result<(Vec<bool>, Vec<Price>), AllocError>
    requires room { (s : ℕ) → musts_at bookings.now s ≤ count }
    requires moments { HasJustMoments bookings.now line.now.moments }
    requires arcs { AreArcsOf line.now.moments bookings.now line.now.arcs }
    requires units { 0 < places_of line.now → carried.now.units ≡ count }
    requires least { IsLeastCost line.now carried.now }
    requires distances { AreLeast Free line.now carried.now lengths.now }
    requires depth { 0 < places_of line.now → neg_ℤ (pos (free_pays line.now)) ≤ℤ height_at lengths.now (places_of line.now - 1) }
    ensures best { IfOk result (λ r. IsBestChoice bookings.now count r.0.items r.1.items) }
    ensures bookings { AreBookings bookings.now }
{
    // Read for the prover alone, which learns limits from it.
    let _rows = bookings.len();
    let _places = line.places();
    let accepted = marks_of(alloc, carried, bookings.len())?;
    let prices = prices_of(alloc, line, lengths)?;
    Ok((accepted, prices))
}

/// Which of so many rows carry a unit.
fn marks_of(alloc: Global, carried: &Carried, rows: u16) -> Result<Vec<bool>, AllocError>
    requires { rows ≤ MAX_BOOKINGS }
    ensures one_each { IfOk result (λ v. length v.items ≡ rows) }
    ensures each { IfOk result (λ v. (i : ℕ) → i < rows → is_in v.items i ≡ carries_unit carried.now i) }
{
    let mut marks = Vec::new(alloc);
    for row in 0..rows {
        marks.push(carried.accepted(row + 1))?;
    }
    Ok(marks)
}

/// What the marked bookings pay together.
pub(crate) fn total_of(bookings: &Bookings, accepted: &[bool]) -> u64
    requires { length accepted.now ≡ length bookings.now }
    ensures total { result ≡ pay_of bookings.now (is_in accepted.now) }
    ensures limit { result ≤ MAX_TOTAL }
{
    let mut total = 0;
    for i in 0..bookings.len() {
        if accepted[i as usize] {
            total += bookings.nth(i).pay();
        }
    }
    total
}
