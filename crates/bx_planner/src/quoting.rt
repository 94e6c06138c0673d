//! What a booking has to pay to be taken.

ghost use Rattle.std.specs.Prelude.{◌≡◌, ◌≤◌, ◌<◌, ◌-◌, ◌↔◌, ℕ, false, Ok, Err, IfOk, IfErr, length};
ghost use Rattle.bx_base.specs.Bookings.{row_at};
ghost use Rattle.bx_base.specs.PlanParts.{parts_of};
ghost use Rattle.bx_base.specs.Plans.{is_accepted};
ghost use Rattle.bx_check.specs.Check.{IsOutcome};
ghost use Rattle.bx_planner.specs.Quotes.{IsQuote, IsNoQuote, IsNoExplanation, IsRowOfPlan, with_asked, IsAcceptedRow, IsFirstFull, IsRefusedAsFull};
ghost use Rattle.bx_planner.specs.Rooms.{IsNoChannel};
ghost use Rattle.bx_planner.specs.Weighing.{rows_held};
ghost use Rattle.bx_base.specs.declared.bookings.TheConstants.{MAX_BOOKINGS};

use crate::answer::{NoQuote, Quote};
use crate::rooms::no_channel;
use crate::weighing::weighed;
use bx_base::{Booking, Bookings, MAX_BOOKINGS, Plan};
use std::alloc::{AllocError, Global};

/// What a booking that is not in the plan has to pay to be taken, where nothing else changes. Neither its own pay nor its must
/// mark counts. The plan has to be proved for its own bookings and channels. `TooMany` is tested first, then `NoChannel`, both
/// without memory; `Memory` where memory runs out. By two best plans: the one given, and one that has to hold the booking.
pub fn quote(alloc: Global, plan: &Plan, booking: &Booking) -> Result<Quote, NoQuote>
    requires proved { IsOutcome plan.now.bookings plan.now.channels (parts_of plan.now) (Ok plan.now.total) }
    ensures full { (result ≡ Err NoQuote.TooMany) ↔ (MAX_BOOKINGS ≤ length plan.now.bookings) }
    ensures no_channel { (t : ℕ) → (result ≡ Err (NoQuote.NoChannel t)) ↔ IsFirstFull (parts_of plan.now) booking.now t }
    ensures quoted { IfOk result (IsQuote (with_asked plan.now.bookings booking.now) (parts_of plan.now) (length plan.now.bookings)) }
    ensures fail { IfErr result (IsNoQuote (parts_of plan.now) booking.now) }
{
    if plan.bookings.len() as usize >= MAX_BOOKINGS {
        return Err(NoQuote::TooMany);
    }
    if let Some(moment) = no_channel(&plan.bookings, plan.channels, booking) {
        return Err(NoQuote::NoChannel(moment));
    }
    match quoted(alloc, plan, booking) {
        Ok(quote) => Ok(quote),
        Err(_) => Err(NoQuote::Memory),
    }
}

/// What a row that the plan refuses has to pay to be taken. Its own pay does not count. The plan has to be proved for its own
/// bookings and channels. `NoSuchRow`, `Accepted` and `NoChannel` are tested in this order, without memory; `Memory` where memory
/// runs out.
pub fn explain(alloc: Global, plan: &Plan, row: u16) -> Result<Quote, NoQuote>
    requires proved { IsOutcome plan.now.bookings plan.now.channels (parts_of plan.now) (Ok plan.now.total) }
    ensures no_row { (result ≡ Err NoQuote.NoSuchRow) ↔ (¬ IsRowOfPlan (parts_of plan.now) row) }
    ensures accepted { (named : ℕ) → (result ≡ Err (NoQuote.Accepted named)) ↔ IsAcceptedRow (parts_of plan.now) row named }
    ensures no_channel { (t : ℕ) → (result ≡ Err (NoQuote.NoChannel t)) ↔ IsRefusedAsFull (parts_of plan.now) row t }
    ensures explained { IfOk result (IsQuote plan.now.bookings (parts_of plan.now) (row - 1)) }
    ensures fail { IfErr result (IsNoExplanation (parts_of plan.now) row) }
{
    let Some(booking) = plan.bookings.get(row) else {
        return Err(NoQuote::NoSuchRow);
    };
    if plan.assigned[row as usize - 1].is_some() {
        return Err(NoQuote::Accepted(row));
    }
    if let Some(moment) = no_channel(&plan.bookings, plan.channels, &booking) {
        return Err(NoQuote::NoChannel(moment));
    }
    match explained(alloc, plan, row - 1) {
        Ok(quote) => Ok(quote),
        Err(_) => Err(NoQuote::Memory),
    }
}

/// The quote of a booking that has a channel.
fn quoted(alloc: Global, plan: &Plan, booking: &Booking) -> Result<Quote, AllocError>
    requires proved { IsOutcome plan.now.bookings plan.now.channels (parts_of plan.now) (Ok plan.now.total) }
    requires few { length plan.now.bookings < MAX_BOOKINGS }
    requires room { (t : ℕ) → ¬ IsNoChannel plan.now.bookings plan.now.channels booking.now t }
    ensures { IfOk result (IsQuote (with_asked plan.now.bookings booking.now) (parts_of plan.now) (length plan.now.bookings)) }
{
    let mut rows = plan.bookings.copy()?;
    match rows.push(booking.as_must()) {
        Ok(()) => {}
        Err(_) => return Err(AllocError),
    }
    weighed(alloc, plan, &rows, plan.bookings.len())
}

/// The quote of a refused row that has a channel, by its place.
fn explained(alloc: Global, plan: &Plan, index: u16) -> Result<Quote, AllocError>
    requires proved { IsOutcome plan.now.bookings plan.now.channels (parts_of plan.now) (Ok plan.now.total) }
    requires inside { index < length plan.now.bookings }
    requires refused { is_accepted plan.now.assigned.items index ≡ false }
    requires room { (t : ℕ) → ¬ IsNoChannel plan.now.bookings plan.now.channels (row_at plan.now.bookings index) t }
    ensures { IfOk result (IsQuote plan.now.bookings (parts_of plan.now) index) }
{
    let rows = with_must(alloc, &plan.bookings, index)?;
    weighed(alloc, plan, &rows, index)
}

/// The bookings, of which each plan has to hold the one at this place.
fn with_must(alloc: Global, bookings: &Bookings, index: u16) -> Result<Bookings, AllocError>
    requires { index < length bookings.now }
    ensures { IfOk result (λ b. b ≡ rows_held bookings.now index) }
{
    let mut rows = Bookings::new(alloc);
    for place in 0..bookings.len() {
        let booking = bookings.nth(place);
        let marked = if place == index {
            booking.as_must()
        } else {
            booking
        };
        match rows.push(marked) {
            Ok(()) => {}
            Err(_) => return Err(AllocError),
        }
    }
    Ok(rows)
}
