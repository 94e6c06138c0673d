//! The last plan of the day.

ghost use Rattle.std.specs.Prelude.{◌≡◌, ◌≤◌, true, false, map, length, IfOk, IfErr, IfSome};
ghost use Rattle.bx_base.specs.PlanParts.{parts_of};
ghost use Rattle.bx_base.specs.Plans.{is_accepted};
ghost use Rattle.bx_base.specs.declared.bookings.TheConstants.{MAX_BOOKINGS};
ghost use Rattle.bx_day.specs.Invariant.{stands_accepted};
ghost use Rattle.bx_records.specs.Tallies.{IsTallyOf};
ghost use Rattle.bx_office_world.specs.LastPlans.{last_plan_row, last_plan_rows, TakesRefused, given, IsHeldAs, IsLastPlanNow, HasNoLastPlan, IsPlanText};

use crate::fault::NoAnswer;
use bx_base::{Booking, Bookings, ChannelSet, Plan};
use bx_channels::Channel;
use bx_day::{Entry, Exchange};
use bx_devices::Watched;
use bx_planfile::write_plan;
use bx_planner::{NoPlan, plan};
use bx_records::Tally;
use std::alloc::{AllocError, Global};

/// A booking of the day: a must booking where it is promised, and else one that no plan has to hold.
fn last_plan_row(entry: &Entry) -> Booking
    ensures { result ≡ last_plan_row entry.now }
{
    let booking = entry.booking;
    if !entry.standing.is_refused() {
        return booking.as_must();
    }
    let (start, end) = (booking.start(), booking.end());
    let Some(free) = Booking::new(start, end, booking.pay(), booking.number()) else {
        unreachable!()
    };
    if booking.is_inward() {
        free.as_inward()
    } else {
        free
    }
}

/// All of them.
fn last_plan_rows(alloc: Global, entries: &[Entry]) -> Result<Bookings, AllocError>
    ensures { IfOk result (λ rows. rows ≡ last_plan_rows entries.now) }
{
    let mut rows = Bookings::new(alloc);
    for entry in entries {
        if rows.push(last_plan_row(entry)).is_err() {
            return Err(AllocError);
        }
    }
    Ok(rows)
}

/// Whether a plan accepts what stands at this place of it.
fn is_accepted(assigned: &[Option<Channel>], place: usize) -> bool
    ensures { result ≡ is_accepted assigned.now place }
{
    place < assigned.len() && assigned[place].is_some()
}

/// Whether a plan accepts a booking that is refused.
fn takes_refused(entries: &[Entry], assigned: &[Option<Channel>]) -> bool
    ensures taken { result ≡ true → TakesRefused entries.now assigned.now }
    ensures none { result ≡ false → ¬ TakesRefused entries.now assigned.now }
{
    for index in 0..entries.len() {
        if entries[index].standing.is_refused() && is_accepted(assigned, index) {
            return true;
        }
    }
    false
}

/// The channel of a booking of the day, where it is promised.
fn given(entry: &Entry) -> Option<Channel>
    ensures { result ≡ given entry.now }
{
    if !entry.standing.is_refused() {
        Channel::new(entry.channel)
    } else {
        None
    }
}

/// The channels of the promised bookings.
fn channels_of(alloc: Global, entries: &[Entry]) -> Result<Vec<Option<Channel>>, AllocError>
    ensures { IfOk result (λ v. v.items ≡ map given entries.now) }
{
    let mut assigned = Vec::new(alloc);
    for index in 0..entries.len() {
        assigned.push(given(&entries[index]))?;
    }
    Ok(assigned)
}

/// How many are promised, and what they pay.
fn promised_tally(entries: &[Entry]) -> Tally
    requires { length entries.now ≤ MAX_BOOKINGS }
    ensures { IsTallyOf stands_accepted entries.now result }
{
    let mut tally = Tally::NONE;
    for entry in entries {
        tally.count(entry, !entry.standing.is_refused());
    }
    tally
}

/// What is promised, on the channels of the day, with the prices of a better plan, which takes what is refused. None where that has no plan's limits.
fn bounded(alloc: Global, better: Plan, entries: &[Entry]) -> Option<Plan>
    requires { length entries.now ≤ MAX_BOOKINGS }
    ensures { IfSome result (λ p. IsHeldAs (parts_of better) entries.now (parts_of p)) }
{
    let Plan {
        bookings,
        channels,
        prices,
        ..
    } = better;
    let assigned = channels_of(alloc, entries).ok()?;
    let total = promised_tally(entries).pay;
    Plan::new(bookings, channels, assigned, prices, total)
}

/// The last plan: the bookings of the day, of which those that are promised are must and accepted, and no other. Where a best plan of them has just
/// these, it is that, with prices that prove it. Where each that was found takes what is refused too, since something was given up or changed, what is
/// promised stands on the channels of the day, and the prices bound what any choice would pay. `TooManyMust` where the channels do not carry what is
/// promised, `Memory` where memory runs out.
pub fn last_plan(alloc: Global, exchange: &Exchange, channels: ChannelSet) -> Result<Plan, NoAnswer>
    ensures plan { IfOk result (λ p. IsLastPlanNow exchange.now.entries channels (parts_of p)) }
    ensures none { IfErr result (HasNoLastPlan exchange.now.entries channels) }
{
    let Ok(rows) = last_plan_rows(alloc, exchange.entries()) else {
        return Err(NoAnswer::Memory);
    };
    // Read for the prover alone, which learns a limit from it.
    let _count = rows.len();
    let best = match plan(alloc, &rows, channels) {
        Ok(best) => best,
        Err(NoPlan::TooManyMust(moment)) => return Err(NoAnswer::TooManyMust(moment)),
        Err(NoPlan::Memory) => return Err(NoAnswer::Memory),
    };
    if !takes_refused(exchange.entries(), &best.assigned) {
        return Ok(best);
    }
    match bounded(alloc, best, exchange.entries()) {
        Some(last) => Ok(last),
        None => Err(NoAnswer::Memory),
    }
}

/// The text of the last plan. The faults are those of `last_plan`.
pub fn plan_text(
    alloc: Global,
    exchange: &Exchange,
    channels: ChannelSet,
) -> Result<Vec<u8>, NoAnswer>
    ensures text { IfOk result (λ text. IsPlanText exchange.now.entries channels text.items) }
    ensures none { IfErr result (HasNoLastPlan exchange.now.entries channels) }
{
    let plan = last_plan(alloc, exchange, channels)?;
    let mut text = Watched::new(Vec::new(alloc));
    match write_plan(&plan, &mut text) {
        Ok(()) => Ok(text.into_inner()),
        Err(_) => Err(NoAnswer::Memory),
    }
}
