//! The last plan of a day.

ghost use Rattle.std.specs.Prelude.{◌≡◌, ℕ, not, map, length, IfOk};
ghost use Rattle.std.specs.List.{AllByRecursion};
ghost use Rattle.bx_base.specs.Bookings.{pay_of};
ghost use Rattle.bx_base.specs.PlanParts.{parts_of};
ghost use Rattle.bx_base.specs.Plans.{is_accepted};
ghost use Rattle.bx_day.specs.Invariant.{is_refused};
ghost use Rattle.bx_day.specs.Reading.{Seated};
ghost use Rattle.bx_planner.specs.Musts.{IsTooManyMust};
ghost use Rattle.bx_audit.specs.DayChannels.{channel_on};
ghost use Rattle.bx_audit.specs.HeldRows.{row_held};
ghost use Rattle.bx_audit.specs.PlansOfDays.{rows_held_on, ArePrices, IsPlanOfDay};

use bx_base::{Booking, Bookings, ChannelSet, Plan, Price};
use bx_channels::Channel;
use bx_day::{Entry, Exchange};
use bx_planner::{NoPlan, plan};
use std::alloc::{AllocError, Global};

/// A booking as a plan has it that accepts it, or refuses it: no plan has to hold what was given up.
fn as_held(booking: &Booking, accepted: bool) -> Booking
    ensures { result ≡ row_held booking.now accepted }
{
    if accepted {
        return *booking;
    }
    let (start, end) = (booking.start(), booking.end());
    let Some(free) = Booking::new(start, end, booking.pay(), booking.number()) else {
        unreachable!()
    };
    if booking.is_inward() {
        free.as_inward()
    } else {
        free
    }
}

/// The bookings of these entries, of which none that is refused has to be held.
fn rows_in(alloc: Global, entries: &[Entry]) -> Result<Bookings, AllocError>
    ensures { IfOk result (λ b. b ≡ map (λ e. row_held e.booking (not (is_refused e.standing))) entries.now) }
{
    let mut rows = Bookings::new(alloc);
    for index in 0..entries.len() {
        let entry = &entries[index];
        let held = as_held(&entry.booking, !entry.standing.is_refused());
        if rows.push(held).is_err() {
            return Err(AllocError);
        }
    }
    Ok(rows)
}

/// The channel of a booking that is accepted.
fn channel_of(entry: &Entry) -> Option<Channel>
    requires { Seated entry.now }
    ensures { result ≡ channel_on entry.now }
{
    if entry.standing.is_refused() {
        return None;
    }
    let Some(channel) = Channel::new(entry.channel) else {
        unreachable!()
    };
    Some(channel)
}

/// The same of each of these.
fn channels_in(alloc: Global, entries: &[Entry]) -> Result<Vec<Option<Channel>>, AllocError>
    requires { AllByRecursion Seated entries.now }
    ensures { IfOk result (λ v. v.items ≡ map channel_on entries.now) }
{
    let mut channels = Vec::new(alloc);
    for index in 0..entries.len() {
        let channel = channel_of(&entries[index]);
        channels.push(channel)?;
    }
    Ok(channels)
}

/// What the accepted rows pay together.
fn total_pay(rows: &Bookings, assigned: &[Option<Channel>]) -> u64
    requires { length assigned.now ≡ length rows.now }
    ensures { result ≡ pay_of rows.now (is_accepted assigned.now) }
{
    let mut total = 0;
    for i in 0..rows.len() {
        if assigned[i as usize].is_some() {
            total += rows.nth(i).pay();
        }
    }
    total
}

/// The prices that prove a best plan of these bookings.
fn prices_of(alloc: Global, rows: &Bookings, channels: ChannelSet) -> Result<Vec<Price>, AllocError>
    requires { (t : ℕ) → IsTooManyMust rows.now channels t → ⊥ }
    ensures { IfOk result (λ prices. ArePrices rows.now channels prices.items) }
{
    match plan(alloc, rows, channels) {
        Ok(best) => {
            let Plan { prices, .. } = best;
            Ok(prices)
        }
        Err(NoPlan::TooManyMust(_)) => unreachable!(),
        Err(NoPlan::Memory) => Err(AllocError),
    }
}

/// The last plan of a day: its bookings, those that it has accepted on the channels that they have, what these pay, and the prices of a best plan of all.
/// None that is refused has to be held. At no moment may more have to be held than there are channels. `AllocError` where memory runs out.
pub(crate) fn last_plan(
    alloc: Global,
    exchange: &Exchange,
    channels: ChannelSet,
) -> Result<Plan, AllocError>
    requires { (t : ℕ) → IsTooManyMust (rows_held_on exchange.now) channels t → ⊥ }
    ensures { IfOk result (λ p. IsPlanOfDay exchange.now channels (parts_of p)) }
{
    // Read for the prover alone, which learns from it that each channel is one.
    let _moment = exchange.moment();
    let rows = rows_in(alloc, exchange.entries())?;
    let assigned = channels_in(alloc, exchange.entries())?;
    let prices = prices_of(alloc, &rows, channels)?;
    let total = total_pay(&rows, &assigned);
    match Plan::new(rows, channels, assigned, prices, total) {
        Some(plan) => Ok(plan),
        None => Err(AllocError),
    }
}
