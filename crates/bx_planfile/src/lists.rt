//! The lists of bookings and prices.

ghost use Rattle.std.specs.Prelude.{◌≡◌, ◌≤◌, ◌<◌, ◌+◌, ◌^◌, ◌++◌, ◌∷◌, [], length, vec_len, OnOk, OnErr, IfOk};
ghost use Rattle.bx_planfile.specs.Reading.{Gives, read_bookings, read_prices, entries, SomeBookings, SomePrices};
ghost use Rattle.bx_base.specs.declared.bookings.TheConstants.{MAX_BOOKINGS};

use crate::booking_line::booking_of;
use crate::fault::PlanTextFault;
use crate::fields::line_of;
use crate::lines::price_of;
use crate::version::Version;
use bx_base::{AddFault, Booking, Bookings, Price};
use bx_channels::Channel;
use std::alloc::Global;

fn add(bookings: &mut Bookings, booking: Booking) -> Result<(), PlanTextFault>
    requires { length bookings.old < MAX_BOOKINGS }
    ensures ok { OnOk result (bookings.new ≡ bookings.old ++ booking ∷ []) }
    ensures err { OnErr result (result ≡ Err PlanTextFault.Memory) }
{
    match bookings.push(booking) {
        Ok(()) => Ok(()),
        Err(AddFault::Full) => unreachable!(),
        Err(AddFault::Memory) => Err(PlanTextFault::Memory),
    }
}

/// So many bookings, the first of them in line `n`, the channel of each, and what stands after them.
pub(crate) fn bookings_of(
    alloc: Global,
    version: Version,
    count: u16,
    bytes: &[u8],
    n: u32,
) -> Result<(Bookings, Vec<Option<Channel>>, &[u8]), PlanTextFault>
    requires few { count ≤ MAX_BOOKINGS }
    requires counts { n + count < 2 ^ 32 }
    ensures value { Gives (λ x. entries x.0 x.1.items x.2.now) result (read_bookings version count n bytes.now) }
    // Memory was refused only where the plan grew.
    ensures memory { result ≡ Err PlanTextFault.Memory → SomeBookings version count n bytes.now }
    ensures lengths { IfOk result (λ x. (length x.0 ≡ count) × (vec_len x.1 ≡ count)) }
{
    let mut bookings = Bookings::new(alloc);
    let mut assigned = Vec::new(alloc);
    let mut rest = bytes;
    for i in 0..count {
        let line = n + u32::from(i);
        let (fields, after) = line_of(rest, line)?;
        let (booking, channel) = booking_of(version, fields, line)?;
        add(&mut bookings, booking)?;
        if assigned.push(channel).is_err() {
            return Err(PlanTextFault::Memory);
        }
        rest = after;
    }
    Ok((bookings, assigned, rest))
}

/// So many prices, the first of them in line `n`, and what stands after them.
pub(crate) fn prices_of(
    alloc: Global,
    count: u16,
    bytes: &[u8],
    n: u32,
) -> Result<(Vec<Price>, &[u8]), PlanTextFault>
    requires { n + count < 2 ^ 32 }
    ensures value { Gives (λ x. (x.0.items, x.1.now)) result (read_prices count n bytes.now) }
    // Memory was refused only where the list grew.
    ensures memory { result ≡ Err PlanTextFault.Memory → SomePrices count n bytes.now }
    ensures len { IfOk result (λ x. vec_len x.0 ≡ count) }
{
    let mut prices = Vec::new(alloc);
    let mut rest = bytes;
    for i in 0..count {
        let line = n + u32::from(i);
        let (fields, after) = line_of(rest, line)?;
        let price = price_of(fields, line)?;
        if prices.push(price).is_err() {
            return Err(PlanTextFault::Memory);
        }
        rest = after;
    }
    Ok((prices, rest))
}
