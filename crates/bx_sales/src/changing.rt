//! A booking of the day that is given up before its start, and one that becomes another.

ghost use Rattle.std.specs.Prelude.{◌≡◌, ◌↔◌, OnOk, OnErr, IsTrue, Err, length};
ghost use Rattle.bx_colour.specs.ChangedRows.{HasNoFirstFit};
ghost use Rattle.bx_sales.specs.GoingOn.{own_of, KeepsBegun, GoesOnBeside, FitsBeside};
ghost use Rattle.bx_sales.specs.Changing.{IsPromised, HasStarted, IsCancelled, IsRowChanged, MayBecome, MayNotBecome, FitsChanged, FitsWithout};

use crate::going_on::{NotGoneOn, go_on_beside};
use crate::listing::{marks_of, marks_without, rows_changed, rows_of};
use bx_base::{Booking, Bookings, ChannelSet};
use bx_day::{Entry, Exchange};
use std::alloc::Global;
use thiserror::Error;

/// Why a booking of the day was not given up, or not changed.
#[derive(Clone, Copy, Debug, PartialEq, Eq, Error)]
pub enum NoChange {
    /// The day has no booking of this row that is promised.
    #[error("NoBooking")]
    NoBooking,
    /// Its start has come, and so it cannot be given up, or become this one.
    #[error("Late")]
    Late,
    /// At some moment more would run than there are channels.
    #[error("NoChannel")]
    NoChannel,
    /// Memory ran out.
    #[error("Memory")]
    Memory,
}

/// Goes on with as many bookings as the day has. A refusal changes nothing.
pub(crate) fn go_on_changed(
    alloc: Global,
    exchange: &mut Exchange,
    channels: ChannelSet,
    bookings: Bookings,
    marks: &[bool],
) -> Result<(), NoChange>
    requires count { length marks.now ≡ length bookings }
    requires same { length bookings ≡ length exchange.old.entries }
    requires keeps { KeepsBegun exchange.old bookings marks.now }
    ensures gone_on { OnOk result (GoesOnBeside channels bookings marks.now exchange.old exchange.new) }
    ensures kept { OnErr result (exchange.new ≡ exchange.old) }
    ensures no_channel { result ≡ Err NoChange.NoChannel → ¬ FitsBeside channels exchange.old bookings marks.now }
    ensures none { result ≡ Err NoChange.NoChannel → HasNoFirstFit bookings (own_of exchange.old) channels marks.now }
    ensures booking { ¬ (result ≡ Err NoChange.NoBooking) }
    ensures late { ¬ (result ≡ Err NoChange.Late) }
{
    match go_on_beside(alloc, exchange, channels, bookings, marks) {
        Ok(()) => Ok(()),
        Err(NotGoneOn::NoChannel) => Err(NoChange::NoChannel),
        Err(NotGoneOn::TookOver) => unreachable!(),
        Err(NotGoneOn::Memory) => Err(NoChange::Memory),
    }
}

/// Whether the booking of a row is promised.
pub(crate) fn is_promised(entries: &[Entry], row: u16) -> bool
    ensures { IsTrue result ↔ IsPromised entries.now row }
{
    if row == 0 || row as usize > entries.len() {
        return false;
    }
    !entries[row as usize - 1].standing.is_refused()
}

/// Gives up the promised booking of a row whose start has not come: it is refused from now on, and all others that wait are coloured first fit, so that
/// what it leaves may be sold again. What has begun keeps its channel. `NoBooking` is tested first, then `Late`. A refusal changes nothing.
pub fn cancel(
    alloc: Global,
    exchange: &mut Exchange,
    channels: ChannelSet,
    row: u16,
) -> Result<(), NoChange>
    ensures cancelled { OnOk result (IsCancelled channels row exchange.old exchange.new) }
    ensures kept { OnErr result (exchange.new ≡ exchange.old) }
    ensures none { (result ≡ Err NoChange.NoBooking) ↔ (¬ IsPromised exchange.old.entries row) }
    ensures late { (result ≡ Err NoChange.Late) ↔ HasStarted exchange.old row }
    ensures no_channel { result ≡ Err NoChange.NoChannel → ¬ FitsWithout channels exchange.old row }
{
    let moment = exchange.moment();
    if !is_promised(exchange.entries(), row) {
        return Err(NoChange::NoBooking);
    }
    let place = row as usize - 1;
    if exchange.entries()[place].booking.start() <= moment {
        return Err(NoChange::Late);
    }
    let Ok(bookings) = rows_of(alloc, exchange.entries()) else {
        return Err(NoChange::Memory);
    };
    let Ok(marks) = marks_without(alloc, exchange.entries(), place) else {
        return Err(NoChange::Memory);
    };
    go_on_changed(alloc, exchange, channels, bookings, &marks)
}

/// Whether a booking may become another one now: one that starts later, where its own start is yet to come; else the same call with an end that is yet
/// to come, as its own is.
fn may_become(moment: u32, entry: &Entry, other: Booking) -> bool
    ensures { IsTrue result ↔ MayBecome moment entry.now other }
{
    let booking = entry.booking;
    if booking.start() > moment {
        return other.start() > moment;
    }
    other.start() == booking.start()
        && other.number() == booking.number()
        && other.is_inward() == booking.is_inward()
        && booking.end() > moment
        && other.end() > moment
        && entry.standing.is_over_by(other.end())
}

/// Makes of the promised booking of a row another one: before its start whatever starts later; of a call whose start has come the same with another
/// end or pay, where both ends are later than now. What has begun keeps its channel, and all that waits is coloured first fit. `NoBooking` is tested first,
/// then `Late`. A refusal changes nothing.
pub fn change(
    alloc: Global,
    exchange: &mut Exchange,
    channels: ChannelSet,
    row: u16,
    booking: Booking,
) -> Result<(), NoChange>
    ensures changed { OnOk result (IsRowChanged channels row booking exchange.old exchange.new) }
    ensures kept { OnErr result (exchange.new ≡ exchange.old) }
    ensures none { (result ≡ Err NoChange.NoBooking) ↔ (¬ IsPromised exchange.old.entries row) }
    ensures late { (result ≡ Err NoChange.Late) ↔ MayNotBecome exchange.old row booking }
    ensures no_channel { result ≡ Err NoChange.NoChannel → ¬ FitsChanged channels exchange.old row booking }
{
    let moment = exchange.moment();
    if !is_promised(exchange.entries(), row) {
        return Err(NoChange::NoBooking);
    }
    let place = row as usize - 1;
    if !may_become(moment, &exchange.entries()[place], booking) {
        return Err(NoChange::Late);
    }
    let Ok(bookings) = rows_changed(alloc, exchange.entries(), place, booking) else {
        return Err(NoChange::Memory);
    };
    let Ok(marks) = marks_of(alloc, exchange.entries()) else {
        return Err(NoChange::Memory);
    };
    go_on_changed(alloc, exchange, channels, bookings, &marks)
}
