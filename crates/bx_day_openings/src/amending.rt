//! What a line of a journal says became of a booking, done again.

ghost use Rattle.std.specs.Prelude.{◌≡◌, ◌<◌, ◌+◌, drop, length, OnOk, OnErr, IfErr, IfSome, IfNone};
ghost use Rattle.bx_planfile.specs.OneBooking.{row_on};
ghost use Rattle.bx_sales.specs.Amending.{AmendsDay, row_numbered, row_named, behind_row};
ghost use Rattle.bx_sales.specs.Changing.{IsCancelled, IsRowChanged};
ghost use Rattle.bx_sales.specs.Selling.{IsSold};
ghost use Rattle.bx_sales.specs.Tags.{row_behind};
ghost use Rattle.bx_day_openings.specs.Amendments.{IsNoSale, IsBadSale, IsNoCancellation, IsBadCancellation, IsNoRowChange, IsBadRowChange, IsBadAmendment};

use crate::leaving::{delay_by, give_up_by, leave_by};
use bx_base::{Booking, ChannelSet};
use bx_day::Exchange;
use bx_events::Amendment;
use bx_journal::{number_on, space_at};
use bx_planfile::booking_on;
use bx_sales::{NoChange, NoSale, behind_tag, cancel, change, channels_left, sell};
use std::alloc::Global;
use thiserror::Error;

/// Why a line that amends the plan is none of the day.
#[derive(Clone, Copy, Debug, PartialEq, Eq, Error)]
pub enum AmendmentFault {
    /// It tells no booking, or names no row by a number.
    #[error("J9 BadSale")]
    BadSale,
    /// The booking that was sold had started by then.
    #[error("J10 LateSale")]
    LateSale,
    /// The day had 16,000 bookings by then.
    #[error("J11 TooMany")]
    TooMany,
    /// At some moment more would have been promised than there are channels.
    #[error("J12 NotCarried")]
    NotCarried,
    /// The day took over from another, and a booking that is sold has no reference of its own there.
    #[error("J13 TookOver")]
    TookOver,
    /// The day had no booking of its row that was promised.
    #[error("J14 NoBooking")]
    NoBooking,
    /// By then the booking of its row could not be given up any more, or not become this one.
    #[error("J15 LateChange")]
    LateChange,
    /// The channel that was left by then is none of the plan, or was not in maintenance.
    #[error("J16 BadChannel")]
    BadChannel,
    /// Memory ran out.
    #[error("Memory")]
    Memory,
}

/// Sells a booking that a line tells.
fn sell_again(
    alloc: Global,
    exchange: &mut Exchange,
    channels: ChannelSet,
    booking: Booking,
) -> Result<(), AmendmentFault>
    ensures sold { OnOk result (IsSold channels booking exchange.old exchange.new) }
    ensures kept { OnErr result (exchange.new ≡ exchange.old) }
    ensures refused { IfErr result (IsNoSale channels booking exchange.old) }
{
    match sell(alloc, exchange, channels, &booking) {
        Ok(()) => Ok(()),
        Err(NoSale::Late) => Err(AmendmentFault::LateSale),
        Err(NoSale::Full) => Err(AmendmentFault::TooMany),
        Err(NoSale::NoChannel) => Err(AmendmentFault::NotCarried),
        Err(NoSale::TookOver) => Err(AmendmentFault::TookOver),
        Err(NoSale::Memory) => Err(AmendmentFault::Memory),
    }
}

/// Sells again the booking that a line tells, behind the key that it may have.
fn sell_by(
    alloc: Global,
    exchange: &mut Exchange,
    channels: ChannelSet,
    line: &[u8],
) -> Result<(), AmendmentFault>
    ensures sold { OnOk result (IsSold channels (row_behind row_on line.now) exchange.old exchange.new) }
    ensures kept { OnErr result (exchange.new ≡ exchange.old) }
    ensures refused { IfErr result (IsBadSale channels line.now exchange.old) }
{
    match booking_on(behind_tag(line)) {
        Some(booking) => sell_again(alloc, exchange, channels, booking),
        None => Err(AmendmentFault::BadSale),
    }
}

/// The row of this number, where the day has so many bookings.
pub(crate) fn row_of(exchange: &Exchange, number: u32) -> Option<u16>
    ensures row { IfSome result (λ row. row ≡ number) }
    ensures beyond { IfNone result (length exchange.now.entries < number) }
{
    // Read for the prover alone, which learns a limit from it.
    let _moment = exchange.moment();
    if number as usize <= exchange.entries().len() {
        Some(number as u16)
    } else {
        None
    }
}

/// Gives up the booking of a row.
fn cancel_again(
    alloc: Global,
    exchange: &mut Exchange,
    channels: ChannelSet,
    row: u16,
) -> Result<(), AmendmentFault>
    ensures cancelled { OnOk result (IsCancelled channels row exchange.old exchange.new) }
    ensures kept { OnErr result (exchange.new ≡ exchange.old) }
    ensures refused { IfErr result (IsNoCancellation channels row exchange.old) }
{
    match cancel(alloc, exchange, channels, row) {
        Ok(()) => Ok(()),
        Err(NoChange::NoBooking) => Err(AmendmentFault::NoBooking),
        Err(NoChange::Late) => Err(AmendmentFault::LateChange),
        Err(NoChange::NoChannel) => Err(AmendmentFault::NotCarried),
        Err(NoChange::Memory) => Err(AmendmentFault::Memory),
    }
}

/// Gives up again the booking whose row a line names.
fn cancel_by(
    alloc: Global,
    exchange: &mut Exchange,
    channels: ChannelSet,
    line: &[u8],
) -> Result<(), AmendmentFault>
    ensures cancelled { OnOk result (IsCancelled channels (row_numbered line.now) exchange.old exchange.new) }
    ensures kept { OnErr result (exchange.new ≡ exchange.old) }
    ensures refused { IfErr result (IsBadCancellation channels line.now exchange.old) }
{
    let Some(number) = number_on(line) else {
        return Err(AmendmentFault::BadSale);
    };
    let Some(row) = row_of(exchange, number) else {
        return Err(AmendmentFault::NoBooking);
    };
    cancel_again(alloc, exchange, channels, row)
}

/// Makes of the booking of a row this one.
fn change_again(
    alloc: Global,
    exchange: &mut Exchange,
    channels: ChannelSet,
    row: u16,
    booking: Booking,
) -> Result<(), AmendmentFault>
    ensures changed { OnOk result (IsRowChanged channels row booking exchange.old exchange.new) }
    ensures kept { OnErr result (exchange.new ≡ exchange.old) }
    ensures refused { IfErr result (IsNoRowChange channels row booking exchange.old) }
{
    match change(alloc, exchange, channels, row, booking) {
        Ok(()) => Ok(()),
        Err(NoChange::NoBooking) => Err(AmendmentFault::NoBooking),
        Err(NoChange::Late) => Err(AmendmentFault::LateChange),
        Err(NoChange::NoChannel) => Err(AmendmentFault::NotCarried),
        Err(NoChange::Memory) => Err(AmendmentFault::Memory),
    }
}

/// What a line has behind the octet at this place.
pub(crate) fn behind(line: &[u8], at: usize) -> &[u8]
    ensures { result.now ≡ drop (at + 1) line.now }
{
    if at < line.len() {
        &line[at + 1..]
    } else {
        &[]
    }
}

/// Makes again of the booking whose row a line names the one that it tells behind it.
fn change_by(
    alloc: Global,
    exchange: &mut Exchange,
    channels: ChannelSet,
    line: &[u8],
) -> Result<(), AmendmentFault>
    ensures changed { OnOk result (IsRowChanged channels (row_named line.now) (row_on (behind_row line.now)) exchange.old exchange.new) }
    ensures kept { OnErr result (exchange.new ≡ exchange.old) }
    ensures refused { IfErr result (IsBadRowChange channels line.now exchange.old) }
{
    let at = space_at(line);
    let Some(number) = number_on(&line[..at]) else {
        return Err(AmendmentFault::BadSale);
    };
    let Some(booking) = booking_on(behind(line, at)) else {
        return Err(AmendmentFault::BadSale);
    };
    let Some(row) = row_of(exchange, number) else {
        return Err(AmendmentFault::NoBooking);
    };
    change_again(alloc, exchange, channels, row, booking)
}

/// Does again what a line of a journal says became of a booking or a channel, where its day stands now: sells it, gives it up, makes another one of it, or
/// leaves it. `BadSale`, which is tested first, where the line tells no booking, or names no row or channel by a number; else the fault of the sale or the
/// change, which changes nothing.
pub fn amend_again(
    alloc: Global,
    exchange: &mut Exchange,
    channels: ChannelSet,
    kind: Amendment,
    line: &[u8],
) -> Result<(), AmendmentFault>
    ensures amended { OnOk result (AmendsDay channels row_on kind line.now exchange.old exchange.new) }
    ensures kept { OnErr result (exchange.new ≡ exchange.old) }
    ensures refused { IfErr result (IsBadAmendment channels kind line.now exchange.old) }
{
    let left = channels_left(exchange, channels);
    match kind {
        Amendment::Sold => sell_by(alloc, exchange, left, line),
        Amendment::Cancelled => cancel_by(alloc, exchange, left, line),
        Amendment::Changed => change_by(alloc, exchange, left, line),
        Amendment::SoldByRulesTwo => sell_by(alloc, exchange, channels, line),
        Amendment::Delayed => delay_by(alloc, exchange, line),
        Amendment::Dropped => give_up_by(alloc, exchange, line),
        Amendment::Out => leave_by(alloc, exchange, channels, line),
    }
}
