//! What a line of a journal says was done where a channel was lost, done again.

ghost use Rattle.std.specs.Prelude.{◌≡◌, OnOk, OnErr, IfErr, IfSome, IfNone};
ghost use Rattle.bx_channels.specs.ChannelNumbers.{IsChannel};
ghost use Rattle.bx_planfile.specs.OneBooking.{row_on};
ghost use Rattle.bx_sales.specs.Amending.{row_numbered, row_named, behind_row};
ghost use Rattle.bx_sales.specs.Leaving.{IsDelayed, IsDropped, IsChannelLeft};
ghost use Rattle.bx_day_openings.specs.Amendments.{IsNoDelay, IsBadDelay, IsNotDropped, IsBadDropping, IsNoLeaving, IsBadLeaving};

use crate::amending::{AmendmentFault, behind, row_of};
use bx_base::{Booking, ChannelSet};
use bx_channels::Channel;
use bx_day::Exchange;
use bx_journal::{number_on, space_at};
use bx_planfile::booking_on;
use bx_sales::{NoChange, delay, give_up, leave};
use std::alloc::Global;

/// Lets the booking of a row start with the next second.
fn delay_again(
    alloc: Global,
    exchange: &mut Exchange,
    row: u16,
    booking: Booking,
) -> Result<(), AmendmentFault>
    ensures delayed { OnOk result (IsDelayed row booking exchange.old exchange.new) }
    ensures kept { OnErr result (exchange.new ≡ exchange.old) }
    ensures refused { IfErr result (IsNoDelay row booking exchange.old) }
{
    match delay(alloc, exchange, row, booking) {
        Ok(()) => Ok(()),
        Err(NoChange::NoBooking) => Err(AmendmentFault::NoBooking),
        Err(NoChange::Late) => Err(AmendmentFault::LateChange),
        Err(NoChange::NoChannel) => unreachable!(),
        Err(NoChange::Memory) => Err(AmendmentFault::Memory),
    }
}

/// Lets the booking whose row a line names start with the next second again, as the line tells it.
pub(crate) fn delay_by(
    alloc: Global,
    exchange: &mut Exchange,
    line: &[u8],
) -> Result<(), AmendmentFault>
    ensures delayed { OnOk result (IsDelayed (row_named line.now) (row_on (behind_row line.now)) exchange.old exchange.new) }
    ensures kept { OnErr result (exchange.new ≡ exchange.old) }
    ensures refused { IfErr result (IsBadDelay line.now exchange.old) }
{
    let at = space_at(line);
    let Some(number) = number_on(&line[..at]) else {
        return Err(AmendmentFault::BadSale);
    };
    let Some(booking) = booking_on(behind(line, at)) else {
        return Err(AmendmentFault::BadSale);
    };
    let Some(row) = row_of(exchange, number) else {
        return Err(AmendmentFault::NoBooking);
    };
    delay_again(alloc, exchange, row, booking)
}

/// Gives up the booking of a row for want of a channel.
fn give_up_again(alloc: Global, exchange: &mut Exchange, row: u16) -> Result<(), AmendmentFault>
    ensures dropped { OnOk result (IsDropped row exchange.old exchange.new) }
    ensures kept { OnErr result (exchange.new ≡ exchange.old) }
    ensures refused { IfErr result (IsNotDropped row exchange.old) }
{
    match give_up(alloc, exchange, row) {
        Ok(()) => Ok(()),
        Err(NoChange::NoBooking) => Err(AmendmentFault::NoBooking),
        Err(NoChange::Late) => Err(AmendmentFault::LateChange),
        Err(NoChange::NoChannel) => unreachable!(),
        Err(NoChange::Memory) => Err(AmendmentFault::Memory),
    }
}

/// Gives up again the booking whose row a line names, for want of a channel.
pub(crate) fn give_up_by(
    alloc: Global,
    exchange: &mut Exchange,
    line: &[u8],
) -> Result<(), AmendmentFault>
    ensures dropped { OnOk result (IsDropped (row_numbered line.now) exchange.old exchange.new) }
    ensures kept { OnErr result (exchange.new ≡ exchange.old) }
    ensures refused { IfErr result (IsBadDropping line.now exchange.old) }
{
    let Some(number) = number_on(line) else {
        return Err(AmendmentFault::BadSale);
    };
    let Some(row) = row_of(exchange, number) else {
        return Err(AmendmentFault::NoBooking);
    };
    give_up_again(alloc, exchange, row)
}

/// Leaves a channel.
fn leave_again(
    alloc: Global,
    exchange: &mut Exchange,
    channels: ChannelSet,
    channel: Channel,
) -> Result<(), AmendmentFault>
    ensures left { OnOk result (IsChannelLeft channels channel exchange.old exchange.new) }
    ensures kept { OnErr result (exchange.new ≡ exchange.old) }
    ensures refused { IfErr result (IsNoLeaving channels channel exchange.old) }
{
    match leave(alloc, exchange, channels, channel) {
        Ok(()) => Ok(()),
        Err(NoChange::NoBooking) => Err(AmendmentFault::BadChannel),
        Err(NoChange::Late) => unreachable!(),
        Err(NoChange::NoChannel) => Err(AmendmentFault::NotCarried),
        Err(NoChange::Memory) => Err(AmendmentFault::Memory),
    }
}

/// The channel of this number.
fn channel_of(number: u32) -> Option<Channel>
    ensures channel { IfSome result (λ c. c ≡ number) }
    ensures none { IfNone result (¬ IsChannel number) }
{
    if number > 31 {
        return None;
    }
    Channel::new(number as u8)
}

/// Leaves again the channel that a line names.
pub(crate) fn leave_by(
    alloc: Global,
    exchange: &mut Exchange,
    channels: ChannelSet,
    line: &[u8],
) -> Result<(), AmendmentFault>
    ensures left { OnOk result (IsChannelLeft channels (row_numbered line.now) exchange.old exchange.new) }
    ensures kept { OnErr result (exchange.new ≡ exchange.old) }
    ensures refused { IfErr result (IsBadLeaving channels line.now exchange.old) }
{
    // Read for the prover alone, which learns from it what a set is.
    let _count = channels.count();
    let Some(number) = number_on(line) else {
        return Err(AmendmentFault::BadSale);
    };
    let Some(channel) = channel_of(number) else {
        return Err(AmendmentFault::BadChannel);
    };
    leave_again(alloc, exchange, channels, channel)
}
