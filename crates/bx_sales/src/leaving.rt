//! A channel that is lost, since it is in maintenance, and the bookings that leave it.

ghost use Rattle.std.specs.Prelude.{◌≡◌, ◌↔◌, ◌<◌, ◌+◌, OnOk, OnErr, IfOk, IsTrue, Err, Some, None, length, map};
ghost use Rattle.std.specs.List.{AllByRecursion};
ghost use Rattle.bx_day.specs.Changed.{AgreesWith};
ghost use Rattle.bx_day.specs.Reading.{Seated};
ghost use Rattle.bx_sales.specs.Changing.{IsPromised};
ghost use Rattle.bx_sales.specs.Leaving.{promised_channel, promised_channels, GoesOnStill, IsStranded, IsAnyStranded, MayNotBeDelayed, IsDelayed, MayNotBeDropped, IsDropped, IsChannelLost, IsChannelLeft, FitsOnLeft, next_start};
ghost use Rattle.bx_sales.specs.RowsApart.{AreRowsApart};

use crate::changing::{NoChange, is_promised};
use crate::going_on::with_own;
use crate::left::channels_left;
use crate::listing::{rows_changed, rows_of};
use crate::recolouring::recolour;
use bx_base::{Booking, Bookings, ChannelSet, Plan};
use bx_channels::Channel;
use bx_day::{CannotGoOn, Entry, Exchange};
use std::alloc::{AllocError, Global};

/// The channel of a booking that is promised.
fn promised_channel(entry: &Entry) -> Option<Channel>
    requires { Seated entry.now }
    ensures { result ≡ promised_channel entry.now }
{
    if entry.standing.is_refused() {
        return None;
    }
    let Some(channel) = Channel::new(entry.channel) else {
        unreachable!()
    };
    Some(channel)
}

/// The same of each of these.
fn promised_channels(alloc: Global, entries: &[Entry]) -> Result<Vec<Option<Channel>>, AllocError>
    requires { AllByRecursion Seated entries.now }
    ensures { IfOk result (λ v. v.items ≡ map promised_channel entries.now) }
{
    let mut channels = Vec::new(alloc);
    for index in 0..entries.len() {
        let channel = promised_channel(&entries[index]);
        channels.push(channel)?;
    }
    Ok(channels)
}

/// Goes on with these bookings on these channels, which agree with the day. A refusal changes nothing.
fn go_on_still(
    alloc: Global,
    exchange: &mut Exchange,
    bookings: Bookings,
    assigned: Vec<Option<Channel>>,
) -> Result<(), NoChange>
    requires count { length assigned.items ≡ length bookings }
    requires agrees { AgreesWith exchange.old bookings assigned.items }
    requires apart { AreRowsApart bookings assigned.items }
    ensures gone_on { OnOk result (GoesOnStill bookings assigned.items exchange.old exchange.new) }
    ensures kept { OnErr result (exchange.new ≡ exchange.old) }
    ensures booking { ¬ (result ≡ Err NoChange.NoBooking) }
    ensures late { ¬ (result ≡ Err NoChange.Late) }
    ensures room { ¬ (result ≡ Err NoChange.NoChannel) }
{
    let service = with_own(ChannelSet::empty(), &assigned);
    // Read for the prover alone, which learns a limit from it.
    let _rows = bookings.len();
    let Some(plan) = Plan::new(bookings, service, assigned, Vec::new(alloc), 0) else {
        unreachable!()
    };
    match exchange.go_on(alloc, &plan) {
        Ok(()) => Ok(()),
        Err(CannotGoOn::OtherPlan) => unreachable!(),
        Err(CannotGoOn::Memory) => Err(NoChange::Memory),
    }
}

/// Whether the booking in this place waits, and its channel is in maintenance.
pub fn is_stranded(exchange: &Exchange, place: usize) -> bool
    requires { place < length exchange.now.entries }
    ensures { IsTrue result ↔ IsStranded exchange.now place }
{
    // Read for the prover alone, which learns from it what is true of a day.
    let _moment = exchange.moment();
    let entry = &exchange.entries()[place];
    match Channel::new(entry.channel) {
        Some(channel) => entry.standing.is_waiting() && exchange.in_maintenance(channel),
        None => false,
    }
}

/// Whether some booking waits on a channel that is in maintenance.
pub fn is_any_stranded(exchange: &Exchange) -> bool
    ensures { IsTrue result ↔ IsAnyStranded exchange.now }
{
    for place in 0..exchange.entries().len() {
        if is_stranded(exchange, place) {
            return true;
        }
    }
    false
}

/// The same booking, which starts with the next second, and has a second of it at least.
pub fn next_start(moment: u32, booking: Booking) -> Booking
    requires { moment + 1 < booking.end }
    ensures { result ≡ next_start moment booking }
{
    let Some(next) = Booking::new(moment + 1, booking.end(), booking.pay(), booking.number()) else {
        unreachable!()
    };
    let next = if booking.is_must() {
        next.as_must()
    } else {
        next
    };
    if booking.is_inward() {
        next.as_inward()
    } else {
        next
    }
}

/// Whether this is the booking, which starts with the next second.
fn is_next_start(moment: u32, booking: Booking, other: Booking) -> bool
    requires { moment < 4294967295 }
    ensures { IsTrue result ↔ (other ≡ next_start moment booking) }
{
    other.start() == moment + 1
        && other.end() == booking.end()
        && other.pay() == booking.pay()
        && other.number() == booking.number()
        && other.is_must() == booking.is_must()
        && other.is_inward() == booking.is_inward()
}

/// Lets the promised booking of a row start with the next second, which waits on a channel that is in maintenance though its start has come: it is this
/// one from now on. It keeps its channel, as all others do, until all leave it that can (`leave`). `NoBooking` is tested first, then `Late`, where it may
/// not become that. A refusal changes nothing.
pub fn delay(
    alloc: Global,
    exchange: &mut Exchange,
    row: u16,
    booking: Booking,
) -> Result<(), NoChange>
    ensures delayed { OnOk result (IsDelayed row booking exchange.old exchange.new) }
    ensures kept { OnErr result (exchange.new ≡ exchange.old) }
    ensures none { (result ≡ Err NoChange.NoBooking) ↔ (¬ IsPromised exchange.old.entries row) }
    ensures late { (result ≡ Err NoChange.Late) ↔ MayNotBeDelayed exchange.old row booking }
    ensures room { ¬ (result ≡ Err NoChange.NoChannel) }
{
    let moment = exchange.moment();
    if !is_promised(exchange.entries(), row) {
        return Err(NoChange::NoBooking);
    }
    let place = row as usize - 1;
    let before = exchange.entries()[place].booking;
    if !is_stranded(exchange, place) || before.start() > moment {
        return Err(NoChange::Late);
    }
    if !is_next_start(moment, before, booking) {
        return Err(NoChange::Late);
    }
    let Ok(bookings) = rows_changed(alloc, exchange.entries(), place, booking) else {
        return Err(NoChange::Memory);
    };
    let Ok(assigned) = promised_channels(alloc, exchange.entries()) else {
        return Err(NoChange::Memory);
    };
    go_on_still(alloc, exchange, bookings, assigned)
}

/// Gives up the promised booking of a row whose start is to come, since the channels that are left do not carry all that is promised: it may be done
/// while some booking waits on a channel that is in maintenance. All others keep their channels, until all leave it that can (`leave`). `NoBooking` is
/// tested first, then `Late`, where it may not be given up so. A refusal changes nothing.
pub fn give_up(alloc: Global, exchange: &mut Exchange, row: u16) -> Result<(), NoChange>
    ensures dropped { OnOk result (IsDropped row exchange.old exchange.new) }
    ensures kept { OnErr result (exchange.new ≡ exchange.old) }
    ensures none { (result ≡ Err NoChange.NoBooking) ↔ (¬ IsPromised exchange.old.entries row) }
    ensures late { (result ≡ Err NoChange.Late) ↔ MayNotBeDropped exchange.old row }
    ensures room { ¬ (result ≡ Err NoChange.NoChannel) }
{
    let moment = exchange.moment();
    if !is_promised(exchange.entries(), row) {
        return Err(NoChange::NoBooking);
    }
    let place = row as usize - 1;
    if exchange.entries()[place].booking.start() <= moment || !is_any_stranded(exchange) {
        return Err(NoChange::Late);
    }
    let Ok(bookings) = rows_of(alloc, exchange.entries()) else {
        return Err(NoChange::Memory);
    };
    let Ok(mut assigned) = promised_channels(alloc, exchange.entries()) else {
        return Err(NoChange::Memory);
    };
    assigned[place] = None;
    go_on_still(alloc, exchange, bookings, assigned)
}

/// Leaves a channel of the plan that is in maintenance: all that waits for a start to come is coloured anew, first fit on the channels that are left, beside
/// what has begun, which keeps its channel. `NoBooking` where the channel is none of these, or not in maintenance; `NoChannel` just where at some moment more
/// want a channel that is left than there are of them. A refusal changes nothing.
pub fn leave(
    alloc: Global,
    exchange: &mut Exchange,
    channels: ChannelSet,
    channel: Channel,
) -> Result<(), NoChange>
    ensures left { OnOk result (IsChannelLeft channels channel exchange.old exchange.new) }
    ensures kept { OnErr result (exchange.new ≡ exchange.old) }
    ensures none { (result ≡ Err NoChange.NoBooking) ↔ (¬ IsChannelLost channels exchange.old channel) }
    ensures no_channel { result ≡ Err NoChange.NoChannel → ¬ FitsOnLeft channels exchange.old }
    ensures late { ¬ (result ≡ Err NoChange.Late) }
{
    if !channels.has(channel) || !exchange.in_maintenance(channel) {
        return Err(NoChange::NoBooking);
    }
    let left = channels_left(exchange, channels);
    recolour(alloc, exchange, left)
}
