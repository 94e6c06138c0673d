//! A day that goes on with other bookings: what has begun keeps its channel, and all else is coloured first fit beside it.

ghost use Rattle.std.specs.Prelude.{◌≡◌, ◌<◌, ℕ, true, None, Some, slice_index_or, map, length, IfOk, OnOk, OnErr, Err};
ghost use Rattle.std.specs.List.{AllByRecursion};
ghost use Rattle.bx_base.specs.Channels.{has_channel};
ghost use Rattle.bx_colour.specs.ChangedRows.{AreChoicesIn, HasNoFirstFit};
ghost use Rattle.bx_day.specs.Changed.{AreReferredByRow};
ghost use Rattle.bx_day.specs.Reading.{Seated};
ghost use Rattle.bx_sales.specs.GoingOn.{is_to_come, own_at, own_of, KeepsBegun, GoesOnBeside, FitsBeside};

use bx_base::{Bookings, ChannelSet, Plan};
use bx_channels::Channel;
use bx_colour::{NoColouring, colour_beside};
use bx_day::{CannotGoOn, Entry, Exchange, Standing};
use std::alloc::{AllocError, Global};

/// Why a day does not go on with other bookings.
pub(crate) enum NotGoneOn {
    /// They do not fit on the channels beside what has begun.
    NoChannel,
    /// The day took over from another, and there are more bookings than it has.
    TookOver,
    /// Memory ran out.
    Memory,
}

/// Whether it waits for a start that is yet to come, or is refused.
fn is_to_come(entry: &Entry, moment: u32) -> bool
    ensures { result ≡ is_to_come moment entry.now }
{
    match entry.standing {
        Standing::Unoffered => moment < entry.booking.start(),
        Standing::Refused => true,
        _ => false,
    }
}

/// The channel that a booking keeps, where it has begun.
fn own_at(entry: &Entry, moment: u32) -> Option<Channel>
    requires { Seated entry.now }
    ensures { result ≡ own_at moment entry.now }
{
    if is_to_come(entry, moment) {
        return None;
    }
    let Some(channel) = Channel::new(entry.channel) else {
        unreachable!()
    };
    Some(channel)
}

/// The same of each of these.
fn own_of(alloc: Global, entries: &[Entry], moment: u32) -> Result<Vec<Option<Channel>>, AllocError>
    requires { AllByRecursion Seated entries.now }
    ensures { IfOk result (λ v. v.items ≡ map (own_at moment) entries.now) }
{
    let mut own = Vec::new(alloc);
    for index in 0..entries.len() {
        let channel = own_at(&entries[index], moment);
        own.push(channel)?;
    }
    Ok(own)
}

/// These channels, and those that are kept.
pub(crate) fn with_own(channels: ChannelSet, own: &[Option<Channel>]) -> ChannelSet
    ensures choices { AreChoicesIn result own.now channels }
    ensures own { (i c : ℕ) → slice_index_or own.now i None ≡ Some c → has_channel result c ≡ true }
{
    let mut service = channels;
    for index in 0..own.len() {
        if let Some(channel) = own[index] {
            service = service.with(channel);
        }
    }
    service
}

/// Goes on with these bookings, of which the marked ones are accepted: what has begun keeps its channel, and all others are coloured first fit on these
/// channels beside it. A refusal changes nothing.
pub(crate) fn go_on_beside(
    alloc: Global,
    exchange: &mut Exchange,
    channels: ChannelSet,
    bookings: Bookings,
    marks: &[bool],
) -> Result<(), NotGoneOn>
    requires count { length marks.now ≡ length bookings }
    requires keeps { KeepsBegun exchange.old bookings marks.now }
    ensures gone_on { OnOk result (GoesOnBeside channels bookings marks.now exchange.old exchange.new) }
    ensures kept { OnErr result (exchange.new ≡ exchange.old) }
    ensures fitting { OnOk result (FitsBeside channels exchange.old bookings marks.now) }
    ensures no_channel { result ≡ Err NotGoneOn.NoChannel → ¬ FitsBeside channels exchange.old bookings marks.now }
    ensures none { result ≡ Err NotGoneOn.NoChannel → HasNoFirstFit bookings (own_of exchange.old) channels marks.now }
    ensures more { result ≡ Err NotGoneOn.TookOver → length exchange.old.entries < length bookings }
    ensures took_over { result ≡ Err NotGoneOn.TookOver → ¬ AreReferredByRow exchange.old.entries }
{
    let moment = exchange.moment();
    let Ok(own) = own_of(alloc, exchange.entries(), moment) else {
        return Err(NotGoneOn::Memory);
    };
    let service = with_own(channels, &own);
    // Read for the prover alone, which learns a limit from it.
    let _rows = bookings.len();
    let assigned = match colour_beside(alloc, &bookings, marks, &own, channels) {
        Ok(assigned) => assigned,
        Err(NoColouring::NoChannel) => return Err(NotGoneOn::NoChannel),
        Err(NoColouring::Memory) => return Err(NotGoneOn::Memory),
    };
    let Some(plan) = Plan::new(bookings, service, assigned, Vec::new(alloc), 0) else {
        unreachable!()
    };
    match exchange.go_on(alloc, &plan) {
        Ok(()) => Ok(()),
        Err(CannotGoOn::OtherPlan) => Err(NotGoneOn::TookOver),
        Err(CannotGoOn::Memory) => Err(NotGoneOn::Memory),
    }
}
