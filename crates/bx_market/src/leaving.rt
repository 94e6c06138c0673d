//! A channel that is lost: what is planned on it moves to those that are left, and what they do not carry is given up.

ghost use Rattle.std.specs.Prelude.{◌≡◌, ◌↔◌, ◌<◌, IsTrue, IfSome, IfNone, OnOk, Ok, true, length, ℕ};
ghost use Rattle.bx_day.specs.Day.{entry_at};
ghost use Rattle.bx_live.specs.Runs.{Between};
ghost use Rattle.bx_market.specs.Stands.{Within};
ghost use Rattle.bx_market.specs.Offers.{OrOver, LeavesAt, LeavesAny};
ghost use Rattle.bx_market.specs.Leaving.{IsToLeave, IsAnyToLeave};
ghost use Rattle.bx_market.specs.LeavingSteps.{IsBehind, IsWaitedOn, IsToBeLeft};
ghost use Rattle.bx_market.specs.Leaving.{IsBestKept};
ghost use Rattle.bx_market.specs.LeavingSteps.{AreSameBut, IsLaterEntry, IsGivenUpAt, IsNowKept, AreAhead, with_begun};
ghost use Rattle.bx_sales.specs.Left.{left_in_service};
ghost use Rattle.bx_sales.specs.Selling.{marks_of};

use crate::choosing::is_ahead;
use crate::keeping::keep_best;
use crate::market::Market;
use bx_base::ChannelSet;
use bx_channels::Channel;
use bx_day::Exchange;
use bx_events::{Amendment, LiveEvent};
use bx_live::CannotLog;
use bx_planfile::spell_booking;
use bx_sales::{
    cancel_line, change_line, channels_left, delay, give_up, is_stranded, leave, next_start,
    out_line,
};
use std::alloc::Global;

/// Whether a booking waits on a channel of the set that is lost, and more of it than the next second is left.
fn is_to_leave(exchange: &Exchange, channels: ChannelSet, place: usize) -> bool
    requires { place < length exchange.now.entries }
    ensures { IsTrue result ↔ IsToLeave channels exchange.now place }
{
    let moment = exchange.moment();
    let entry = &exchange.entries()[place];
    match Channel::new(entry.channel) {
        Some(channel) => {
            channels.has(channel)
                && is_stranded(exchange, place)
                && moment + 1 < entry.booking.end()
        }
        None => false,
    }
}

/// Whether there is such a booking.
fn is_any_to_leave(exchange: &Exchange, channels: ChannelSet) -> bool
    ensures { IsTrue result ↔ IsAnyToLeave channels exchange.now }
{
    for place in 0..exchange.entries().len() {
        if is_to_leave(exchange, channels, place) {
            return true;
        }
    }
    false
}

/// Lets a booking start with the next second that waits on a channel that is lost though its start has come, unless it ends by then; and puts that in the
/// journal. Whether memory was enough.
fn delay_one<W: Market>(
    alloc: Global,
    exchange: &mut Exchange,
    world: &mut W,
    channels: ChannelSet,
    place: usize,
) -> Result<bool, CannotLog>
    requires { place < length exchange.old.entries }
    ensures delayed { LeavesAny W.dealt world.old world.new exchange.old exchange.new result }
    ensures others { AreSameBut place exchange.old exchange.new }
    ensures later { IsLaterEntry (entry_at exchange.old.entries place) (entry_at exchange.new.entries place) }
    ensures done { result ≡ Ok true → ¬ IsBehind channels exchange.new place }
{
    let moment = exchange.moment();
    let booking = exchange.entries()[place].booking;
    if !is_to_leave(exchange, channels, place) || booking.start() > moment {
        return Ok(true);
    }
    let row = place as u16 + 1;
    let next = next_start(moment, booking);
    if delay(alloc, exchange, row, next).is_err() {
        return Ok(false);
    }
    let line = change_line(row, &spell_booking(next));
    world.log(LiveEvent::Amended(Amendment::Delayed, &line))?;
    Ok(true)
}

/// The same of each booking, until memory runs out.
fn delay_all<W: Market>(
    alloc: Global,
    exchange: &mut Exchange,
    world: &mut W,
    channels: ChannelSet,
) -> Result<bool, CannotLog>
    ensures delayed { LeavesAny W.dealt world.old world.new exchange.old exchange.new result }
    ensures moment { exchange.new.moment ≡ exchange.old.moment }
    ensures marks { marks_of exchange.new ≡ marks_of exchange.old }
    ensures done { result ≡ Ok true → (i : ℕ) → ¬ IsBehind channels exchange.new i }
{
    for place in 0..exchange.entries().len() {
        let is_done = delay_one(alloc, exchange, world, channels, place)?;
        if !is_done {
            return Ok(false);
        }
    }
    Ok(true)
}

/// Gives up a booking that is to come and is not kept, and puts that in the journal. Whether it could be.
fn drop_one<W: Market>(
    alloc: Global,
    exchange: &mut Exchange,
    world: &mut W,
    place: usize,
    is_kept: bool,
) -> Result<bool, CannotLog>
    requires { place < length exchange.old.entries }
    ensures dropped { LeavesAny W.dealt world.old world.new exchange.old exchange.new result }
    ensures others { AreSameBut place exchange.old exchange.new }
    ensures done { result ≡ Ok true → IsGivenUpAt place is_kept exchange.old exchange.new }
{
    let moment = exchange.moment();
    if is_kept || !is_ahead(&exchange.entries()[place], moment) {
        return Ok(true);
    }
    let row = place as u16 + 1;
    if give_up(alloc, exchange, row).is_err() {
        return Ok(false);
    }
    world.log(LiveEvent::Amended(Amendment::Dropped, &cancel_line(row)))?;
    Ok(true)
}

/// Gives up all that is to come and is not chosen, in the order of the rows, until memory runs out.
fn drop_all<W: Market>(
    alloc: Global,
    exchange: &mut Exchange,
    world: &mut W,
    chosen: &[bool],
) -> Result<bool, CannotLog>
    requires count { length chosen.now ≡ length exchange.old.entries }
    requires among { AreAhead exchange.old.moment exchange.old.entries chosen.now }
    ensures dropped { LeavesAny W.dealt world.old world.new exchange.old exchange.new result }
    ensures moment { exchange.new.moment ≡ exchange.old.moment }
    ensures done { result ≡ Ok true → IsNowKept (with_begun exchange.old.moment exchange.old.entries chosen.now) exchange.old exchange.new }
{
    for place in 0..chosen.len() {
        let is_done = drop_one(alloc, exchange, world, place, chosen[place])?;
        if !is_done {
            return Ok(false);
        }
    }
    Ok(true)
}

/// Whether a booking that is to come waits on this channel.
fn is_waited_on(exchange: &Exchange, channel: Channel) -> bool
    ensures { IsTrue result ↔ IsWaitedOn exchange.now channel }
{
    let moment = exchange.moment();
    for place in 0..exchange.entries().len() {
        let entry = &exchange.entries()[place];
        if is_ahead(entry, moment) && entry.channel == channel.number() {
            return true;
        }
    }
    false
}

/// Whether this is the number of a channel of the set that is lost, on which such a booking waits.
fn is_to_be_left(exchange: &Exchange, channels: ChannelSet, number: u8) -> bool
    ensures { IsTrue result ↔ IsToBeLeft channels exchange.now number }
{
    // Read for the prover alone, which learns from it what a set is.
    let _count = channels.count();
    match Channel::new(number) {
        Some(channel) => {
            channels.has(channel)
                && exchange.in_maintenance(channel)
                && is_waited_on(exchange, channel)
        }
        None => false,
    }
}

/// The lowest of these channels.
fn lowest_to_be_left(exchange: &Exchange, channels: ChannelSet) -> Option<Channel>
    ensures some { IfSome result (λ c. IsToBeLeft channels exchange.now c) }
    ensures lowest { IfSome result (λ c. (n : ℕ) → n < c → ¬ IsToBeLeft channels exchange.now n) }
    ensures none { IfNone result ((n : ℕ) → ¬ IsToBeLeft channels exchange.now n) }
{
    // Read for the prover alone, which learns from it what a set is.
    let _count = channels.count();
    for number in 0..32 {
        if is_to_be_left(exchange, channels, number) {
            return Channel::new(number);
        }
    }
    None
}

/// Moves all that is to come to the channels that are left, where some of it waits on a channel of the set that is lost, and puts the lowest such channel in
/// the journal. Whether it could be.
fn leave_one<W: Market>(
    alloc: Global,
    exchange: &mut Exchange,
    world: &mut W,
    channels: ChannelSet,
) -> Result<bool, CannotLog>
    ensures left { LeavesAt W.dealt channels world.old world.new exchange.old exchange.new result }
    ensures moment { exchange.new.moment ≡ exchange.old.moment }
    ensures kept { result ≡ Ok true → IsNowKept (marks_of exchange.old) exchange.old exchange.new }
    ensures done { result ≡ Ok true → (i : ℕ) → IsToLeave channels exchange.new i → IsBehind channels exchange.new i }
{
    // Read for the prover alone, which learns from it what a set is.
    let _count = channels.count();
    let Some(channel) = lowest_to_be_left(exchange, channels) else {
        return Ok(true);
    };
    if leave(alloc, exchange, channels, channel).is_err() {
        return Ok(false);
    }
    world.log(LiveEvent::Amended(Amendment::Out, &out_line(channel)))?;
    Ok(true)
}

/// Leaves the channels that are lost: what waits behind them starts with the next second; of what is to come that is given up which the channels left do
/// not carry beside what has begun, so that what is kept pays most; and all that is to come moves to the channels that are left. Whether all of it is done:
/// where memory runs out, what was done until then is in the journal.
fn leave_all<W: Market>(
    alloc: Global,
    exchange: &mut Exchange,
    world: &mut W,
    channels: ChannelSet,
) -> Result<bool, CannotLog>
    ensures left { LeavesAt W.dealt channels world.old world.new exchange.old exchange.new result }
    ensures moment { exchange.new.moment ≡ exchange.old.moment }
    ensures best { result ≡ Ok true → IsBestKept (left_in_service channels exchange.new) (marks_of exchange.old) exchange.new (marks_of exchange.new) }
{
    let is_delayed = delay_all(alloc, exchange, world, channels)?;
    if !is_delayed {
        return Ok(false);
    }
    let left = channels_left(exchange, channels);
    let Ok(chosen) = keep_best(alloc, exchange, left) else {
        return Ok(false);
    };
    let is_dropped = drop_all(alloc, exchange, world, &chosen)?;
    if !is_dropped {
        return Ok(false);
    }
    leave_one(alloc, exchange, world, channels)
}

/// Leaves the channels of the set that are lost, where something has to leave them. All that is done is on the disk before the world is told. Where memory
/// runs out, what was done until then is told, and the rest is for the next second.
pub(crate) fn leave_lost<W: Market>(
    alloc: Global,
    exchange: &mut Exchange,
    world: &mut W,
    channels: ChannelSet,
) -> Result<(), CannotLog>
    ensures left { OrOver W.dealt channels world.old world.new (Within (Between exchange.old)) (Within (Between exchange.new)) result }
    ensures moment { OnOk result (exchange.new.moment ≡ exchange.old.moment) }
{
    let left = channels_left(exchange, channels);
    if left.same(&channels) || !is_any_to_leave(exchange, channels) {
        return Ok(());
    }
    world.lost(exchange);
    let is_done = leave_all(alloc, exchange, world, channels)?;
    let is_whole = is_done && !is_any_to_leave(exchange, channels);
    world.sync()?;
    world.moved(exchange, is_whole);
    Ok(())
}
