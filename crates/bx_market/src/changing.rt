//! A booking of the day that a customer gives up, or changes.

ghost use Rattle.std.specs.Prelude.{◌≡◌, Ok, Err, OnOk};
ghost use Rattle.bx_live.specs.Runs.{Between};
ghost use Rattle.bx_market.specs.declared.market.Request.TheVariants.{Cancel, Change};
ghost use Rattle.bx_market.specs.Stands.{Within, Changing};
ghost use Rattle.bx_market.specs.Offers.{OrOver, KeepsAny};

use crate::market::Market;
use bx_base::{Booking, ChannelSet};
use bx_day::Exchange;
use bx_events::{Amendment, LiveEvent};
use bx_live::CannotLog;
use bx_planfile::spell_booking;
use bx_sales::{cancel, cancel_line, change, change_line, channels_left};
use std::alloc::Global;

/// Puts a change that is done in the journal and brings it to the disk, and only then tells its customer.
fn keep<W: Market>(world: &mut W, kind: Amendment, line: &[u8]) -> Result<(), CannotLog>
    ensures { KeepsAny W.dealt world.old world.new kind line.now result }
{
    world.log(LiveEvent::Amended(kind, line))?;
    world.sync()?;
    world.answer_change(Ok(()));
    Ok(())
}

/// Gives up the booking of a row, where it is promised and its start is yet to come; or tells why that cannot be.
pub(crate) fn cancel_one<W: Market>(
    alloc: Global,
    exchange: &mut Exchange,
    world: &mut W,
    channels: ChannelSet,
    row: u16,
) -> Result<(), CannotLog>
    ensures cancelled { OrOver W.dealt channels world.old world.new (Changing exchange.old (Cancel row)) (Within (Between exchange.new)) result }
    ensures moment { OnOk result (exchange.new.moment ≡ exchange.old.moment) }
{
    let left = channels_left(exchange, channels);
    match cancel(alloc, exchange, left, row) {
        Ok(()) => keep(world, Amendment::Cancelled, &cancel_line(row)),
        Err(why) => {
            world.answer_change(Err(why));
            Ok(())
        }
    }
}

/// Makes of the booking of a row another one, where it may become that and fits; or tells why that cannot be.
pub(crate) fn change_one<W: Market>(
    alloc: Global,
    exchange: &mut Exchange,
    world: &mut W,
    channels: ChannelSet,
    row: u16,
    booking: Booking,
) -> Result<(), CannotLog>
    ensures changed { OrOver W.dealt channels world.old world.new (Changing exchange.old (Change row booking)) (Within (Between exchange.new)) result }
    ensures moment { OnOk result (exchange.new.moment ≡ exchange.old.moment) }
{
    let left = channels_left(exchange, channels);
    match change(alloc, exchange, left, row, booking) {
        Ok(()) => {
            let line = change_line(row, &spell_booking(booking));
            keep(world, Amendment::Changed, &line)
        }
        Err(why) => {
            world.answer_change(Err(why));
            Ok(())
        }
    }
}
