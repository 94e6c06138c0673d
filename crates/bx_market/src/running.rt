//! A live day with sales, second by second.

ghost use Rattle.std.specs.Prelude.{◌≡◌, OnOk};
ghost use Rattle.bx_live.specs.Runs.{Between};
ghost use Rattle.bx_market.specs.Stands.{Within, asked_for};
ghost use Rattle.bx_market.specs.Offers.{OrOver};
ghost use Rattle.bx_market.specs.SaleRuns.{IsSaleRun};

use crate::changing::{cancel_one, change_one};
use crate::leaving::leave_lost;
use crate::market::{Market, Request};
use crate::offering::offer_all;
use bx_base::ChannelSet;
use bx_day::Exchange;
use bx_events::LAST_MOMENT;
use bx_live::{CannotLog, Second, close_day, goes_on, run_second};
use std::alloc::Global;

/// The most requests that are taken between two seconds.
const MAX_REQUESTS: u32 = 16;

/// Does what a customer asks for, where that can be.
fn serve<W: Market>(
    alloc: Global,
    exchange: &mut Exchange,
    world: &mut W,
    channels: ChannelSet,
    request: Request,
) -> Result<(), CannotLog>
    ensures served { OrOver W.dealt channels world.old world.new (asked_for exchange.old request) (Within (Between exchange.new)) result }
    ensures moment { OnOk result (exchange.new.moment ≡ exchange.old.moment) }
{
    match request {
        Request::Sell(batch) => offer_all(alloc, exchange, world, channels, &batch),
        Request::Cancel(row) => cancel_one(alloc, exchange, world, channels, row),
        Request::Change(row, booking) => change_one(alloc, exchange, world, channels, row, booking),
    }
}

/// Shows the market the exchange and asks it once, and does what it asks for.
fn ask_once<W: Market>(
    alloc: Global,
    exchange: &mut Exchange,
    world: &mut W,
    channels: ChannelSet,
) -> Result<bool, CannotLog>
    ensures sold { OrOver W.dealt channels world.old world.new (Within (Between exchange.old)) (Within (Between exchange.new)) result }
    ensures moment { OnOk result (exchange.new.moment ≡ exchange.old.moment) }
{
    match world.ask(exchange) {
        Some(request) => {
            serve(alloc, exchange, world, channels, request)?;
            Ok(true)
        }
        None => Ok(false),
    }
}

/// Asks the market until nobody waits, or so many were served.
fn ask_all<W: Market>(
    alloc: Global,
    exchange: &mut Exchange,
    world: &mut W,
    channels: ChannelSet,
) -> Result<(), CannotLog>
    ensures sold { OrOver W.dealt channels world.old world.new (Within (Between exchange.old)) (Within (Between exchange.new)) result }
    ensures moment { OnOk result (exchange.new.moment ≡ exchange.old.moment) }
{
    for _request in 0..MAX_REQUESTS {
        let is_asked = ask_once(alloc, exchange, world, channels)?;
        if !is_asked {
            return Ok(());
        }
    }
    Ok(())
}

/// Runs the day up to a second of it, and after that on while a call is up, so that each call that is begun is cleared and can be billed: until none is up,
/// or up to `LAST_MOMENT`, or until the world says that it is over. Before each second the market is shown the exchange and asked what is
/// wanted, at most 16 times: of each batch the best choice is sold beside all that is promised (`laws::best_of_each_batch`), row by row, logged, brought
/// to the disk by one sync, and only then answered; a booking is given up, or changed, logged, brought to the disk, and only then answered. So the day is the one of the last plan over the logged events (`laws::day_of_the_last_plan`). At
/// `CannotLog` nothing more is done, and nothing is answered: the exchange is to be dropped, and the day that is logged is read again.
pub fn run_market<W: Market>(
    alloc: Global,
    exchange: &mut Exchange,
    world: &mut W,
    channels: ChannelSet,
    last: u32,
) -> Result<(), CannotLog>
    ensures { IsSaleRun W.dealt channels world.old world.new exchange.old exchange.new last result }
{
    for _second in exchange.moment()..LAST_MOMENT {
        leave_lost(alloc, exchange, world, channels)?;
        ask_all(alloc, exchange, world, channels)?;
        if !goes_on(exchange, last) {
            return close_day(world);
        }
        match run_second(exchange, world)? {
            Second::Passed => {}
            Second::Ended => return close_day(world),
        }
    }
    close_day(world)
}
