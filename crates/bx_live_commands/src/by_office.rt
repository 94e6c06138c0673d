//! The rest of a day, run by the clock over a data link, with a booking office beside it.

ghost use Rattle.std.specs.Prelude.{◌≡◌, true, is_some, IfOk, OnErr};
ghost use Rattle.bx_live_commands.specs.OfficeRuns.{SellsByLine, StopsSelling};

use crate::by_line::Told;
use crate::door_watch::DoorWatch;
use crate::live_end::LiveEnd;
use crate::plan_file::PlanWatched;
use bx_base::ChannelSet;
use bx_calendar::{Clock as DayClock, Day};
use bx_journal::Disk;
use bx_journal_files::Resumed;
use bx_line_world::{Line, LineWorld, Wire};
use bx_live::{CannotLog, Schedule};
use bx_market::run_market;
use bx_office_door::{Lends, OfficeWire};
use bx_office_world::{Ledger, Office, OfficeWorld, Opened};
use bx_world::Telling;
use std::fs::Files;
use std::rt::Clock;

/// What a booking office is opened with: its door, which the wire has too, and who tells of it, the channels in service, the day, and the least
/// pay of each started minute of what is sold, where 0 is none.
#[derive(Drop)]
pub struct Premises<S> {
    pub door: S,
    pub beside: S,
    pub watched: S,
    pub channels: ChannelSet,
    pub day: Day,
    pub rate: u32,
}

/// What an office is opened with on a day that is run to this second, at this rate: what starts later, or pays less, is not sold.
fn opened_until(
    turns: u32,
    rate: u32,
    channels: ChannelSet,
    day: Day,
    clock: Option<DayClock>,
) -> Opened
    ensures { (result.last ≡ turns) × (result.rate ≡ rate) × (result.channels ≡ channels) × (result.day ≡ day) × (result.clock ≡ clock) }
{
    Opened {
        channels,
        day,
        last: turns,
        rate,
        clock,
    }
}

/// Runs the rest of a day as `run_by_clock` does, and between two seconds answers who stands at the door: what is sold, given up or
/// changed is logged, and on the disk, before its customer is told, and what starts after the last of these turns is not sold. Answers the exchange at
/// the end of the day, with all of that, and how bookings were given up. `CannotLog` where something cannot be logged, since the journal's
/// disk has failed: nothing more is done or told then.
pub fn run_with_office<
    'a,
    'h,
    H: Clock + Files + Eprint + AllocGlobal,
    W: Wire + Drop,
    D: Disk + Drop,
    S: Lends + Drop,
>(
    rt: &'h H,
    resumed: Resumed<D>,
    wire: W,
    schedule: Schedule,
    turns: u32,
    told: Told<'a>,
    premises: Premises<S>,
) -> Result<LiveEnd, CannotLog>
    ensures failed { OnErr result (is_some resumed.log.disk ≡ true) }
    ensures stopped { OnErr result
        (StopsSelling W.did S.lent D.holds D.may_leave D.moment D.left_since D.has_failed wire schedule resumed.log premises turns resumed.exchange) }
    ensures ran { IfOk result
        (λ end. SellsByLine W.did S.lent D.holds D.may_leave D.moment D.left_since D.has_failed wire schedule resumed.log premises turns resumed.exchange
        end.exchange resumed.given_up.items end.given_up.items) }
{
    let Resumed {
        mut exchange,
        tags,
        log,
        given_up,
    } = resumed;
    let ledger = Ledger::of(rt.alloc(), &exchange, &tags);
    let Premises {
        door,
        beside,
        watched,
        channels,
        day,
        rate,
    } = premises;
    let wire = OfficeWire::new(wire, beside);
    let line = Line::new(true, wire).going_on(exchange.moment());
    let world = LineWorld::new(schedule, line, log);
    let clock = told.clock();
    let telling = Telling::new(rt, world, clock, told.is_shown);
    let opened = opened_until(turns, rate, channels, day, clock);
    let mut market = OfficeWorld {
        world: PlanWatched {
            world: telling,
            rt,
            plan: Some(told.plan),
            door: Some(DoorWatch::new(watched)),
            is_shown: told.is_shown,
        },
        office: Office::new(rt.alloc(), door, &opened, ledger, given_up),
    };
    let done = run_market(rt.alloc(), &mut exchange, &mut market, channels, turns);
    market.world.world.clear();
    done?;
    Ok(LiveEnd {
        exchange,
        given_up: market.office.into_given_up(),
    })
}
