//! The rest of a day, run by the clock over a data link.

ghost use Rattle.std.specs.Prelude.{◌≡◌, true, is_some, IfOk, IfSome, OnErr};
ghost use Rattle.bx_calendar.specs.Clocks.{IsClock};
ghost use Rattle.bx_live_commands.specs.LiveRuns.{RunsByLine, StopsByLine};

use crate::door_watch::DoorWatch;
use crate::live_end::LiveEnd;
use crate::plan_file::{PlanFile, PlanWatched};
use crate::unattended::Unattended;
use bx_base::ChannelSet;
use bx_calendar::Clock as DayClock;
use bx_journal::Disk;
use bx_journal_files::Resumed;
use bx_line_world::{Line, LineWorld, Wire};
use bx_live::{CannotLog, Schedule};
use bx_market::run_market;
use bx_office_door::SharedDoor;
use bx_world::Telling;
use std::fs::Files;
use std::rt::Clock;

/// What is told of a live day while it runs: each fault with the time of day, where this date and this zone name one, that its plan was
/// changed, and the moment, where it is shown.
#[derive(Clone, Copy)]
pub struct Told<'a> {
    pub day: (&'a str, &'a str),
    pub plan: PlanFile<'a>,
    pub is_shown: bool,
}

impl<'a> Told<'a> {
    /// The clock of the day, if the date and the zone name one.
    pub(crate) fn clock(self) -> Option<DayClock>
        ensures { IfSome result (IsClock self.entry.day.0.now self.entry.day.1.now) }
    {
        let (date, zone) = self.day;
        DayClock::new(date, zone).ok()
    }
}

/// Runs the rest of a day up to a turn of it, and after that on while a call is up, by the clock, as the network's end of a data link
/// over the wire. Where one of these channels is lost, what waits on it moves to those that are left, and what these do not carry is given
/// up; all of that is logged. Answers the exchange at the end of the day, and how bookings were given up. `CannotLog` where something
/// cannot be logged, since the journal's disk has failed: nothing more is done then.
pub fn run_by_clock<
    'a,
    'h,
    H: Clock + Files + Eprint + AllocGlobal,
    W: Wire + Drop,
    D: Disk + Drop,
>(
    rt: &'h H,
    resumed: Resumed<D>,
    wire: W,
    schedule: Schedule,
    channels: ChannelSet,
    turns: u32,
    told: Told<'a>,
) -> Result<LiveEnd, CannotLog>
    ensures failed { OnErr result (is_some resumed.log.disk ≡ true) }
    ensures stopped { OnErr result
        (StopsByLine W.did D.holds D.may_leave D.moment D.left_since D.has_failed wire schedule resumed.log channels turns resumed.exchange) }
    ensures ran { IfOk result
        (λ end. RunsByLine W.did D.holds D.may_leave D.moment D.left_since D.has_failed wire schedule resumed.log channels turns resumed.exchange
        end.exchange resumed.given_up.items end.given_up.items) }
{
    let Resumed {
        mut exchange,
        log,
        given_up,
        ..
    } = resumed;
    let line = Line::new(true, wire).going_on(exchange.moment());
    let world = LineWorld::new(schedule, line, log);
    let telling = Telling::new(rt, world, told.clock(), told.is_shown);
    let mut market = Unattended {
        world: PlanWatched {
            world: telling,
            rt,
            plan: Some(told.plan),
            door: None::<DoorWatch<SharedDoor>>,
            is_shown: told.is_shown,
        },
        given_up,
    };
    let done = run_market(rt.alloc(), &mut exchange, &mut market, channels, turns);
    market.world.world.clear();
    done?;
    Ok(LiveEnd {
        exchange,
        given_up: market.given_up,
    })
}
