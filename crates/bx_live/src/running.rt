//! A live day, second by second.

ghost use Rattle.std.specs.Prelude.{◌≡◌, ℕ, ◌≤◌, min, max, Ok, OnOk};
ghost use Rattle.bx_events.specs.Events.{Tick, OnLink, WithoutLink};
ghost use Rattle.bx_events.specs.declared.rules.Rules.TheVariants.{Three};
ghost use Rattle.bx_frames.specs.declared.turn.TheConstants.{MAX_MESSAGES};
ghost use Rattle.bx_day.specs.Day.{Day};
ghost use Rattle.bx_live.specs.Runs.{Logging, Hearing, Between, Closing, Done, Losing};
ghost use Rattle.bx_live.specs.Running.{RunsInside, or_over};
ghost use Rattle.bx_live.specs.declared.running.Second.TheVariants.{Ended};
ghost use Rattle.bx_live.specs.Seconds.{after_second, RisesBySecond, IsSecondRun, RunsUpTo};
ghost use Rattle.bx_live.specs.Inside.{or_stopped, RisesByTurn};

use crate::hearing::hear_turn;
use crate::turn::{Stop, open_turn};
use crate::world::{Begin, CannotLog, Loss, World};
use bx_day::Exchange;
use bx_events::{LAST_MOMENT, LiveEvent, Rules};

/// How a second that was waited for is over.
#[derive(Clone, Copy, Debug, PartialEq, Eq)]
pub enum Second {
    /// It has passed.
    Passed,
    /// It does not begin: the day is over before it.
    Ended,
}

/// The next second, as one without a link.
fn pass_without_link<W: World>(exchange: &mut Exchange, world: &mut W) -> Result<Second, CannotLog>
    ensures ran { RunsInside W.did world.old world.new (Logging exchange.old 0 (WithoutLink Three)) (after_second exchange.new result) }
    ensures moment { RisesBySecond exchange.old exchange.new result }
    ensures passes { ¬ (result ≡ Ok Ended) }
{
    world.log(LiveEvent::WithoutLink(Rules::Three))?;
    exchange.second_without_link(Rules::Three);
    Ok(Second::Passed)
}

/// Both halves of a turn.
fn run_turn<W: World>(exchange: &mut Exchange, world: &mut W) -> Result<(), Stop>
    ensures ran { RunsInside W.did world.old world.new (Logging exchange.old MAX_MESSAGES (OnLink Tick))
        (or_stopped (Between exchange.new) exchange.new result) }
    ensures moment { RisesByTurn exchange.old exchange.new result }
{
    open_turn(exchange, world)?;
    hear_turn(exchange, world)
}

/// The next second with a peer. A fault of the link drops it.
fn pass_with_peer<W: World>(exchange: &mut Exchange, world: &mut W) -> Result<Second, CannotLog>
    ensures ran { RunsInside W.did world.old world.new (Logging exchange.old MAX_MESSAGES (OnLink Tick)) (after_second exchange.new result) }
    ensures moment { RisesBySecond exchange.old exchange.new result }
    ensures passes { ¬ (result ≡ Ok Ended) }
{
    match run_turn(exchange, world) {
        Ok(()) => Ok(Second::Passed),
        Err(Stop::Link(fault)) => {
            world.drop_peer(Loss::Fault(fault));
            Ok(Second::Passed)
        }
        Err(Stop::Log) => Err(CannotLog),
    }
}

/// The next second, where one begins, and no other: it is waited for, and what happens in it is logged before it happens, and on the
/// disk before messages are written for it. At a fault of the link the peer is dropped. At `CannotLog` nothing more is to be done.
pub fn run_second<W: World>(exchange: &mut Exchange, world: &mut W) -> Result<Second, CannotLog>
    ensures ran { IsSecondRun W.did world.old world.new exchange.old exchange.new result }
    ensures moment { RisesBySecond exchange.old exchange.new result }
{
    match world.begin(exchange.moment() + 1) {
        Begin::Joined => pass_with_peer(exchange, world),
        Begin::Alone => pass_without_link(exchange, world),
        Begin::Late => {
            world.drop_peer(Loss::Late);
            pass_without_link(exchange, world)
        }
        Begin::Ended => Ok(Second::Ended),
    }
}

/// The end of a day: all of it is on the disk, then the peer is told.
pub fn close_day<W: World>(world: &mut W) -> Result<(), CannotLog>
    ensures at_last { (d : Day) → RunsInside W.did world.old world.new (Between d) (or_over (Done d) d result) }
    ensures at_ended { (d : Day) → RunsInside W.did world.old world.new (Closing d) (or_over (Done d) d result) }
{
    world.sync()?;
    world.end_day();
    Ok(())
}

/// Runs the day up to a second of it, or to `LAST_MOMENT` where that is earlier, or until the world says that it is over. Each
/// second is waited for. In one with a peer each event is logged before it happens, and on the disk before messages are written
/// for it. At a fault of the link the peer is dropped, and the day goes on. At its end all of it is on the disk. At `CannotLog`,
/// where something could not be logged or synced, nothing more is done.
pub fn run_live<W: World>(
    exchange: &mut Exchange,
    world: &mut W,
    last: u32,
) -> Result<(), CannotLog>
    ensures ran { RunsUpTo W.did world.old world.new last exchange.old exchange.new result }
    ensures whole { OnOk result (exchange.new.moment ≤ max exchange.old.moment (min last LAST_MOMENT)) }
{
    let end = last.min(LAST_MOMENT);
    for _second in exchange.moment()..end {
        match run_second(exchange, world)? {
            Second::Passed => {}
            Second::Ended => return close_day(world),
        }
    }
    close_day(world)
}
