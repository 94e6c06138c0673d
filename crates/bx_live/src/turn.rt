//! The exchange's half of a turn: logged, happened, synced, written.

ghost use Rattle.std.specs.Prelude.{◌≡◌, ◌++◌, ◌∷◌};
ghost use Rattle.bx_events.specs.Events.{Tick, OnLink};
ghost use Rattle.bx_frames.specs.declared.turn.TheConstants.{MAX_MESSAGES};
ghost use Rattle.bx_live.specs.Runs.{Logging, Hearing};
ghost use Rattle.bx_live.specs.Running.{RunsInside};
ghost use Rattle.bx_live.specs.Inside.{or_stopped, RisesByTurn, SyncsBefore};

use crate::world::{CannotLog, World};
use bx_day::Exchange;
use bx_devices::WriteFailed;
use bx_events::{Event, LiveEvent};
use bx_frames::{End, LinkFault};
use bx_q931::Octets;

/// Why a turn is over before its end.
#[derive(Clone, Copy)]
pub(crate) enum Stop {
    Link(LinkFault),
    Log,
}

impl From<CannotLog> for Stop {
    ghost use Rattle.std.specs.Prelude.{◌≡◌};
    ghost use Rattle.bx_live.specs.declared.turn.Stop.TheVariants.{Log};

    ghost from_gives = { λ _ stop. stop ≡ Log };

    fn from(_e: CannotLog) -> Stop {
        Stop::Log
    }
}

impl From<WriteFailed> for Stop {
    ghost use Rattle.std.specs.Prelude.{◌≡◌};
    ghost use Rattle.bx_live.specs.declared.turn.Stop.TheVariants.{Link};
    ghost use Rattle.bx_frames.specs.declared.fault.LinkFault.TheVariants.{WriteFailed as Unwritten};

    ghost from_gives = { λ _ stop. stop ≡ Link Unwritten };

    fn from(_e: WriteFailed) -> Stop {
        Stop::Link(LinkFault::WriteFailed)
    }
}

/// What was logged is on the disk before messages are written.
fn sync_before<W: World>(world: &mut W, sent: &[Octets]) -> Result<(), CannotLog>
    ensures { SyncsBefore W.did world.old world.new sent.now result }
{
    if sent.is_empty() {
        return Ok(());
    }
    world.sync()
}

/// The next second, and what is sent in it.
pub(crate) fn open_turn<W: World>(exchange: &mut Exchange, world: &mut W) -> Result<(), Stop>
    ensures ran { RunsInside W.did world.old world.new (Logging exchange.old MAX_MESSAGES (OnLink Tick))
        (or_stopped (Hearing exchange.new MAX_MESSAGES) exchange.new result) }
    ensures moment { RisesByTurn exchange.old exchange.new result }
{
    world.log(LiveEvent::OnLink(Event::Tick))?;
    let sent = exchange.next_second();
    let messages = sent.as_slice();
    sync_before(world, messages)?;
    world.write_turn(messages, exchange.moment())?;
    Ok(())
}
