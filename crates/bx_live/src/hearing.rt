//! The peer's half of a turn.

ghost use Rattle.std.specs.Prelude.{◌≡◌, ℕ};
ghost use Rattle.bx_live.specs.Runs.{Hearing, Between};
ghost use Rattle.bx_live.specs.Running.{RunsInside};
ghost use Rattle.bx_live.specs.Inside.{or_stopped};

use crate::replying::hear_together;
use crate::turn::Stop;
use crate::world::World;
use bx_day::Exchange;
use bx_frames::{Frame, LinkFault, MAX_MESSAGES};

/// Hears the messages of a turn up to its end. What is replied to those that came together is written before more is waited for.
pub(crate) fn hear_turn<W: World>(exchange: &mut Exchange, world: &mut W) -> Result<(), Stop>
    ensures ran { RunsInside W.did world.old world.new (Hearing exchange.old MAX_MESSAGES) (or_stopped (Between exchange.new) exchange.new result) }
    ensures moment { exchange.new.moment ≡ exchange.old.moment }
{
    let mut room = MAX_MESSAGES;
    loop {
        match world.read(room) {
            Ok(Frame::Message(octets)) => {
                room = hear_together(exchange, world, &octets, room - 1)?;
            }
            Ok(Frame::EndOfTurn(said)) => {
                return if said == exchange.moment() {
                    Ok(())
                } else {
                    Err(Stop::Link(LinkFault::WrongMoment))
                };
            }
            Ok(Frame::EndOfDay) => return Err(Stop::Link(LinkFault::UnknownKind)),
            Err(fault) => return Err(Stop::Link(fault)),
        }
    }
}
