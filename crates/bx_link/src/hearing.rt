//! The exchange's half of a turn.

ghost use Rattle.std.specs.Prelude.{◌≡◌};
ghost use Rattle.bx_link.specs.Runs.{Hearing, Between};
ghost use Rattle.bx_link.specs.Running.{FarRuns};
ghost use Rattle.bx_link.specs.Inside.{or_losing};

use crate::turn::answer;
use bx_far::Far;
use bx_frames::{Frame, LinkFault, MAX_MESSAGES};
use bx_live::World;

/// Hears the messages of a turn up to its end, and answers each before more is read.
pub(crate) fn hear_turn<W: World>(far: &mut Far, world: &mut W) -> Result<(), LinkFault>
    ensures ran { FarRuns W.did world.old world.new (Hearing far.old MAX_MESSAGES) (or_losing (Between far.new) far.new result) }
    ensures moment { far.new.moment ≡ far.old.moment }
{
    let moment = far.moment();
    let mut room = MAX_MESSAGES;
    loop {
        match world.read(room)? {
            Frame::Message(octets) => {
                room -= 1;
                answer(far, world, &octets)?;
            }
            Frame::EndOfTurn(said) => {
                return if said == moment {
                    Ok(())
                } else {
                    Err(LinkFault::WrongMoment)
                };
            }
            Frame::EndOfDay => return Err(LinkFault::UnknownKind),
        }
    }
}
