//! The far end's half of a turn, and its answer to a message.

ghost use Rattle.std.specs.Prelude.{◌≡◌};
ghost use Rattle.bx_events.specs.Events.{Tick, Receive};
ghost use Rattle.bx_frames.specs.declared.turn.TheConstants.{MAX_MESSAGES};
ghost use Rattle.bx_far.specs.Course.{far_line_next, far_line_text};
ghost use Rattle.bx_link.specs.Runs.{Owing, Hearing};
ghost use Rattle.bx_link.specs.Running.{FarRuns};
ghost use Rattle.bx_link.specs.Inside.{or_losing, AnswersInRun};

use bx_far::Far;
use bx_frames::{End, LinkFault};
use bx_live::World;
use bx_q931::Octets;

/// The next second, and what is sent in it.
pub(crate) fn open_turn<W: World>(far: &mut Far, world: &mut W) -> Result<(), LinkFault>
    ensures ran { FarRuns W.did world.old world.new (Owing (far_line_next far.old Tick) MAX_MESSAGES (far_line_text far.old Tick))
        (or_losing (Hearing far.new MAX_MESSAGES) far.new result) }
    ensures day { far.new ≡ far_line_next far.old Tick }
{
    let sent = End::<Far>::next_second(far);
    match world.write_turn(sent.as_slice(), far.moment()) {
        Ok(()) => Ok(()),
        Err(_) => Err(LinkFault::WriteFailed),
    }
}

/// A message that came, and the reply to it.
pub(crate) fn answer<W: World>(
    far: &mut Far,
    world: &mut W,
    message: &Octets,
) -> Result<(), LinkFault>
    ensures ran { AnswersInRun W.did world.old world.new far.old (Receive message.now.items) far.new result }
    ensures day { far.new ≡ far_line_next far.old (Receive message.now.items) }
{
    match far.receive_live(message.as_slice()) {
        Some(reply) => match world.write_message(&reply) {
            Ok(()) => Ok(()),
            Err(_) => Err(LinkFault::WriteFailed),
        },
        None => Ok(()),
    }
}
