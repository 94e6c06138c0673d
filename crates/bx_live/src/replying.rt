//! Messages that came together, and the replies to them: each message is logged before it happens, and one sync brings all of them to
//! the disk before the replies are written.

ghost use Rattle.std.specs.Prelude.{◌≡◌, ◌≤◌, ◌<◌, ◌+◌, [], ℕ, IfOk, length};
ghost use Rattle.bx_day.specs.Day.{Day};
ghost use Rattle.bx_live.specs.Runs.{Receiving, Hearing, writing};
ghost use Rattle.bx_live.specs.Running.{RunsInside};
ghost use Rattle.bx_live.specs.Inside.{or_lost, texts_of, heard_with, HearsOne, HearsFrom, WritesReplies};

use crate::turn::Stop;
use crate::world::{CannotLog, World};
use arrayvec::ArrayVec;
use bx_day::Exchange;
use bx_devices::WriteFailed;
use bx_events::{Event, LiveEvent};
use bx_frames::{End, MAX_MESSAGES};
use bx_q931::Octets;

/// The most replies that are owed: one to each message of a turn.
const MAX_REPLIES: usize = MAX_MESSAGES as usize;

/// Replies that are owed, in the order of the messages that came.
type Replies = ArrayVec<Octets, MAX_REPLIES>;

/// A message that came: it is logged, and happens. What is replied to it is owed.
fn hear<W: World>(
    exchange: &mut Exchange,
    world: &mut W,
    message: &Octets,
    replies: &mut Replies,
) -> Result<(), CannotLog>
    requires { length replies.old.items < MAX_MESSAGES }
    ensures ran { HearsOne W.did world.old world.new exchange.old replies.old.items message.now.items exchange.new replies.new.items result }
    ensures moment { exchange.new.moment ≡ exchange.old.moment }
    ensures few { length replies.new.items ≤ length replies.old.items + 1 }
{
    world.log(LiveEvent::OnLink(Event::Receive(message.as_slice())))?;
    match End::<Exchange>::hear(exchange, message) {
        Some(reply) => {
            replies.push(reply);
            Ok(())
        }
        None => Ok(()),
    }
}

/// Hears a message, and once a reply is owed what is there already after it. Answers how many messages may still come in the turn.
fn gather<W: World>(
    exchange: &mut Exchange,
    world: &mut W,
    first: &Octets,
    room: u32,
    replies: &mut Replies,
) -> Result<u32, CannotLog>
    requires room { room < MAX_MESSAGES }
    requires none { replies.old.items ≡ [] }
    ensures ran { HearsFrom W.did world.old world.new exchange.old room first.now.items exchange.new replies.new.items result }
    ensures moment { exchange.new.moment ≡ exchange.old.moment }
    ensures fewer { IfOk result (λ left. left ≤ room) }
{
    hear(exchange, world, first, replies)?;
    let mut left = room;
    while left > 0 && !replies.is_empty() {
        let Some(message) = world.take_waiting() else {
            return Ok(left);
        };
        left -= 1;
        hear(exchange, world, &message, replies)?;
    }
    Ok(left)
}

/// Writes replies, one after another.
fn write_all<W: World>(world: &mut W, replies: &[Octets]) -> Result<(), WriteFailed>
    ensures { (d : Day) (room : ℕ) → RunsInside W.did world.old world.new (writing d room (texts_of replies.now)) (or_lost (Hearing d room) d result) }
{
    for reply in replies {
        world.write_message(reply)?;
    }
    Ok(())
}

/// Writes the replies that are owed, after one sync.
fn write_replies<W: World>(world: &mut W, replies: &[Octets]) -> Result<(), Stop>
    ensures { WritesReplies W.did world.old world.new replies.now result }
{
    if replies.is_empty() {
        return Ok(());
    }
    world.sync()?;
    write_all(world, replies)?;
    Ok(())
}

/// Hears a message with those after it that are there already, and writes what is replied to them. Answers how many messages may still
/// come in the turn.
pub(crate) fn hear_together<W: World>(
    exchange: &mut Exchange,
    world: &mut W,
    first: &Octets,
    room: u32,
) -> Result<u32, Stop>
    requires { room < MAX_MESSAGES }
    ensures ran { RunsInside W.did world.old world.new (Receiving exchange.old room [] first.now.items) (heard_with exchange.new result) }
    ensures moment { exchange.new.moment ≡ exchange.old.moment }
    ensures fewer { IfOk result (λ left. left ≤ room) }
{
    let mut replies = Replies::new();
    let left = gather(exchange, world, first, room, &mut replies)?;
    write_replies(world, replies.as_slice())?;
    Ok(left)
}
