//! The two halves of a turn: the messages that come, and the tick with what it sends.

ghost use Rattle.std.specs.Prelude.{◌≡◌, ◌++◌, ◌∷◌, [], Ok, false, true};
ghost use Rattle.std.specs.List.{flat_map};
ghost use Rattle.bx_events.specs.Events.{Tick, Receive};
ghost use Rattle.bx_frames.specs.Frames.{frame_with, turn_frame, is_far};
ghost use Rattle.bx_frames.specs.Heard.{HearsTurnKept};
ghost use Rattle.bx_frames.specs.Writing.{Sends};

use crate::end::{Course, End};
use crate::{
    Frame, LinkFault, Receiver, read_frame, write_end_of_turn, write_message, write_messages,
};
use bx_devices::{Watched, WriteFailed};
use bx_q931::Octets;
use std::io::{Read, Write};

/// The most messages that come in one turn, of a session or of a second of a live day.
pub const MAX_MESSAGES: u32 = 64;

/// Writes what is sent in a turn, and the end of the turn.
fn write_turn<W: Write>(
    writer: &mut Watched<W>,
    sent: &[Octets],
    moment: u32,
) -> Result<(), WriteFailed>
    ensures { Sends W.contents writer.old writer.new result (flat_map frame_with sent.now ++ turn_frame moment) }
{
    write_messages(writer, sent)?;
    write_end_of_turn(writer, moment)
}

/// The end ticks, and what it sends and the end of the turn are written. A second that is known to be quiet is skipped. At
/// `WriteFailed` the tick has happened; a prefix of these frames was written, but not all of them, and the writer is faulted.
pub fn write_tick<L: Course, E: End<L>, W: Write>(
    end: &mut E,
    writer: &mut Watched<W>,
) -> Result<(), WriteFailed>
    ensures day { E.day end.new ≡ L.next (E.day end.old) Tick }
    ensures written { Sends W.contents writer.old writer.new result (L.text (E.day end.old) Tick) }
    ensures kept { E.kept end.old (Tick ∷ []) end.new }
{
    if end.skip_quiet_second() {
        return write_end_of_turn(writer, end.reached());
    }
    let sent = end.next_second();
    write_turn(writer, &sent, end.reached())
}

/// Hears one message, and writes the reply to it.
fn answer<L: Course, E: End<L>, W: Write>(
    end: &mut E,
    message: &Octets,
    writer: &mut Watched<W>,
) -> Result<(), WriteFailed>
    ensures day { E.day end.new ≡ L.next (E.day end.old) (Receive message.now.items) }
    ensures written { Sends W.contents writer.old writer.new result (L.text (E.day end.old) (Receive message.now.items)) }
    ensures kept { E.kept end.old (Receive message.now.items ∷ []) end.new }
{
    match end.hear(message) {
        Some(reply) => write_message(writer, &reply),
        None => Ok(()),
    }
}

/// Hears the messages of a turn up to its end, and writes each reply before more is read. Answers whether it
/// ended with an end of turn, which has this moment; else it ended with the end of the day. The first fault is answered:
/// one of `read_frame`; `WrongMoment` where the end of turn has another moment; `WriteFailed` where a reply was not written
/// whole. Each message that came whole before it was heard.
pub fn hear_turn<L: Course, E: End<L>, R: Read, W: Write>(
    end: &mut E,
    receiver: Receiver,
    moment: u32,
    reader: &mut Watched<R>,
    writer: &mut Watched<W>,
) -> Result<bool, LinkFault>
    ensures went { HearsTurnKept E.day E.kept L.next L.text receiver moment R.remaining W.contents end.old end.new
        reader.old reader.new writer.old writer.new result }
    ensures far { result ≡ Ok false → is_far receiver ≡ true }
{
    let mut room = MAX_MESSAGES;
    loop {
        match read_frame(reader, receiver, room)? {
            Frame::Message(octets) => match answer(end, &octets, writer) {
                Ok(()) => room -= 1,
                Err(_) => return Err(LinkFault::WriteFailed),
            },
            Frame::EndOfTurn(said) => {
                return if said == moment {
                    Ok(true)
                } else {
                    Err(LinkFault::WrongMoment)
                };
            }
            Frame::EndOfDay => return Ok(false),
        }
    }
}
