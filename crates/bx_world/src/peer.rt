//! The peer of a rehearsal.

ghost use Rattle.std.specs.Prelude.{◌≡◌, ◌++◌, ℕ, Bool, List, Option, Result, is_ok, IfOk};
ghost use Rattle.bx_frames.specs.Frames.{frames_of, turn_frame, message_frame};
ghost use Rattle.bx_frames.specs.Reading.{MayCome};
ghost use Rattle.bx_frames.specs.Writing.{Sends};
ghost use Rattle.bx_frames.specs.declared.fault.LinkFault.{LinkFault as Fault};
ghost use Rattle.bx_frames.specs.declared.frame.Frame.{Frame as Framed};
ghost use Rattle.bx_frames.specs.declared.frame.Receiver.TheVariants.{Exchange};

use bx_devices::{Watched, WriteFailed};
use bx_frames::{
    Frame, LinkFault, Receiver, read_frame, write_end_of_day, write_end_of_turn, write_message,
    write_messages,
};
use bx_link::Connection;
use bx_q931::Octets;
use std::io::{Read, Write};

/// The peer of a rehearsal, at the other end of the exchange's link. What was written to it, what it gave and how it was told of the
/// end of the day lie between two states of it.
pub trait Peer {
    ghost wrote: { Self → List ℕ → Bool → Self → Type 0 };

    ghost gave: { Self → ℕ → Result Framed Fault → Self → Type 0 };

    ghost parted: { Self → Option Fault → Self → Type 0 };

    /// Writes the messages of a second, and the end of the turn with its moment. `WriteFailed` where not all of it was written.
    fn write_turn(&mut self, sent: &[Octets], moment: u32) -> Result<(), WriteFailed>
        ensures { wrote self.old (frames_of sent.now ++ turn_frame moment) (is_ok result) self.new };

    /// Writes a message. `WriteFailed` where not all of it was written.
    fn write_message(&mut self, message: &Octets) -> Result<(), WriteFailed>
        ensures { wrote self.old (message_frame message.now.items) (is_ok result) self.new };

    /// Reads the next frame. So many messages may still come in this turn. A fault is one of the link.
    fn read(&mut self, room: u32) -> Result<Frame, LinkFault>
        ensures read { gave self.old room result self.new }
        ensures comes { IfOk result (λ f. MayCome Exchange room f) };

    /// Tells it that the day is over. Answers the fault of the link, where it cannot be told.
    fn end_day(&mut self) -> Option<LinkFault>
        ensures { parted self.old result self.new };
}

/// Writes the messages of a second, and the end of the turn with its moment.
pub(crate) fn write_turn<W: Write>(
    writer: &mut Watched<W>,
    sent: &[Octets],
    moment: u32,
) -> Result<(), WriteFailed>
    ensures { Sends W.contents writer.old writer.new result (frames_of sent.now ++ turn_frame moment) }
{
    write_messages(writer, sent)?;
    write_end_of_turn(writer, moment)
}

impl<R: Read, W: Write> Peer for Connection<R, W> {
    ghost use Rattle.bx_world.specs.Peers.{WroteTo, GaveFrom, PartedFrom};

    ghost wrote = { WroteTo W.contents };

    ghost gave = { GaveFrom R.remaining };

    ghost parted = { PartedFrom W.contents };

    fn write_turn(&mut self, sent: &[Octets], moment: u32) -> Result<(), WriteFailed> {
        write_turn(&mut self.writer, sent, moment)
    }

    fn write_message(&mut self, message: &Octets) -> Result<(), WriteFailed> {
        write_message(&mut self.writer, message)
    }

    fn read(&mut self, room: u32) -> Result<Frame, LinkFault> {
        read_frame(&mut self.reader, Receiver::Exchange, room)
    }

    fn end_day(&mut self) -> Option<LinkFault> {
        match write_end_of_day(&mut self.writer) {
            Ok(()) => None,
            Err(_) => Some(LinkFault::WriteFailed),
        }
    }
}
