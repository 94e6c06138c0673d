//! A day of both ends in one process.

ghost use Rattle.std.specs.Prelude.{◌≡◌};
ghost use Rattle.bx_world.specs.BothEnds.{FarTurn};

use crate::peer::{Peer, write_turn};
use bx_devices::WriteFailed;
use bx_far::Far;
use bx_frames::{Frame, LinkFault, Receiver, read_frame, write_end_of_day, write_message};
use bx_link::{Connection, FarSession};
use bx_q931::Octets;
use std::io::{Read, Write};

/// The far end, at its end of the connection.
#[derive(Drop)]
pub struct FarEnd<S: Read, T: Write> {
    pub far: Far,
    pub session: FarSession,
    pub connection: Connection<S, T>,
}

impl<S: Read, T: Write> FarEnd<S, T> {
    /// Takes a turn. Answers whether the day goes on.
    fn take_turn(&mut self) -> Result<bool, LinkFault>
        ensures { FarTurn S.remaining T.contents self.old self.new result }
    {
        let connection = &mut self.connection;
        self.session.far_turn(
            &mut self.far,
            &mut connection.reader,
            &mut connection.writer,
        )
    }
}

/// A peer that is the far end of the same process, which takes its turn once the exchange's half of it is written.
#[derive(Drop)]
pub struct BothEnds<R: Read, W: Write, S: Read, T: Write> {
    pub near: Connection<R, W>,
    pub distant: FarEnd<S, T>,
    /// Whether the far end has not taken the turn that was opened.
    is_due: bool,
}

impl<R: Read, W: Write, S: Read, T: Write> BothEnds<R, W, S, T> {
    ghost use Rattle.bx_world.specs.BothEnds.{IsOpening};

    /// Both ends before the first turn.
    pub fn new(near: Connection<R, W>, far: Far, distant: Connection<S, T>) -> Self
        ensures { IsOpening near far distant result }
    {
        BothEnds {
            near,
            distant: FarEnd {
                far,
                session: FarSession::new(),
                connection: distant,
            },
            is_due: false,
        }
    }
}

impl<R: Read, W: Write, S: Read, T: Write> Peer for BothEnds<R, W, S, T> {
    ghost use Rattle.bx_world.specs.BothEnds.{WroteNear, GaveBoth, PartedBoth};

    ghost wrote = { WroteNear W.contents };

    ghost gave = { GaveBoth R.remaining S.remaining T.contents };

    ghost parted = { PartedBoth W.contents S.remaining T.contents };

    fn write_turn(&mut self, sent: &[Octets], moment: u32) -> Result<(), WriteFailed> {
        self.is_due = true;
        write_turn(&mut self.near.writer, sent, moment)
    }

    fn write_message(&mut self, message: &Octets) -> Result<(), WriteFailed> {
        write_message(&mut self.near.writer, message)
    }

    fn read(&mut self, room: u32) -> Result<Frame, LinkFault> {
        if !self.is_due {
            return read_frame(&mut self.near.reader, Receiver::Exchange, room);
        }
        self.is_due = false;
        let goes_on = self.distant.take_turn()?;
        if !goes_on {
            return Err(LinkFault::Closed);
        }
        read_frame(&mut self.near.reader, Receiver::Exchange, room)
    }

    fn end_day(&mut self) -> Option<LinkFault> {
        if write_end_of_day(&mut self.near.writer).is_err() {
            return Some(LinkFault::WriteFailed);
        }
        match self.distant.take_turn() {
            Ok(false) => None,
            Ok(true) => Some(LinkFault::Closed),
            Err(fault) => Some(fault),
        }
    }
}
