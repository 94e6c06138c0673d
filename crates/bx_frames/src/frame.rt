//! Frames: a kind octet, the length of the contents in two octets, the high one first, and the contents.

ghost use Rattle.std.specs.Prelude.{◌≡◌};
ghost use Rattle.bx_frames.specs.Frames.{frame_kind_of, fits};

use bx_q931::{MAX_MESSAGE, Octets};

/// Which end reads.
#[derive(Clone, Copy, Debug, PartialEq, Eq)]
pub enum Receiver {
    Exchange,
    FarEnd,
}

/// The kinds of frames.
#[derive(Clone, Copy, PartialEq, Eq)]
pub enum FrameKind {
    /// Kind 1: one message.
    Message,
    /// Kind 2: the end of a turn, with the moment in four octets, the high one first.
    EndOfTurn,
    /// Kind 3: the end of the day, only towards the far end.
    EndOfDay,
}

/// What a frame carries.
#[derive(Drop)]
pub enum Frame {
    Message(Octets),
    EndOfTurn(u32),
    EndOfDay,
}

impl FrameKind {
    /// The kind of a frame that this receiver reads, by its first octet.
    pub(crate) fn of(receiver: Receiver, octet: u8) -> Option<FrameKind>
        ensures { result ≡ frame_kind_of receiver octet }
    {
        match (octet, receiver) {
            (1, _) => Some(FrameKind::Message),
            (2, _) => Some(FrameKind::EndOfTurn),
            (3, Receiver::FarEnd) => Some(FrameKind::EndOfDay),
            _ => None,
        }
    }

    /// Whether contents of this kind have so many octets.
    pub(crate) fn fits(self, length: usize) -> bool
        ensures { result ≡ fits self length }
    {
        match self {
            FrameKind::Message => length <= MAX_MESSAGE,
            FrameKind::EndOfTurn => length == 4,
            FrameKind::EndOfDay => length == 0,
        }
    }
}
