//! The world outside a live day: its clock, its peer and its journal.

ghost use Rattle.std.specs.Prelude.{◌≡◌, ◌++◌, ◌∷◌, [], List, is_ok, IfOk};
ghost use Rattle.bx_events.specs.Told.{live_event_of};
ghost use Rattle.bx_frames.specs.Frames.{message_frame, turn_frame, frames_of};
ghost use Rattle.bx_frames.specs.Reading.{MayCome};
ghost use Rattle.bx_frames.specs.declared.frame.Receiver.TheVariants.{Exchange};
ghost use Rattle.bx_live.specs.Acts.{Act, Began, Dropped, Logged, Synced, Wrote, Read, Took, EndedDay};

use bx_devices::WriteFailed;
use bx_events::LiveEvent;
use bx_frames::{Frame, LinkFault};
use bx_q931::Octets;

/// How a second begins.
#[derive(Clone, Copy, Debug, PartialEq, Eq)]
pub enum Begin {
    /// More than a second after its instant.
    Late,
    /// In time, and no peer is there.
    Alone,
    /// In time, and a peer is there.
    Joined,
    /// No second begins any more.
    Ended,
}

/// Why a peer is dropped.
#[derive(Clone, Copy, Debug, PartialEq, Eq)]
pub enum Loss {
    /// The second began too late for a turn.
    Late,
    /// The link had a fault.
    Fault(LinkFault),
}

/// An event could not be logged, or what was logged not synced.
#[derive(Clone, Copy, Debug, PartialEq, Eq)]
pub struct CannotLog;

/// The world outside. What it was asked and what it answered is a list of acts, in their order: `did` says which may lie
/// between two states of it.
pub trait World {
    ghost did: { Self → List Act → Self → Type 0 };

    /// Waits for the instant of a second of the day. Meanwhile a peer may have come; or the day may have come to its end.
    fn begin(&mut self, second: u32) -> Begin
        ensures { did self.old (Began second result ∷ []) self.new };

    /// Drops the peer, if there is one, and says why.
    fn drop_peer(&mut self, loss: Loss)
        ensures { did self.old (Dropped loss ∷ []) self.new };

    /// Logs an event. It need not be on the disk before the next sync. `CannotLog` where that failed.
    fn log(&mut self, event: LiveEvent<'_>) -> Result<(), CannotLog>
        ensures { did self.old (Logged (live_event_of event.entry) (is_ok result) ∷ []) self.new };

    /// What was logged is on the disk. `CannotLog` where it may not be.
    fn sync(&mut self) -> Result<(), CannotLog>
        ensures { did self.old (Synced (is_ok result) ∷ []) self.new };

    /// Writes the messages of a second to the peer, and the end of the turn with its moment. `WriteFailed` where not all of it was
    /// written.
    fn write_turn(&mut self, sent: &[Octets], moment: u32) -> Result<(), WriteFailed>
        ensures { did self.old (Wrote (frames_of sent.now ++ turn_frame moment) (is_ok result) ∷ []) self.new };

    /// Writes a message to the peer. `WriteFailed` where not all of it was written.
    fn write_message(&mut self, message: &Octets) -> Result<(), WriteFailed>
        ensures { did self.old (Wrote (message_frame message.now.items) (is_ok result) ∷ []) self.new };

    /// Reads the next frame that the peer sends. So many messages may still come in this turn. A fault is one of the link.
    fn read(&mut self, room: u32) -> Result<Frame, LinkFault>
        ensures read { did self.old (Read room result ∷ []) self.new }
        ensures comes { IfOk result (λ f. MayCome Exchange room f) };

    /// Takes a message that is there already, if there is one, and waits for none. It is asked for only where a reply is owed to a message
    /// that was heard, and one more may come in this turn.
    fn take_waiting(&mut self) -> Option<Octets>
        ensures { did self.old (Took result ∷ []) self.new };

    /// Tells the peer, if there is one, that the day is over.
    fn end_day(&mut self)
        ensures { did self.old (EndedDay ∷ []) self.new };

    ghost did_nothing: { (w : Self) → did w [] w };

    ghost did_more: { (u v w : Self) (xs ys : List Act) → did u xs v → did v ys w → did u (xs ++ ys) w };
}
