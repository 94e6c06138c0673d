//! Sessions of the far end: turns that are heard and answered one after another, until a fault or the end of the
//! day.

ghost use Rattle.std.specs.Prelude.{◌≡◌, not, true, false, Err};
ghost use Rattle.bx_link.specs.Hearing.{session_goes_on};
ghost use Rattle.bx_link.specs.Sessions.{is_far_over};
ghost use Rattle.bx_frames.specs.declared.fault.LinkFault.TheVariants.{Closed};
ghost use Rattle.bx_link.specs.Kept.{TakesTurnKept, TakesTurnIfOpen};

use bx_devices::Watched;
use bx_far::Far;
use bx_frames::{End, LinkFault, Receiver, hear_turn, write_tick};
use std::io::{Read, Write};

/// A session of the far end. After a fault, and after the end of the day, it is closed, and neither reads nor
/// writes.
#[derive(Drop)]
pub struct FarSession {
    is_open: bool,
}

impl FarSession {
    /// A session before its first turn.
    pub fn new() -> Self
        ensures { is_far_over result ≡ false }
    {
        FarSession { is_open: true }
    }

    /// Whether it is closed, by a fault or by the end of the day.
    pub fn is_over(&self) -> bool
        ensures { result ≡ is_far_over self.now }
    {
        !self.is_open
    }

    /// Takes a turn: each message that comes is received by the far end, and the reply is written, up to the end of
    /// turn with the moment that is due, one after the far end's, and at 300,000 the same. Then the far end ticks,
    /// and each message that it sends is written as a frame, in order, and after them the end of turn with its
    /// moment. Answers true; or false where the end of the day comes in place of the end of turn, and the far end
    /// does not tick. Nothing is read after either. Takes no memory.
    ///
    /// Another moment is `WrongMoment`, and the far end does not tick; a 65th message is `MoreThan64Messages`. A
    /// closed session answers `Closed`, and neither reads nor writes. At any fault the session is closed: the far end
    /// has received each message that came whole, and no more. Where a write failed it was that of the reply to the
    /// last message that was received, and nothing was read after that message; or it was that of the tick, which has
    /// happened. It was not written whole, and all that is written before it was.
    pub fn far_turn<E: End<Far>, R: Read, W: Write>(
        &mut self,
        far: &mut E,
        reader: &mut Watched<R>,
        writer: &mut Watched<W>,
    ) -> Result<bool, LinkFault>
        ensures taken { TakesTurnIfOpen self.old E.day E.kept R.remaining W.contents far.old far.new reader.old reader.new writer.old writer.new result }
        ensures refused { is_far_over self.old ≡ true → result ≡ Err Closed }
        ensures far { is_far_over self.old ≡ true → far.new ≡ far.old }
        ensures reader { is_far_over self.old ≡ true → reader.new ≡ reader.old }
        ensures writer { is_far_over self.old ≡ true → writer.new ≡ writer.old }
        ensures over { is_far_over self.new ≡ not (session_goes_on result) }
    {
        if self.is_over() {
            return Err(LinkFault::Closed);
        }
        let ended = take_turn(far, reader, writer);
        self.is_open = may_go_on(&ended);
        ended
    }
}

/// Whether more turns may follow one that ended so.
fn may_go_on(ended: &Result<bool, LinkFault>) -> bool
    ensures { result ≡ session_goes_on ended.now }
{
    match ended {
        Ok(goes_on) => *goes_on,
        Err(_) => false,
    }
}

/// Hears the messages of a turn, and ticks at its end.
fn take_turn<E: End<Far>, R: Read, W: Write>(
    far: &mut E,
    reader: &mut Watched<R>,
    writer: &mut Watched<W>,
) -> Result<bool, LinkFault>
    ensures { TakesTurnKept E.day E.kept R.remaining W.contents far.old far.new reader.old reader.new writer.old writer.new result }
{
    let due = far.turn();
    let goes_on = hear_turn(far, Receiver::FarEnd, due, reader, writer)?;
    if !goes_on {
        return Ok(false);
    }
    match write_tick(far, writer) {
        Ok(()) => Ok(true),
        Err(_) => Err(LinkFault::WriteFailed),
    }
}
