//! The exchange's side of a whole day.

ghost use Rattle.std.specs.Prelude.{◌≡◌};
ghost use Rattle.bx_sessions.specs.Kept.{RunsDayKept};
ghost use Rattle.bx_sessions.specs.TalkingInside.{TalksKept};

use crate::session::Session;
use bx_day::Exchange;
use bx_devices::Watched;
use bx_events::LAST_MOMENT;
use bx_frames::{End, LinkFault, write_end_of_day};
use std::io::{Read, Write};

/// Opens and closes so many turns.
fn run_turns<E: End<Exchange>, R: Read, W: Write>(
    exchange: &mut E,
    reader: &mut Watched<R>,
    writer: &mut Watched<W>,
    turns: u32,
) -> Result<(), LinkFault>
    ensures { TalksKept E.day E.kept R.remaining W.contents turns exchange.old exchange.new reader.old reader.new writer.old writer.new result }
{
    let mut session = Session::new();
    for _turn in 0..turns {
        session.open_turn(exchange, writer)?;
        session.close_turn(exchange, reader, writer)?;
    }
    Ok(())
}

/// Opens and closes so many turns, or as many as there are to `LAST_MOMENT` where that is fewer, and then
/// writes the end of the day. Each of these turns has its tick, and nothing is read after the last end of turn.
/// Takes no memory. The first fault of the session is answered: the exchange has then gone through all whole turns, the next tick,
/// and each message of that turn that came whole; what was written is theirs. At `WriteFailed` the write was that of the last of
/// these, or of the end of the day; a prefix of that was written, but not all of it, and nothing was read after the last of these.
pub fn run_day<E: End<Exchange>, R: Read, W: Write>(
    exchange: &mut E,
    reader: &mut Watched<R>,
    writer: &mut Watched<W>,
    turns: u32,
) -> Result<(), LinkFault>
    ensures { RunsDayKept E.day E.kept R.remaining W.contents turns exchange.old exchange.new reader.old reader.new writer.old writer.new result }
{
    let count = turns.min(LAST_MOMENT - exchange.reached());
    run_turns(exchange, reader, writer, count)?;
    match write_end_of_day(writer) {
        Ok(()) => Ok(()),
        Err(_) => Err(LinkFault::WriteFailed),
    }
}
