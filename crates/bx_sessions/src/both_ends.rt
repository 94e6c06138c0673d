//! A day of both ends in one process.

ghost use Rattle.std.specs.Prelude.{◌≡◌, ◌-◌, min};
ghost use Rattle.bx_sessions.specs.BothEnds.{passage};
ghost use Rattle.bx_sessions.specs.Hearing.{turned};
ghost use Rattle.bx_sessions.specs.Kept.{RunsBothKept};

use crate::session::Session;
use bx_day::Exchange;
use bx_events::LAST_MOMENT;
use bx_far::Far;
use bx_frames::{End, LinkFault, write_end_of_day};
use bx_link::{Connection, FarSession};
use std::io::{Read, Write};

/// Runs a day of both ends, each at its end of a connection. The exchange opens a turn, the far end takes it, and
/// the exchange closes it, so many times, or as many as there are to `LAST_MOMENT` where that is fewer; then the
/// exchange writes the end of the day, and the far end hears it. Takes no memory. The first fault of either end's
/// session is answered, and nothing is done after it; and `Closed` where an end of turn comes to the far end in
/// place of the end of the day, since the exchange's session is closed then.
pub fn run_both_ends<E: End<Exchange>, R: Read, W: Write, S: Read, T: Write>(
    exchange: &mut E,
    near: &mut Connection<R, W>,
    far: &mut Far,
    distant: &mut Connection<S, T>,
    turns: u32,
) -> Result<(), LinkFault>
    ensures { RunsBothKept E.day E.kept (min turns (LAST_MOMENT - (E.day exchange.old).moment)) exchange.old exchange.new
        (passage R.remaining W.contents near.old near.new (E.day exchange.old) (E.day exchange.new))
        (passage S.remaining T.contents distant.old distant.new far.old far.new) (turned result) }
{
    let count = turns.min(LAST_MOMENT - exchange.reached());
    let mut session = Session::new();
    let mut far_session = FarSession::new();
    for _turn in 0..count {
        session.open_turn(exchange, &mut near.writer)?;
        far_session.far_turn(far, &mut distant.reader, &mut distant.writer)?;
        session.close_turn(exchange, &mut near.reader, &mut near.writer)?;
    }
    match write_end_of_day(&mut near.writer) {
        Ok(()) => {}
        Err(_) => return Err(LinkFault::WriteFailed),
    }
    let goes_on = far_session.far_turn(far, &mut distant.reader, &mut distant.writer)?;
    if goes_on {
        return Err(LinkFault::Closed);
    }
    Ok(())
}
