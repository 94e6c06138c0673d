//! The far end's side of a whole day.

ghost use Rattle.bx_link.specs.Kept.{RunsFarDayKept};

use crate::far_session::FarSession;
use bx_devices::Watched;
use bx_far::Far;
use bx_frames::{End, LinkFault};
use std::io::{Read, Write};

/// More turns than a connection lasts for.
const MOST_TURNS: u64 = u64::MAX;

/// Takes turns until the exchange ends the day; each but the last of them has its tick. Nothing is read after the end
/// of the day. Takes no memory. The first fault of a turn is answered; and `Closed` after 2^64 - 1 turns.
pub fn run_far_day<E: End<Far>, R: Read, W: Write>(
    far: &mut E,
    reader: &mut Watched<R>,
    writer: &mut Watched<W>,
) -> Result<(), LinkFault>
    ensures { RunsFarDayKept E.day E.kept R.remaining W.contents far.old far.new reader.old reader.new writer.old writer.new result }
{
    let mut session = FarSession::new();
    for _turn in 0..MOST_TURNS {
        let goes_on = session.far_turn(far, reader, writer)?;
        if !goes_on {
            return Ok(());
        }
    }
    Err(LinkFault::Closed)
}
