//! Telling what became of each booking.

ghost use Rattle.std.specs.Prelude.{◌≡◌, ◌+◌, ◌≤◌, ◌++◌, ◌∷◌, [], None, OnOk, OnErr, IsTrue, length, map, get_or, decimal};
ghost use Rattle.std.specs.List.{flat_map};
ghost use Rattle.std.specs.Io.KnownBytes.{Appends};
ghost use Rattle.arrayvec.specs.ArrayVec.{array_vec_len};
ghost use Rattle.bx_devices.specs.Octets.{AppendsPrefix};
ghost use Rattle.bx_devices.specs.Watching.{device_of, is_faulted, reads_of};
ghost use Rattle.bx_text.specs.Gathering.{Gathers, held};
ghost use Rattle.bx_text.specs.Lines.{line_text};
ghost use Rattle.bx_day.specs.Telling.{entry_fields, told_fields, maintenance_fields, outcomes_text};
ghost use Rattle.bx_day.specs.Reading.{outcome_of};
ghost use Rattle.bx_day.specs.declared.outcome.Outcome.TheVariants.{Refused};

use crate::entry::Entry;
use crate::exchange::Exchange;
use crate::outcome::{GivenUp, Outcome, outcome_from};
use bx_base::ChannelSet;
use bx_devices::{Watched, WriteFailed};
use bx_text::{Block, Line, add, add_decimal, add_members, append};
use std::io::Write;

impl Exchange {
    /// Writes what has become of each booking, a line for each row in order: its number, and `refused`,
    /// `waiting`, `live`, `carried` with the moments from and until which its call was Active, `unanswered`
    /// or `missed`. A refused one that was given up, as the list tells by its row's number, is `cancelled` or
    /// `dropped`. Then `maintenance` with the channels in maintenance in rising order, or `none`. Each line
    /// ends with LF. Takes no memory. At `WriteFailed` the writer is faulted, and a prefix of the text was written.
    pub fn write_outcomes<W: Write>(
        &self,
        given_up: &[Option<GivenUp>],
        writer: &mut Watched<W>,
    ) -> Result<(), WriteFailed>
        ensures ok { OnOk result (Appends (W.contents (device_of writer.old)) (W.contents (device_of writer.new)) (outcomes_text given_up.now self.now)) }
        ensures prefix { OnErr result
            (AppendsPrefix (W.contents (device_of writer.old)) (W.contents (device_of writer.new)) (outcomes_text given_up.now self.now)) }
        ensures err { OnErr result (IsTrue (is_faulted writer.new)) }
        ensures unfaulted { OnOk result (is_faulted writer.new ≡ is_faulted writer.old) }
        ensures reads { reads_of writer.new ≡ reads_of writer.old }
    {
        let mut block = Block::new();
        put_outcomes(self, given_up, &mut block, writer)?;
        block.write_out(writer)
    }
}

/// Puts the lines of bookings.
fn put_entries<W: Write>(
    entries: &[Entry],
    given_up: &[Option<GivenUp>],
    block: &mut Block,
    writer: &mut Watched<W>,
) -> Result<(), WriteFailed>
    ensures { Gathers W.contents (held writer.old block.old) (held writer.new block.new) result
        (flat_map line_text (map (entry_fields given_up.now) entries.now)) }
{
    for entry in entries {
        block.put(
            writer,
            &entry_line(entry, how_given_up(given_up, entry.row)),
        )?;
    }
    Ok(())
}

/// Puts the whole text.
fn put_outcomes<W: Write>(
    exchange: &Exchange,
    given_up: &[Option<GivenUp>],
    block: &mut Block,
    writer: &mut Watched<W>,
) -> Result<(), WriteFailed>
    ensures { Gathers W.contents (held writer.old block.old) (held writer.new block.new) result (outcomes_text given_up.now exchange.now) }
{
    put_entries(&exchange.entries, given_up, block, writer)?;
    block.put(writer, &maintenance_line(exchange.maintenance))
}

/// Adds the outcome of a booking, and the end of its line.
fn add_outcome(line: &mut Line, outcome: Outcome, given_up: Option<GivenUp>)
    requires { array_vec_len line.old ≤ 21 }
    ensures { line.new.items ≡ line.old.items ++ line_text (told_fields given_up outcome) }
{
    match outcome {
        Outcome::Refused => add(line, refused_word(given_up), b'\n'),
        Outcome::Waiting => add(line, b"waiting", b'\n'),
        Outcome::Live => add(line, b"live", b'\n'),
        Outcome::Carried { from, until } => {
            add(line, b"carried", b' ');
            add_decimal(line, u64::from(from), b' ');
            add_decimal(line, u64::from(until), b'\n');
        }
        Outcome::Unanswered => add(line, b"unanswered", b'\n'),
        Outcome::Missed => add(line, b"missed", b'\n'),
    }
}

/// How the booking of this row was given up, if the list says that it was.
fn how_given_up(given_up: &[Option<GivenUp>], row: u16) -> Option<GivenUp>
    ensures { result ≡ get_or given_up.now row None }
{
    given_up.get(usize::from(row)).copied().flatten()
}

/// The word of a refused booking that was given up so.
fn refused_word(given_up: Option<GivenUp>) -> &'static [u8]
    ensures { told_fields given_up Refused ≡ result.now ∷ [] }
{
    match given_up {
        None => b"refused",
        Some(GivenUp::Cancelled) => b"cancelled",
        Some(GivenUp::Dropped) => b"dropped",
    }
}

/// The line of a booking that was given up so.
fn entry_line(entry: &Entry, given_up: Option<GivenUp>) -> Line
    ensures { result.items ≡ line_text (decimal entry.now.row ∷ told_fields given_up (outcome_of entry.now.standing)) }
{
    let mut line = Line::new();
    add_decimal(&mut line, u64::from(entry.row), b' ');
    add_outcome(&mut line, outcome_from(entry.standing), given_up);
    line
}

/// The line of the channels in maintenance.
fn maintenance_line(channels: ChannelSet) -> Line
    ensures { result.items ≡ line_text (maintenance_fields channels) }
{
    let mut line = Line::new();
    append(&mut line, b"maintenance");
    let word_len = line.len();
    add_members(&mut line, &channels);
    if line.len() == word_len {
        append(&mut line, b" none");
    }
    line.push(b'\n');
    line
}
