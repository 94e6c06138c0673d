//! The note on accepted bookings that may be too short to be carried on a live line.

ghost use Rattle.std.specs.Prelude.{◌≡◌, ◌<◌, ◌≤◌, ◌+◌, length};
ghost use Rattle.std.specs.List.{list_any};
ghost use Rattle.std.specs.List.Sorted.{IsSorted};
ghost use Rattle.bx_base.specs.PlanParts.{parts_of};
ghost use Rattle.bx_devices.specs.Devices.{writing_of};
ghost use Rattle.bx_text.specs.Gathering.{Gathers, held};
ghost use Rattle.bx_plan_commands.specs.Notes.{ends_below, is_end_at, is_too_short, row_text, note_text, IsNoteWritten};
ghost use Rattle.bx_plan_commands.specs.Ends.{end_cmp, AreEnds};
ghost use Rattle.bx_base.specs.Bookings.{row_at};
ghost use Rattle.bx_base.specs.declared.bookings.TheConstants.{MAX_BOOKINGS};

use arrayvec::ArrayVec;
use bx_base::{MAX_BOOKINGS, Plan};
use bx_channels::Channel;
use bx_devices::{Watched, WriteFailed};
use bx_text::{Block, Line, append};
use itoa::Buffer;
use std::io::Write;

/// The channel and the end of each accepted booking. They stand on the stack, since a note takes no memory.
type Ends = ArrayVec<(u8, u32), MAX_BOOKINGS>;

/// The ends in the order of the rows.
fn ends_of(plan: &Plan) -> Ends
    ensures { result.items ≡ ends_below (parts_of plan.now) (length plan.now.bookings) }
{
    let mut ends = ArrayVec::new();
    for index in 0..plan.bookings.len() {
        if let Some(channel) = plan.assigned[index as usize] {
            ends.push((channel.number(), plan.bookings.nth(index).end()));
        }
    }
    ends
}

/// The ends by channel, and on one channel by the second.
fn sorted_ends(plan: &Plan) -> Ends
    ensures { AreEnds (parts_of plan.now) result.items }
{
    let mut ends = ends_of(plan);
    ends.as_mut_slice().sort_unstable();
    ends
}

/// Whether one of these is the end of a booking on this channel at this second.
fn some_ends(ends: &[(u8, u32)], channel: Channel, second: u32) -> bool
    requires { IsSorted end_cmp ends.now }
    ensures { result ≡ list_any (is_end_at channel second) ends.now }
{
    ends.binary_search(&(channel.number(), second)).is_ok()
}

/// Whether the booking at this place is accepted, and may be too short to be carried on a live line: it lasts one second, or two of
/// which the first is not its own, since the far end makes the call, or its channel is not free before: second 0, or right after
/// another booking.
fn is_too_short(plan: &Plan, ends: &[(u8, u32)], index: u16) -> bool
    requires row { index < length plan.now.bookings }
    requires ends { AreEnds (parts_of plan.now) ends.now }
    ensures { result ≡ is_too_short (parts_of plan.now) index }
{
    let Some(channel) = plan.assigned[index as usize] else {
        return false;
    };
    let booking = plan.bookings.nth(index);
    let (start, end) = (booking.start(), booking.end());
    end == start + 1
        || end == start + 2
            && (booking.is_inward() || start == 0 || some_ends(ends, channel, start))
}

/// The prefix of the note with its first row, or what the next row adds to it.
fn row_text(is_begun: bool, row: u16) -> Line
    ensures { result.items ≡ row_text is_begun row }
{
    let mut text = Line::new();
    if is_begun {
        append(&mut text, b",");
    } else {
        append(&mut text, b"note: rows ");
    }
    let mut digits = Buffer::new();
    append(&mut text, digits.format(row).as_bytes());
    text
}

/// Puts the note, where a row is to be noted.
fn put_note<W: Write>(
    plan: &Plan,
    ends: &[(u8, u32)],
    block: &mut Block,
    w: &mut Watched<W>,
) -> Result<(), WriteFailed>
    requires { AreEnds (parts_of plan.now) ends.now }
    ensures { Gathers W.contents (held w.old block.old) (held w.new block.new) result (note_text (parts_of plan.now)) }
{
    let mut is_begun = false;
    for index in 0..plan.bookings.len() {
        if is_too_short(plan, ends, index) {
            block.put(w, &row_text(is_begun, index + 1))?;
            is_begun = true;
        }
    }
    if !is_begun {
        return Ok(());
    }
    block.put(w, b" may be too short to be carried on a live line\n")
}

/// Writes the note on the accepted bookings that may be too short to be carried on a live line. Nothing where there are none. It takes no
/// memory, and what becomes of it changes nothing.
pub(crate) fn note_too_short<E: Write>(plan: &Plan, errors: &mut Watched<E>)
    ensures { IsNoteWritten (parts_of plan.now) (writing_of E.contents errors.old errors.new) }
{
    let mut block = Block::new();
    if put_note(plan, &sorted_ends(plan), &mut block, errors).is_ok() {
        let _told = block.write_out(errors);
    }
}
