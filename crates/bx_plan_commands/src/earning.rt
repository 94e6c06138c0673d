//! From a booking text to what each count of channels would earn.

ghost use Rattle.std.specs.Prelude.{IfOk, IfErr, OnOk};
ghost use Rattle.bx_devices.specs.Devices.{reading_of, writing_of};
ghost use Rattle.bx_book.specs.Rows.{span_of};
ghost use Rattle.bx_plan_commands.specs.Capacity.{IsCapacityRefusal, IsTable, IsTabled};

use crate::lines::earning_lines;
use bx_base::Bookings;
use bx_book::{StreamFault, read_bookings_from};
use bx_calendar::Day;
use bx_devices::{Watched, write_octets};
use bx_planner::capacity;
use std::alloc::{AllocError, Global};
use std::io::{Read, Write};
use thiserror::Error;

/// Why the lines of what each count of channels would earn were not written.
#[derive(Clone, Copy, Debug, PartialEq, Eq, Error)]
pub enum CapacityFault {
    /// The reader gave no bookings of the day.
    #[error(transparent)]
    Unread(StreamFault),
    /// A write failed, or took none of what it was given: a prefix of the lines was written.
    #[error("F2 CannotWrite")]
    WriteFailed,
    /// Memory ran out, after the bookings were read.
    #[error("Memory")]
    Memory,
}

/// The lines of what each count of channels would earn with these bookings.
fn table_of(alloc: Global, bookings: &Bookings) -> Result<Vec<u8>, AllocError>
    ensures { IfOk result (λ text. IsTable bookings.now text.items) }
{
    let earnings = capacity(alloc, bookings)?;
    earning_lines(alloc, &earnings)
}

/// Reads a booking text of the day to its end, and writes a line for each count of channels from 0 to 30, in rising order: the
/// count, `total`, the most that a lawful set of its bookings pays on so many channels, `next`, and what one more would add to
/// it; or the count, `too few at`, and the first second of the day at which more must bookings run than so many channels carry.
/// At most 4,194,304 octets are read, in at most 8,388,608 reads. `Unread` with the faults of reading and of the text is tested
/// first, then come `Memory` and `WriteFailed`; nothing is written before any fault but `WriteFailed`.
pub fn capacity_run<R: Read, W: Write>(
    alloc: Global,
    input: &mut Watched<R>,
    output: &mut Watched<W>,
    day: &Day,
) -> Result<(), CapacityFault>
    ensures tabled { OnOk result (IsTabled (reading_of R.remaining input.old input.new) (writing_of W.contents output.old output.new) (span_of day.now)) }
    ensures refused { IfErr result (IsCapacityRefusal (reading_of R.remaining input.old input.new)
        (writing_of W.contents output.old output.new) (span_of day.now)) }
{
    let bookings = match read_bookings_from(alloc, input, day) {
        Ok(bookings) => bookings,
        Err(fault) => return Err(CapacityFault::Unread(fault)),
    };
    let Ok(text) = table_of(alloc, &bookings) else {
        return Err(CapacityFault::Memory);
    };
    match write_octets(output, &text) {
        Ok(()) => Ok(()),
        Err(_) => Err(CapacityFault::WriteFailed),
    }
}
