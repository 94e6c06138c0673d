//! Writing the records of a day.

ghost use Rattle.std.specs.Prelude.{IfErr, OnOk};
ghost use Rattle.bx_devices.specs.Devices.{writing_of};
ghost use Rattle.bx_records.specs.Writing.{IsRecorded, IsRecordsRefusal};

use crate::fault::RecordsFault;
use crate::lines::text_of;
use bx_calendar::Clock;
use bx_day::Exchange;
use bx_devices::{Watched, WriteFailed, write_octets};
use std::alloc::Global;
use std::io::Write;

/// Writes the records of the day as CSV: a header, and a line for each booking in the order of the plan's rows, with its
/// row, direction, number, channel, start, end, pay, what became of it, and where its call was Active from when until when,
/// and for how many seconds. Moments are seconds of the day, or with a clock local times of its zone. At `OutOfRange`, where `jiff`
/// cannot name such a time, and at `Memory` nothing was written; at `WriteFailed` a prefix of the records was.
pub fn write_records<W: Write>(
    alloc: Global,
    exchange: &Exchange,
    clock: Option<Clock>,
    output: &mut Watched<W>,
) -> Result<(), RecordsFault>
    ensures done { OnOk result (IsRecorded clock exchange.now.entries (writing_of W.contents output.old output.new)) }
    ensures refused { IfErr result (IsRecordsRefusal clock exchange.now.entries (writing_of W.contents output.old output.new)) }
{
    let text = text_of(alloc, clock, exchange.entries())?;
    match write_octets(output, &text) {
        Ok(()) => Ok(()),
        Err(WriteFailed) => Err(RecordsFault::WriteFailed),
    }
}
