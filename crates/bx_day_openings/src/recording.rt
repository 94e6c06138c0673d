//! The file of the records of a day.

ghost use Rattle.std.specs.Prelude.{◌≡◌, IfOk, IfErr, OnOk};
ghost use Rattle.bx_day_openings.specs.Recording.{IsClockOf, IsNoClock, IsRecordsClock, IsNoRecordsClock, IsRecordsFileFor, IsNoRecordsFile, IsRecording, IsAllKept, IsUnkept, answer_for};

use crate::capturing::captured;
use crate::fault::DayCommandFault;
use bx_calendar::{Clock, DayFault};
use bx_check_commands::{CommandFault, tell_cause};
use bx_day::Exchange;
use bx_devices::Watched;
use bx_records::{RecordsFault, write_records};
use bx_request::{CaptureWords, RecordsWords};
use std::alloc::Global;
use std::fs;
use std::fs::Files;
use std::io::Write;

/// A file that the records of a day are to be written to, its name, and the clock by which they are written.
#[derive(Drop)]
pub struct RecordsFile<'a, F> {
    name: &'a str,
    clock: Option<Clock>,
    file: Watched<F>,
}

/// The clock of the day that these words name, where they name one; `Day` where the date and the zone are no day.
pub fn clock_of<'a>(day: Option<(&'a str, &'a str)>) -> Result<Option<Clock>, DayCommandFault<'a>>
    ensures clock { IfOk result (IsClockOf day.entry) }
    ensures none { IfErr result (IsNoClock day.entry) }
{
    let Some((date, zone)) = day else {
        return Ok(None);
    };
    Ok(Some(Clock::new(date, zone)?))
}

/// The clock by which records are to be written: none where their moments are seconds, or nothing is to be written. `Day` where the
/// date and the zone are no day.
pub fn records_clock_of<'a>(
    records: Option<RecordsWords<'a>>,
) -> Result<Option<Clock>, DayCommandFault<'a>>
    ensures clock { IfOk result (IsRecordsClock records.entry) }
    ensures none { IfErr result (IsNoRecordsClock records.entry) }
{
    match records {
        Some(records) => clock_of(records.day),
        None => Ok(None),
    }
}

/// The file of the records of a day, made empty, where they are to be written; `CannotWriteFile` where it cannot be made.
pub fn records_file_of<'a, H: Files + Eprint>(
    rt: &H,
    records: Option<RecordsWords<'a>>,
    clock: Option<Clock>,
) -> Result<Option<RecordsFile<'a, H::File>>, DayCommandFault<'a>>
    ensures opened { IfOk result (IsRecordsFileFor records.entry clock) }
    ensures refused { IfErr result (IsNoRecordsFile records.entry) }
{
    let Some(RecordsWords { file: name, day: _ }) = records else {
        return Ok(None);
    };
    match fs::create(rt, name) {
        Ok(file) => Ok(Some(RecordsFile {
            name,
            clock,
            file: Watched::new(file),
        })),
        Err(cause) => {
            tell_cause(rt, &name, &cause);
            Err(DayCommandFault::CannotWriteFile(name))
        }
    }
}

/// How a command tells that records were not written, where it tells a failed write of them so.
pub fn unrecorded<'a>(fault: RecordsFault, unwritten: DayCommandFault<'a>) -> DayCommandFault<'a>
    ensures { result ≡ answer_for unwritten.entry fault }
{
    match fault {
        RecordsFault::OutOfRange => DayCommandFault::Day(DayFault::OutOfRange),
        RecordsFault::WriteFailed => unwritten,
        RecordsFault::Memory => DayCommandFault::Command(CommandFault::Memory),
    }
}

/// Writes the records of a day into the file that was made for them, where there is one. `CannotWriteFile` where a write failed:
/// then a prefix of the records was written. At the others nothing was: `Day`, as `OutOfRange`, where a moment lies after the last
/// that can be named, and `Command`, as `Memory`, where memory ran out.
pub fn record<'a, F: Write + Drop>(
    alloc: Global,
    exchange: &Exchange,
    file: Option<RecordsFile<'a, F>>,
) -> Result<(), DayCommandFault<'a>>
    ensures { IsRecording F.contents exchange.now.entries file.entry result }
{
    let Some(
        RecordsFile {
            name,
            clock,
            mut file,
        },
    ) = file
    else {
        return Ok(());
    };
    match write_records(alloc, exchange, clock, &mut file) {
        Ok(()) => Ok(()),
        Err(fault) => Err(unrecorded(fault, DayCommandFault::CannotWriteFile(name))),
    }
}

/// What is told of a day that is done: nothing, or that its capture is not whole, as `CannotWriteFile`, or else why its records are
/// not, as it was answered for them.
pub fn kept<'a>(
    capture: Option<CaptureWords<'a>>,
    is_captured: bool,
    recorded: Result<(), DayCommandFault<'a>>,
) -> Result<(), DayCommandFault<'a>>
    ensures whole { OnOk result (IsAllKept capture.entry is_captured recorded.entry) }
    ensures cut { IfErr result (IsUnkept capture.entry is_captured recorded.entry) }
{
    captured(capture, is_captured)?;
    recorded
}
