//! The command that writes the records of a day by its journal.

ghost use Rattle.std.specs.Prelude.{IfOk, IfErr, OnOk};
ghost use Rattle.bx_devices.specs.Devices.{writing_of};
ghost use Rattle.bx_records.specs.Writing.{IsRecorded};
ghost use Rattle.bx_audit.specs.Recorded.{IsTotalsTold, AreRecordsTold};
ghost use Rattle.bx_audit.specs.Inside.{AreRecordsUnwritten};
ghost use Rattle.bx_audit.specs.Unrecorded.{IsRecordsCommandRefusal};

use crate::told_days::told_by;
use bx_calendar::Clock;
use bx_check_commands::{CommandFault, Inputs};
use bx_day::Exchange;
use bx_day_openings::{DayCommandFault, clock_of, unrecorded};
use bx_devices::Watched;
use bx_records::{write_records, write_totals};
use bx_request::RecordsRequest;
use std::alloc::Global;
use std::io::Write;

/// Tells the totals, where they are to be told. What becomes of them changes nothing.
fn tell_totals<E: Write>(exchange: &Exchange, is_quiet: bool, errors: &mut Watched<E>)
    ensures { IsTotalsTold is_quiet exchange.now.entries (writing_of E.contents errors.old errors.new) }
{
    if !is_quiet {
        let _told = write_totals(exchange, errors);
    }
}

/// Writes the records of a day, and then tells their totals.
fn write_and_tell<'a, W: Write, E: Write>(
    alloc: Global,
    exchange: &Exchange,
    clock: Option<Clock>,
    is_quiet: bool,
    output: &mut Watched<W>,
    errors: &mut Watched<E>,
) -> Result<(), DayCommandFault<'a>>
    ensures recorded { OnOk result (IsRecorded clock exchange.now.entries (writing_of W.contents output.old output.new)) }
    ensures told { OnOk result (IsTotalsTold is_quiet exchange.now.entries (writing_of E.contents errors.old errors.new)) }
    ensures refused { IfErr result (AreRecordsUnwritten clock exchange.now.entries (writing_of W.contents output.old output.new)) }
{
    match write_records(alloc, exchange, clock, output) {
        Ok(()) => {
            tell_totals(exchange, is_quiet, errors);
            Ok(())
        }
        Err(fault) => Err(unrecorded(fault, DayCommandFault::Command(CommandFault::CannotWrite))),
    }
}

/// Writes the records of the day of the plan of one input, by the journal of another: of a day that has ended, or that is still
/// running. Their totals are told on standard error in one line, except where it is to be quiet. At a refusal nothing was written,
/// except that where the output failed a prefix of the records was.
///
/// What is needed is opened in this order, and the first fault of it is answered: `Day` for the date and the zone; `Command` for
/// the plan; `Command`, as `CannotRead`, `Journal`, as `BadLine`, `OtherPlan` or `OtherRules`, or `Amendment` for the journal. Then `Day`, as
/// `OutOfRange`, where a moment lies after the last that can be named; `Command`, as `Memory`, where memory ran out, and as
/// `CannotWrite`, where the output failed.
pub fn record_files<'a, I: Inputs, W: Write, E: Write>(
    alloc: Global,
    inputs: &mut I,
    request: RecordsRequest<'a>,
    output: &mut Watched<W>,
    errors: &mut Watched<E>,
) -> Result<(), DayCommandFault<'a>>
    ensures done { OnOk result
        (AreRecordsTold (I.gives inputs.old) request.entry (writing_of W.contents output.old output.new) (writing_of E.contents errors.old errors.new)) }
    ensures refused { IfErr result (IsRecordsCommandRefusal (I.gives inputs.old) request.entry W.contents output.old output.new) }
{
    let clock = clock_of(request.day)?;
    let day = told_by(alloc, inputs, request.plan, request.journal)?;
    write_and_tell(
        alloc,
        &day.exchange,
        clock,
        request.is_quiet,
        output,
        errors,
    )
}
