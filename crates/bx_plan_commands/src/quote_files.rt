//! The commands that answer for what a plan refuses.

ghost use Rattle.std.specs.Prelude.{◌≤◌, IfOk, IfErr, OnOk};
ghost use Rattle.bx_devices.specs.Devices.{writing_of};
ghost use Rattle.bx_book.specs.Rows.{IsMomentOf, IsTimeFault, span_of};
ghost use Rattle.bx_plan_commands.specs.Answers.{IsExplained, IsQuoted};
ghost use Rattle.bx_plan_commands.specs.Calls.{IsSecondOf, IsSecondFault, AreBoth, IsFirstOfBoth, AreTimesOf, IsCallOf, IsNoCall};
ghost use Rattle.bx_plan_commands.specs.PlanRefusals.{IsNotExplained, IsNotQuoted};
ghost use Rattle.bx_base.specs.declared.booking.TheConstants.{MAX_MOMENT};

use crate::fault::FileFault;
use crate::naming::day_of;
use bx_base::Booking;
use bx_book::{BookFault, moment};
use bx_calendar::Day;
use bx_channels::Number;
use bx_check_commands::{Inputs, proved_named};
use bx_devices::Watched;
use bx_planfile::decimal;
use bx_planner::{write_explained, write_quote, write_refused};
use bx_request::Call;
use std::alloc::Global;
use std::io::Write;

/// Writes what each row that the plan of an input refuses pays, and what its seconds cost; or what one of them has to pay to be
/// taken. At a refusal nothing was written, except that where the output failed a prefix of that was. `Command` where there is no
/// proved plan of the input, and `Quote` where there is no quote, or it was not written.
pub fn explain_file<'a, I: Inputs, W: Write>(
    alloc: Global,
    inputs: &mut I,
    plan: &'a str,
    row: Option<u16>,
    output: &mut Watched<W>,
) -> Result<(), FileFault<'a>>
    ensures explained { OnOk result (IsExplained (I.gives inputs.old) row plan.now (writing_of W.contents output.old output.new)) }
    ensures refused { IfErr result (IsNotExplained (I.gives inputs.old) row plan.now W.contents output.old output.new) }
{
    let plan = proved_named(alloc, inputs, plan)?;
    let done = match row {
        Some(row) => write_explained(alloc, &plan, row, output),
        None => write_refused(alloc, &plan, output),
    };
    done?;
    Ok(())
}

/// Writes what a call has to pay to be taken beside those of the plan of an input. At a refusal nothing was written, except that
/// where the output failed a prefix of that was. `Day` where the words of the call name no day, `Book` where they name no times,
/// as for a text's row 1, `Command` where there is no proved plan of the input, and `Quote` where there is no quote, or it was
/// not written.
pub fn quote_file<'a, I: Inputs, W: Write>(
    alloc: Global,
    inputs: &mut I,
    plan: &'a str,
    call: &Call<'_>,
    output: &mut Watched<W>,
) -> Result<(), FileFault<'a>>
    ensures quoted { OnOk result (IsQuoted (I.gives inputs.old) call.now plan.now (writing_of W.contents output.old output.new)) }
    ensures refused { IfErr result (IsNotQuoted (I.gives inputs.old) call.now plan.now W.contents output.old output.new) }
{
    let booking = booking_of(call)?;
    let plan = proved_named(alloc, inputs, plan)?;
    write_quote(alloc, &plan, &booking, output)?;
    Ok(())
}

/// The booking of the call. Its pay and its number do not count.
fn booking_of<'a>(call: &Call<'_>) -> Result<Booking, FileFault<'a>>
    ensures booking { IfOk result (IsCallOf call.now) }
    ensures none { IfErr result (IsNoCall call.now) }
{
    let (start, end) = seconds_of(call)?;
    if end <= start {
        return Err(FileFault::Book(BookFault::EndNotAfterStart(1)));
    }
    let Some(number) = Number::new(b"0") else {
        return Err(FileFault::Book(BookFault::BadNumber(1)));
    };
    match Booking::new(start, end, 1, number) {
        Some(booking) if call.inward => Ok(booking.as_inward()),
        Some(booking) => Ok(booking),
        None => Err(FileFault::Book(BookFault::OutsideDay(1))),
    }
}

/// The seconds of the day at which the call starts and ends.
fn seconds_of<'a>(call: &Call<'_>) -> Result<(u32, u32), FileFault<'a>>
    ensures times { IfOk result (λ s. AreTimesOf call.now s.0 s.1) }
    ensures limit { IfOk result (λ s. s.1 ≤ MAX_MOMENT) }
    ensures none { IfErr result (IsNoCall call.now) }
{
    let Some((date, zone)) = call.day else {
        return Ok(counted(call)?);
    };
    let day = day_of(date, zone)?;
    Ok(times_of(call, &day)?)
}

/// The seconds of the day at which the times of the call lie.
fn times_of(call: &Call<'_>, day: &Day) -> Result<(u32, u32), BookFault>
    ensures times { IfOk result (λ s. AreBoth (IsMomentOf (span_of day.now)) call.now s.0 s.1) }
    ensures limit { IfOk result (λ s. s.1 ≤ MAX_MOMENT) }
    ensures none { IfErr result (IsFirstOfBoth (IsMomentOf (span_of day.now)) (IsTimeFault (span_of day.now) 1) call.now) }
{
    // Read for the prover alone, which learns a limit from it.
    let _seconds = day.length();
    let start = moment(call.start.as_bytes(), day, 1)?;
    let end = moment(call.end.as_bytes(), day, 1)?;
    Ok((start, end))
}

/// The seconds of the call where they are counted.
fn counted(call: &Call<'_>) -> Result<(u32, u32), BookFault>
    ensures times { IfOk result (λ s. AreBoth IsSecondOf call.now s.0 s.1) }
    ensures none { IfErr result (IsFirstOfBoth IsSecondOf IsSecondFault call.now) }
{
    let start = second(call.start)?;
    let end = second(call.end)?;
    Ok((start, end))
}

/// The second of a day that a decimal names, as in a plan text.
fn second(word: &str) -> Result<u32, BookFault>
    ensures named { IfOk result (IsSecondOf word.now) }
    ensures none { IfErr result (IsSecondFault word.now) }
{
    match decimal(word.as_bytes()) {
        None => Err(BookFault::NotATime(1)),
        Some(value) if value > 200_000 => Err(BookFault::OutsideDay(1)),
        Some(value) => Ok(value as u32),
    }
}
