//! From a booking text to a plan text.

ghost use Rattle.std.specs.Prelude.{IfOk, IfErr};
ghost use Rattle.bx_base.specs.PlanParts.{IsPlan, parts_of};
ghost use Rattle.bx_devices.specs.Devices.{reading_of, writing_of};
ghost use Rattle.bx_book.specs.Rows.{span_of};
ghost use Rattle.bx_book.specs.Streams.{IsBookRead};
ghost use Rattle.bx_plan_commands.specs.Planning.{IsPlanRun, IsRunRefusal};
ghost use Rattle.bx_plan_commands.specs.Unplanned.{AreUnread, IsWithoutPlan};
ghost use Rattle.bx_planner.specs.Proved.{IsProved};

use bx_base::{Bookings, ChannelSet, Plan};
use bx_book::{BookFault, StreamFault, read_bookings_from};
use bx_calendar::Day;
use bx_devices::Watched;
use bx_planfile::write_plan;
use bx_planner::{NoPlan, plan};
use std::alloc::Global;
use std::io::{Read, Write};
use thiserror::Error;

/// Why a planning run wrote no plan.
#[derive(Clone, Copy, Debug, PartialEq, Eq, Error)]
pub enum RunFault {
    /// A read failed, or 8,388,608 reads did not reach the end.
    #[error("G1 ReadFailed")]
    ReadFailed,
    /// The text has more than 4,194,304 octets.
    #[error("G2 TooLong")]
    TooLong,
    /// What was read is no booking text of the day.
    #[error(transparent)]
    Book(BookFault),
    /// A write failed, or took none of what it was given: a prefix of the plan's text was written.
    #[error("G4 WriteFailed")]
    WriteFailed,
    /// At this moment, in seconds of the day, more must bookings run than there are channels; at no earlier one.
    #[error("G5 TooManyMust {0}")]
    TooManyMust(u32),
    /// Memory ran out.
    #[error("Memory")]
    Memory,
}

/// The bookings of what is read to its end.
fn bookings_of<R: Read>(
    alloc: Global,
    input: &mut Watched<R>,
    day: &Day,
) -> Result<Bookings, RunFault>
    ensures read { IfOk result (IsBookRead (reading_of R.remaining input.old input.new) (span_of day.now)) }
    ensures unread { IfErr result (AreUnread (reading_of R.remaining input.old input.new) (span_of day.now)) }
{
    match read_bookings_from(alloc, input, day) {
        Ok(bookings) => Ok(bookings),
        Err(StreamFault::ReadFailed) => Err(RunFault::ReadFailed),
        Err(StreamFault::TooLong) => Err(RunFault::TooLong),
        Err(StreamFault::Book(fault)) => Err(RunFault::Book(fault)),
        Err(StreamFault::Memory) => Err(RunFault::Memory),
    }
}

/// The best plan, with the faults of a run.
fn plan_of(alloc: Global, bookings: &Bookings, channels: ChannelSet) -> Result<Plan, RunFault>
    ensures ok { IfOk result (λ p. IsProved bookings.now channels (parts_of p)) }
    ensures limits { IfOk result (λ p. IsPlan (parts_of p)) }
    ensures err { IfErr result (IsWithoutPlan bookings.now channels) }
{
    match plan(alloc, bookings, channels) {
        Ok(plan) => Ok(plan),
        Err(NoPlan::TooManyMust(moment)) => Err(RunFault::TooManyMust(moment)),
        Err(NoPlan::Memory) => Err(RunFault::Memory),
    }
}

/// Reads a booking text of the day to its end, plans its bookings on these channels, and writes the plan's text (version 3).
/// Answers the plan, which the checker proves. At most 4,194,304 octets are read, in at most 8,388,608 reads. The faults are
/// tested in this order: `ReadFailed` and `TooLong`, `Book`, `TooManyMust`, `WriteFailed`; `Memory` comes where memory runs
/// out. Nothing is written before any of them but `WriteFailed`.
pub fn plan_run<R: Read, W: Write>(
    alloc: Global,
    input: &mut Watched<R>,
    output: &mut Watched<W>,
    day: &Day,
    channels: ChannelSet,
) -> Result<Plan, RunFault>
    ensures planned { IfOk result (λ p. IsPlanRun (reading_of R.remaining input.old input.new)
        (writing_of W.contents output.old output.new) (span_of day.now) channels (parts_of p)) }
    ensures refused { IfErr result (IsRunRefusal (reading_of R.remaining input.old input.new)
        (writing_of W.contents output.old output.new) (span_of day.now) channels) }
{
    let bookings = bookings_of(alloc, input, day)?;
    let plan = plan_of(alloc, &bookings, channels)?;
    match write_plan(&plan, output) {
        Ok(()) => Ok(plan),
        Err(_) => Err(RunFault::WriteFailed),
    }
}
