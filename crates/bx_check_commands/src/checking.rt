//! The checks of a plan text: against bookings and channels, and against those that it states itself.

ghost use Rattle.std.specs.Prelude.{◌≡◌, ℕ, Ok, IfOk, IfErr, OnOk, OnErr, IsTrue};
ghost use Rattle.std.specs.Io.KnownBytes.{Appends, IsAtEnd};
ghost use Rattle.bx_devices.specs.Devices.{reading_of, writing_of};
ghost use Rattle.bx_devices.specs.Watching.{device_of, is_faulted};
ghost use Rattle.bx_devices.specs.Octets.{AppendsPrefix};
ghost use Rattle.bx_base.specs.PlanParts.{parts_of};
ghost use Rattle.bx_check_commands.specs.Proved.{IsPlanRead, IsProvedFor, IsProvedText, IsProvedAgainst, proved_line};
ghost use Rattle.bx_check_commands.specs.Refusals.{IsNoPlan, IsUnproved, IsRefusal, IsRefusalAgainst};
ghost use Rattle.bx_check_commands.specs.Inside.{IsFaulty, IsPlanJudged};

use crate::fault::CommandFault;
use bx_base::{Bookings, ChannelSet, Plan};
use bx_check::check;
use bx_devices::{ReadFault, Watched, WriteFailed, read_octets, write_octets};
use bx_planfile::{PlanTextFault, read_plan};
use bx_text::named_line;
use std::alloc::Global;
use std::io::{Read, Write};

/// The plan whose text is read to the end of an input of this name. It need not be proved. `CannotRead` with the name where the
/// input fails, does not end, or is too long; `Plan` where what was read is no plan text; `Memory` where memory runs out.
pub fn plan_from<'a, R: Read>(
    alloc: Global,
    name: &'a str,
    input: &mut Watched<R>,
) -> Result<Plan, CommandFault<'a>>
    ensures found { IfOk result (λ plan. IsPlanRead (R.remaining (device_of input.old)) (parts_of plan)) }
    ensures ended { OnOk result (IsAtEnd (R.remaining (device_of input.new))) }
    ensures none { IfErr result (IsNoPlan name.now (reading_of R.remaining input.old input.new)) }
{
    let text = match read_octets(alloc, input) {
        Ok(text) => text,
        Err(ReadFault::Memory) => return Err(CommandFault::Memory),
        Err(_) => return Err(CommandFault::CannotRead(name)),
    };
    match read_plan(alloc, &text) {
        Ok(plan) => Ok(plan),
        Err(PlanTextFault::Memory) => Err(CommandFault::Memory),
        Err(fault) => Err(CommandFault::Plan(fault)),
    }
}

/// The total of the plan, where it is proved for these bookings and channels.
fn checked<'a>(
    plan: &Plan,
    bookings: &Bookings,
    channels: ChannelSet,
) -> Result<u64, CommandFault<'a>>
    ensures proved { IfOk result (IsProvedFor bookings.now channels (parts_of plan.now)) }
    ensures refused { IfErr result (IsFaulty bookings.now channels (parts_of plan.now)) }
{
    match check(bookings, channels, plan) {
        Ok(total) => Ok(total),
        Err(fault) => Err(CommandFault::Check(fault)),
    }
}

/// The plan whose text is read to the end of an input of this name, where it is proved for the bookings and channels
/// that it states itself. The faults of `plan_from`, and then `Check` where it is not proved.
pub fn proved_plan<'a, R: Read>(
    alloc: Global,
    name: &'a str,
    input: &mut Watched<R>,
) -> Result<Plan, CommandFault<'a>>
    ensures found { IfOk result (λ plan. IsPlanRead (R.remaining (device_of input.old)) (parts_of plan)) }
    ensures proved { IfOk result (λ plan. (total : ℕ) × IsProvedFor plan.bookings plan.channels (parts_of plan) total) }
    ensures read { OnOk result (IsAtEnd (R.remaining (device_of input.new))) }
    ensures refused { IfErr result (IsUnproved name.now (reading_of R.remaining input.old input.new)) }
{
    let plan = plan_from(alloc, name, input)?;
    let _total = checked(&plan, &plan.bookings, plan.channels)?;
    Ok(plan)
}

/// Writes `proved `, the total and LF.
fn write_proved<W: Write>(output: &mut Watched<W>, total: u64) -> Result<(), WriteFailed>
    ensures ok { OnOk result (Appends (W.contents (device_of output.old)) (W.contents (device_of output.new)) (proved_line total)) }
    ensures prefix { OnErr result (AppendsPrefix (W.contents (device_of output.old)) (W.contents (device_of output.new)) (proved_line total)) }
    ensures err { OnErr result (IsTrue (is_faulted output.new)) }
    ensures unfaulted { OnOk result (is_faulted output.new ≡ is_faulted output.old) }
{
    write_octets(output, &named_line(b"proved", total))
}

/// Checks the plan against these bookings and channels, and writes `proved `, the total and LF.
fn judge<'a, W: Write>(
    plan: &Plan,
    bookings: &Bookings,
    channels: ChannelSet,
    output: &mut Watched<W>,
) -> Result<u64, CommandFault<'a>>
    ensures proved { IfOk result (IsProvedFor bookings.now channels (parts_of plan.now)) }
    ensures written { IfOk result (λ total. Appends (W.contents (device_of output.old)) (W.contents (device_of output.new)) (proved_line total)) }
    ensures refused { IfErr result (IsPlanJudged bookings.now channels (parts_of plan.now) (writing_of W.contents output.old output.new)) }
{
    let total = checked(plan, bookings, channels)?;
    match write_proved(output, total) {
        Ok(()) => Ok(total),
        Err(WriteFailed) => Err(CommandFault::CannotWrite),
    }
}

/// Reads a plan text to the end of the input, checks the plan against the bookings and channels that it states
/// itself, and writes `proved `, the total and LF. Answers the total. At a refusal nothing was written, except that
/// where the output failed a prefix of that line was. The faults of `proved_plan`, with the name `-`, and then `CannotWrite`.
pub fn check_self<'a, R: Read, W: Write>(
    alloc: Global,
    input: &mut Watched<R>,
    output: &mut Watched<W>,
) -> Result<u64, CommandFault<'a>>
    // A plan is proved with this total, and what was read to its end is its text.
    ensures proved { IfOk result (IsProvedText (R.remaining (device_of input.old))) }
    ensures read { OnOk result (IsAtEnd (R.remaining (device_of input.new))) }
    ensures written { IfOk result (λ total. Appends (W.contents (device_of output.old)) (W.contents (device_of output.new)) (proved_line total)) }
    ensures refused { IfErr result (IsRefusal (reading_of R.remaining input.old input.new) (writing_of W.contents output.old output.new)) }
{
    let plan = plan_from(alloc, "-", input)?;
    judge(&plan, &plan.bookings, plan.channels, output)
}

/// The same against these bookings and channels. The faults are the same, with this name of the input in `CannotRead`.
pub fn check_against<'a, R: Read, W: Write>(
    alloc: Global,
    name: &'a str,
    bookings: &Bookings,
    channels: ChannelSet,
    input: &mut Watched<R>,
    output: &mut Watched<W>,
) -> Result<u64, CommandFault<'a>>
    ensures proved { IfOk result (IsProvedAgainst bookings.now channels (R.remaining (device_of input.old))) }
    ensures read { OnOk result (IsAtEnd (R.remaining (device_of input.new))) }
    ensures written { IfOk result (λ total. Appends (W.contents (device_of output.old)) (W.contents (device_of output.new)) (proved_line total)) }
    ensures refused { IfErr result (IsRefusalAgainst bookings.now channels name.now
        (reading_of R.remaining input.old input.new) (writing_of W.contents output.old output.new)) }
{
    let plan = plan_from(alloc, name, input)?;
    judge(&plan, bookings, channels, output)
}
