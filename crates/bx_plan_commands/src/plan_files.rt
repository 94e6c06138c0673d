//! The commands that plan, check and amend.

ghost use Rattle.std.specs.Prelude.{◌≡◌, IfErr, IsErr, OnOk};
ghost use Rattle.bx_base.specs.PlanParts.{parts_of};
ghost use Rattle.bx_devices.specs.Devices.{writing_of};
ghost use Rattle.bx_plan_commands.specs.FilePlans.{IsPlanNoted, IsChecked, IsHeldNoted};
ghost use Rattle.bx_plan_commands.specs.FileRefusals.{IsPlanRefusal, IsCheckRefusal, IsNotAmended};
ghost use Rattle.bx_plan_commands.specs.Inside.{IsCheckedFor, IsNotCheckedFor, IsHeldWith, IsNotAmendedWith};

use crate::fault::FileFault;
use crate::inputs::bookings_named;
use crate::naming::{channels_and_day, day_of};
use crate::noting::note_too_short;
use crate::{plan_run, write_amended};
use bx_base::{Bookings, ChannelSet, Plan};
use bx_calendar::Day;
use bx_check_commands::{Inputs, check_against, plan_named};
use bx_devices::Watched;
use bx_request::Terms;
use std::alloc::Global;
use std::io::Write;

/// Writes the plan of the bookings of an input, and on standard error a note on the accepted ones that may be too short to be carried on a
/// live line, where there are some. At a refusal nothing was written, except that where the output failed a prefix of a plan was. `Channels` and `Day` where the words name none, `Command` where the input cannot be opened, and `Run` where the
/// planning run is refused.
pub fn plan_file<'a, I: Inputs, W: Write, E: Write>(
    alloc: Global,
    inputs: &mut I,
    terms: &Terms<'_>,
    bookings: &'a str,
    output: &mut Watched<W>,
    errors: &mut Watched<E>,
) -> Result<(), FileFault<'a>>
    ensures planned { OnOk result (IsPlanNoted (I.gives inputs.old) terms.now bookings.now
        (writing_of W.contents output.old output.new) (writing_of E.contents errors.old errors.new)) }
    ensures silent { IsErr result → errors.new ≡ errors.old }
    ensures refused { IfErr result (IsPlanRefusal (I.gives inputs.old) terms.now bookings.now W.contents output.old output.new) }
{
    let (channels, day) = channels_and_day(terms)?;
    let mut input = inputs.open(bookings)?;
    match plan_run(alloc, &mut input, output, &day, channels) {
        Ok(plan) => {
            note_too_short(&plan, errors);
            Ok(())
        }
        Err(fault) => Err(FileFault::Run(fault)),
    }
}

/// Checks the plan of one input against the bookings of another, and writes `proved `, the total and LF. At a refusal nothing was
/// written, except that where the output failed a prefix of that line was. `Channels` and `Day` where the words name none, `Book`
/// where the first input has no booking text, and `Command` for all else.
pub fn check_file<'a, I: Inputs, W: Write>(
    alloc: Global,
    inputs: &mut I,
    terms: &Terms<'_>,
    bookings: &'a str,
    plan: &'a str,
    output: &mut Watched<W>,
) -> Result<(), FileFault<'a>>
    ensures checked { OnOk result (IsChecked (I.gives inputs.old) terms.now bookings.now plan.now (writing_of W.contents output.old output.new)) }
    ensures refused { IfErr result (IsCheckRefusal (I.gives inputs.old) terms.now bookings.now plan.now W.contents output.old output.new) }
{
    let (channels, day) = channels_and_day(terms)?;
    let rows = bookings_named(alloc, inputs, bookings, &day)?;
    check_named(alloc, inputs, plan, &rows, channels, output)
}

/// Checks the plan of the input of this name against these bookings and channels, and writes the line of its total.
fn check_named<'a, I: Inputs, W: Write>(
    alloc: Global,
    inputs: &mut I,
    plan: &'a str,
    rows: &Bookings,
    channels: ChannelSet,
    output: &mut Watched<W>,
) -> Result<(), FileFault<'a>>
    ensures checked { OnOk result (IsCheckedFor (I.gives inputs.old) rows.now channels plan.now (writing_of W.contents output.old output.new)) }
    ensures refused { IfErr result (IsNotCheckedFor (I.gives inputs.old) rows.now channels plan.now W.contents output.old output.new) }
{
    let mut input = inputs.open(plan)?;
    let _total = check_against(alloc, plan, rows, channels, &mut input, output)?;
    Ok(())
}

/// Writes the plan that holds all that the plan of one input accepts, for its bookings and those of another, and on standard error
/// the note of `plan_file`. At a refusal nothing was written, except that where the output failed a prefix of such a plan was. `Day` where the words name none,
/// `Command` where there is no plan of the first input or the second is not read, `Book` where that has no booking text, and
/// `Amend` where nothing was amended.
pub fn amend_file<'a, I: Inputs, W: Write, E: Write>(
    alloc: Global,
    inputs: &mut I,
    day: (&str, &str),
    plan: &'a str,
    bookings: &'a str,
    output: &mut Watched<W>,
    errors: &mut Watched<E>,
) -> Result<(), FileFault<'a>>
    ensures held { OnOk result (IsHeldNoted (I.gives inputs.old) day.entry.0.now day.entry.1.now plan.now bookings.now
        (writing_of W.contents output.old output.new) (writing_of E.contents errors.old errors.new)) }
    ensures silent { IsErr result → errors.new ≡ errors.old }
    ensures refused { IfErr result (IsNotAmended (I.gives inputs.old) day.entry.0.now day.entry.1.now plan.now bookings.now W.contents output.old output.new) }
{
    let day = day_of(day.0, day.1)?;
    let earlier = plan_named(alloc, inputs, plan)?;
    amend_with(alloc, inputs, &day, &earlier, bookings, output, errors)
}

/// Writes the plan that holds all that the earlier one accepts, for its bookings and those of the day in the input of this name,
/// and the note on standard error.
fn amend_with<'a, I: Inputs, W: Write, E: Write>(
    alloc: Global,
    inputs: &mut I,
    day: &Day,
    earlier: &Plan,
    bookings: &'a str,
    output: &mut Watched<W>,
    errors: &mut Watched<E>,
) -> Result<(), FileFault<'a>>
    ensures held { OnOk result (IsHeldWith (I.gives inputs.old) day.now (parts_of earlier.now) bookings.now
        (writing_of W.contents output.old output.new) (writing_of E.contents errors.old errors.new)) }
    ensures silent { IsErr result → errors.new ≡ errors.old }
    ensures refused { IfErr result (IsNotAmendedWith (I.gives inputs.old) day.now (parts_of earlier.now) bookings.now W.contents output.old output.new) }
{
    let more = bookings_named(alloc, inputs, bookings, day)?;
    match write_amended(alloc, earlier, &more, output) {
        Ok(amended) => {
            note_too_short(&amended, errors);
            Ok(())
        }
        Err(fault) => Err(FileFault::Amend(fault)),
    }
}
