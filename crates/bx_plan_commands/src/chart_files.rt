//! The command that draws a plan.

ghost use Rattle.std.specs.Prelude.{IfOk, IfErr, OnOk};
ghost use Rattle.bx_base.specs.PlanParts.{parts_of};
ghost use Rattle.bx_devices.specs.Devices.{writing_of};
ghost use Rattle.bx_plan_commands.specs.Inside.{IsProvedAlone, IsDrawnWith, IsNotDrawnWith};
ghost use Rattle.bx_plan_commands.specs.Pictures.{IsPictureClock, IsNoPictureClock, IsPictured, IsNotPictured};

use crate::fault::FileFault;
use bx_base::Plan;
use bx_calendar::Clock;
use bx_chart::write_chart;
use bx_check_commands::{CommandFault, Inputs, proved_named};
use bx_devices::Watched;
use bx_planner::next_gain;
use std::alloc::Global;
use std::io::Write;

/// The clock of the day that these words name, where one is named.
fn clock_of<'a>(day: Option<(&str, &str)>) -> Result<Option<Clock>, FileFault<'a>>
    ensures clock { IfOk result (IsPictureClock day.entry) }
    ensures none { IfErr result (IsNoPictureClock day.entry) }
{
    let Some((date, zone)) = day else {
        return Ok(None);
    };
    Ok(Some(Clock::new(date, zone)?))
}

/// Writes a picture of the plan of an input, with what one more channel would add to its total, of the day with this date and
/// zone where one is named. At a refusal nothing was written, except that where the output failed a prefix of the picture was.
/// `Day` where the words name no day, `Command` where there is no proved plan of the input or memory runs out, and `Chart`
/// where no picture was written.
pub fn chart_file<'a, I: Inputs, W: Write>(
    alloc: Global,
    inputs: &mut I,
    plan: &'a str,
    day: Option<(&str, &str)>,
    output: &mut Watched<W>,
) -> Result<(), FileFault<'a>>
    ensures drawn { OnOk result (IsPictured (I.gives inputs.old) day.entry plan.now (writing_of W.contents output.old output.new)) }
    ensures refused { IfErr result (IsNotPictured (I.gives inputs.old) day.entry plan.now W.contents output.old output.new) }
{
    let clock = clock_of(day)?;
    let plan = proved_named(alloc, inputs, plan)?;
    draw_plan(alloc, &plan, &clock, output)
}

/// Writes a picture of a plan that has to be proved for its own bookings, with what one more channel would add to its total, and the
/// hours of the clock where there is one.
fn draw_plan<'a, W: Write>(
    alloc: Global,
    plan: &Plan,
    clock: &Option<Clock>,
    output: &mut Watched<W>,
) -> Result<(), FileFault<'a>>
    requires proved { IsProvedAlone (parts_of plan.now) }
    ensures drawn { OnOk result (IsDrawnWith (parts_of plan.now) clock.now (writing_of W.contents output.old output.new)) }
    ensures refused { IfErr result (IsNotDrawnWith (parts_of plan.now) clock.now W.contents output.old output.new) }
{
    let Ok(gain) = next_gain(alloc, plan) else {
        return Err(FileFault::Command(CommandFault::Memory));
    };
    match write_chart(alloc, plan, gain, clock.as_ref(), output) {
        Ok(()) => Ok(()),
        Err(fault) => Err(FileFault::Chart(fault)),
    }
}
