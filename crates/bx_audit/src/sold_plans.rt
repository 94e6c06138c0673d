//! The command that writes the last plan of a day by its journal.

ghost use Rattle.std.specs.Prelude.{ℕ, IfErr, OnOk};
ghost use Rattle.bx_devices.specs.Devices.{writing_of};
ghost use Rattle.bx_planner.specs.Musts.{IsTooManyMust};
ghost use Rattle.bx_audit.specs.PlansOfDays.{rows_held_on};
ghost use Rattle.bx_audit.specs.LastPlans.{IsSoldTold};
ghost use Rattle.bx_audit.specs.Inside.{IsPlanWritten, IsPlanUnwritten};
ghost use Rattle.bx_audit.specs.Unsold.{IsSoldRefusal};

use crate::last_plans::last_plan;
use crate::told_days::{ToldDay, told_by};
use bx_check_commands::{CommandFault, Inputs};
use bx_day_openings::DayCommandFault;
use bx_devices::Watched;
use bx_planfile::write_plan;
use bx_request::SoldRequest;
use std::alloc::Global;
use std::io::Write;

/// Writes the text of the last plan of a day that was told.
fn write_last<'a, W: Write>(
    alloc: Global,
    day: &ToldDay,
    output: &mut Watched<W>,
) -> Result<(), DayCommandFault<'a>>
    requires { (t : ℕ) → IsTooManyMust (rows_held_on day.now.exchange) day.now.channels t → ⊥ }
    ensures written { OnOk result (IsPlanWritten day.now.exchange day.now.channels (writing_of W.contents output.old output.new)) }
    ensures unwritten { IfErr result (IsPlanUnwritten day.now.exchange day.now.channels W.contents output.old output.new) }
{
    let Ok(last) = last_plan(alloc, &day.exchange, day.channels) else {
        return Err(DayCommandFault::Command(CommandFault::Memory));
    };
    match write_plan(&last, output) {
        Ok(()) => Ok(()),
        Err(_) => Err(DayCommandFault::Command(CommandFault::CannotWrite)),
    }
}

/// Writes the text of the last plan of a day, by the plan of its morning and by its journal: of a day that has ended, or that is still running. It has the
/// bookings of the morning, and after them those that the journal says were sold, as accepted; each is as it was changed last, and what was given up is
/// refused, and need not be held. The channels are those that they have on that day. Prices prove it where nothing was given up or changed; else another
/// choice of these bookings may pay more, and its check then says `C7`. At a refusal nothing was written, except that where the output failed a prefix of the text was.
///
/// What is needed is opened in this order, and the first fault of it is answered: `Command` for the plan; `Command`, as `CannotRead`, `Journal`, as
/// `BadLine`, `OtherPlan` or `OtherRules`, or `Amendment` for the journal. Then `Command`, as `Memory` where memory ran out, and as
/// `CannotWrite` where the output failed.
pub fn sold_files<'a, I: Inputs, W: Write>(
    alloc: Global,
    inputs: &mut I,
    request: SoldRequest<'a>,
    output: &mut Watched<W>,
) -> Result<(), DayCommandFault<'a>>
    ensures done { OnOk result (IsSoldTold (I.gives inputs.old) request.entry (writing_of W.contents output.old output.new)) }
    ensures refused { IfErr result (IsSoldRefusal (I.gives inputs.old) request.entry W.contents output.old output.new) }
{
    let day = told_by(alloc, inputs, request.plan, request.journal)?;
    write_last(alloc, &day, output)
}
