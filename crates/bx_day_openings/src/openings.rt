//! How a day opens: how long it is to run, and its far end from a script.

ghost use Rattle.std.specs.Prelude.{◌≡◌, ◌≤◌, ◌<◌, ◌+◌, length, if◌then◌else◌, IfOk, IfErr};
ghost use Rattle.bx_base.specs.Bookings.{row_at};
ghost use Rattle.bx_base.specs.Plans.{is_accepted};
ghost use Rattle.bx_devices.specs.Devices.{reading_of};
ghost use Rattle.bx_devices.specs.Watching.{device_of};
ghost use Rattle.bx_day_openings.specs.Inside.{IsNoScript};
ghost use Rattle.bx_day_openings.specs.OpeningRefusals.{IsNoFarEnd};
ghost use Rattle.bx_day_openings.specs.Openings.{IsLastOf, IsScriptRead, IsFarOpening};
ghost use Rattle.bx_base.specs.declared.booking.TheConstants.{MAX_MOMENT};
ghost use Rattle.bx_calls.specs.Timers.{clearing_time};

use crate::fault::DayCommandFault;
use bx_base::Plan;
use bx_calls::timers::{T305, T308};
use bx_check_commands::{CommandFault, Inputs};
use bx_devices::{ReadFault, Watched, read_octets};
use bx_far::{Far, Script, ScriptFault};
use std::alloc::Global;
use std::io::Read;

/// How many seconds a call can outlive its booking: T305, and T308 twice.
pub const AFTER_THE_LAST: u32 = T305 + 2 * T308;

/// The moment from which on the call of the booking at this place is over: 1 where it is not accepted.
fn over_from(plan: &Plan, index: u16) -> u32
    requires { index < length plan.now.bookings }
    ensures limit { (1 ≤ result) × (result ≤ MAX_MOMENT + clearing_time) }
    ensures over { result ≡ (if is_accepted plan.now.assigned.items index then (row_at plan.now.bookings index).end + clearing_time else 1) }
{
    match plan.assigned[index as usize] {
        Some(_) => plan.bookings.nth(index).end() + AFTER_THE_LAST,
        None => 1,
    }
}

/// How many turns it takes until the call of each accepted booking is over: 1 where none is accepted.
pub fn turns_of(plan: &Plan) -> u32
    ensures { IsLastOf plan.now.bookings plan.now.assigned.items (length plan.now.bookings) result }
{
    let mut turns = 1;
    for index in 0..plan.bookings.len() {
        turns = turns.max(over_from(plan, index));
    }
    turns
}

/// The script whose text is read to the end of an input of this name.
fn script_from<'a, R: Read>(
    alloc: Global,
    name: &'a str,
    input: &mut Watched<R>,
) -> Result<Script, DayCommandFault<'a>>
    ensures found { IfOk result (IsScriptRead (R.remaining (device_of input.old))) }
    ensures none { IfErr result (IsNoScript name.now (reading_of R.remaining input.old input.new)) }
{
    let text = match read_octets(alloc, input) {
        Ok(text) => text,
        Err(ReadFault::Memory) => return Err(DayCommandFault::Command(CommandFault::Memory)),
        Err(_) => return Err(DayCommandFault::Command(CommandFault::CannotRead(name))),
    };
    match Script::read(alloc, &text) {
        Ok(script) => Ok(script),
        Err(ScriptFault::Memory) => Err(DayCommandFault::Command(CommandFault::Memory)),
        Err(fault) => Err(DayCommandFault::Script(fault)),
    }
}

/// The far end at the opening of its day by the script of an input. `Command` where the input cannot be read, or memory ran
/// out; `Script` where it holds no script.
pub fn far_end_of<'a, I: Inputs>(
    alloc: Global,
    inputs: &mut I,
    name: &'a str,
) -> Result<Far, DayCommandFault<'a>>
    ensures opened { IfOk result IsFarOpening }
    ensures refused { IfErr result (IsNoFarEnd name.now) }
{
    let mut input = inputs.open(name)?;
    let script = script_from(alloc, name, &mut input)?;
    Ok(Far::new(script))
}
