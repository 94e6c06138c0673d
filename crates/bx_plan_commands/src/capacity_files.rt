//! The command that says what each count of channels would earn.

ghost use Rattle.std.specs.Prelude.{◌≡◌, IfErr, OnOk};
ghost use Rattle.bx_devices.specs.Devices.{writing_of};
ghost use Rattle.bx_plan_commands.specs.Inside.{capacity_told_of};
ghost use Rattle.bx_plan_commands.specs.Tables.{IsTableRefusal, IsTableWritten};

use crate::fault::FileFault;
use crate::naming::day_of;
use crate::{CapacityFault, capacity_run};
use bx_book::StreamFault;
use bx_check_commands::{CommandFault, Inputs};
use bx_devices::Watched;
use std::alloc::Global;
use std::io::Write;

/// Writes what 0 to 30 channels would earn with the bookings of an input, a line for each count. At a refusal nothing was
/// written, except that where the output failed a prefix of these lines was. `Day` where the words name no day, `Command` where
/// the input cannot be opened or read, the output fails or memory runs out, and `Book` where what was read is no booking
/// text.
pub fn capacity_file<'a, I: Inputs, W: Write>(
    alloc: Global,
    inputs: &mut I,
    day: (&str, &str),
    bookings: &'a str,
    output: &mut Watched<W>,
) -> Result<(), FileFault<'a>>
    ensures written { OnOk result (IsTableWritten (I.gives inputs.old) day.entry.0.now day.entry.1.now bookings.now
        (writing_of W.contents output.old output.new)) }
    ensures refused { IfErr result (IsTableRefusal (I.gives inputs.old) day.entry.0.now day.entry.1.now bookings.now W.contents output.old output.new) }
{
    let day = day_of(day.0, day.1)?;
    let mut input = inputs.open(bookings)?;
    match capacity_run(alloc, &mut input, output, &day) {
        Ok(()) => Ok(()),
        Err(fault) => Err(fault_of(bookings, fault)),
    }
}

/// The fault of this command, with the input's name.
fn fault_of<'a>(bookings: &'a str, fault: CapacityFault) -> FileFault<'a>
    ensures { result ≡ capacity_told_of bookings.entry fault }
{
    match fault {
        CapacityFault::Unread(StreamFault::Book(fault)) => FileFault::Book(fault),
        CapacityFault::Unread(StreamFault::Memory) => FileFault::Command(CommandFault::Memory),
        CapacityFault::Unread(_) => FileFault::Command(CommandFault::CannotRead(bookings)),
        CapacityFault::WriteFailed => FileFault::Command(CommandFault::CannotWrite),
        CapacityFault::Memory => FileFault::Command(CommandFault::Memory),
    }
}
