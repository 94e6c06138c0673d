//! Bookings read from inputs.

ghost use Rattle.std.specs.Prelude.{ℕ, List, Option, IfOk, IfErr};
ghost use Rattle.bx_plan_commands.specs.FilePlans.{AreBookingsOf};
ghost use Rattle.bx_plan_commands.specs.FileRefusals.{HasNoBookings};

use crate::fault::FileFault;
use bx_base::Bookings;
use bx_book::{StreamFault, read_bookings_from};
use bx_calendar::Day;
use bx_check_commands::{CommandFault, Inputs};
use std::alloc::Global;

/// The bookings of the day in the input of this name.
pub(crate) fn bookings_named<'a, I: Inputs>(
    alloc: Global,
    inputs: &mut I,
    name: &'a str,
    day: &Day,
) -> Result<Bookings, FileFault<'a>>
    ensures found { IfOk result (AreBookingsOf (I.gives inputs.old) name.now day.now) }
    ensures none { IfErr result (HasNoBookings (I.gives inputs.old) name.now day.now) }
    ensures no_more { (other : List ℕ) (text : Option (List ℕ)) → I.gives inputs.new other text → I.gives inputs.old other text }
{
    let mut input = inputs.open(name)?;
    match read_bookings_from(alloc, &mut input, day) {
        Ok(bookings) => Ok(bookings),
        Err(StreamFault::Book(fault)) => Err(FileFault::Book(fault)),
        Err(StreamFault::Memory) => Err(FileFault::Command(CommandFault::Memory)),
        Err(_) => Err(FileFault::Command(CommandFault::CannotRead(name))),
    }
}
