//! Files that are read.

ghost use Rattle.std.specs.Prelude.{IfErr};
ghost use Rattle.bx_check_commands.specs.PlanFiles.{IsUnopened};

use crate::causes::tell_cause;
use crate::fault::CommandFault;
use bx_devices::Watched;
use std::fs;
use std::fs::Files;

/// The file of this name, to be read. `CannotRead` with the name where it cannot be opened.
pub fn open<'a, H: Files + Eprint>(
    rt: &H,
    name: &'a str,
) -> Result<Watched<H::File>, CommandFault<'a>>
    ensures { IfErr result (IsUnopened name.now) }
{
    match fs::open(rt, name) {
        Ok(file) => Ok(Watched::new(file)),
        Err(cause) => {
            tell_cause(rt, &name, &cause);
            Err(CommandFault::CannotRead(name))
        }
    }
}
