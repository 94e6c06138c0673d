//! Files that are opened by their names.

ghost use Rattle.std.specs.Prelude.{ℕ, List, IfOk, IfErr};
ghost use Rattle.bx_check_commands.specs.PlanFiles.{IsUnopened};
ghost use Rattle.bx_devices.specs.Watching.{device_of};

use bx_check_commands::{CommandFault, open};
use bx_devices::Watched;
use std::fs::Files;

/// A system whose files are opened by their names: one call of its own.
pub trait Opens: Files {
    /// It has opened this file by this name, to be read from its beginning.
    ghost opens: { Self → List ℕ → Self.File → Type 0 };

    /// The file of this name, to be read. `CannotRead` with the name where it cannot be opened.
    fn open_named<'a>(&self, name: &'a str) -> Result<Watched<Self::File>, CommandFault<'a>>
        ensures opened { IfOk result (λ file. opens self.now name.now (device_of file)) }
        ensures unopened { IfErr result (IsUnopened name.now) };
}

impl<H: Files + Eprint> Opens for H {
    ghost opens = { λ system name file. Unit {0} };

    fn open_named<'a>(&self, name: &'a str) -> Result<Watched<H::File>, CommandFault<'a>> {
        open(self, name)
    }
}
