//! Journals that are followed to their ends.

ghost use Rattle.std.specs.Prelude.{◌≡◌};
ghost use Rattle.bx_day_openings.specs.Answers.{told_of};

use crate::DayCommandFault;
use bx_check_commands::CommandFault;
use bx_journal::JournalFault;

/// How a command tells of a journal of this name that was read. One that was not begun is empty. `ReadFailed` is told as `Command`,
/// as `CannotRead` of that name; the other faults as `Journal`.
pub fn journal_read<'a>(
    name: &'a str,
    whole: Result<u64, JournalFault>,
) -> Result<(), DayCommandFault<'a>>
    ensures { result ≡ told_of name.entry whole }
{
    match whole {
        Ok(_) => Ok(()),
        Err(JournalFault::NotBegun) => Ok(()),
        Err(JournalFault::ReadFailed) => {
            Err(DayCommandFault::Command(CommandFault::CannotRead(name)))
        }
        Err(fault) => Err(DayCommandFault::Journal(fault)),
    }
}
