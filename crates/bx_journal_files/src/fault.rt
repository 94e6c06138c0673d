//! Why a day that is logged was not run to its end.

ghost use Rattle.std.specs.Prelude.{◌≡◌, true, is_some};
ghost use Rattle.bx_journal_files.specs.Lasting.{does_amendment_last, does_command_last, does_journal_last, does_last, does_opening_last};
ghost use Rattle.bx_journal_files.specs.OpeningFaults.{IsUnlogged};

use bx_check_commands::CommandFault;
use bx_day_openings::{AmendmentFault, DayCommandFault};
use bx_journal::JournalFault;
use thiserror::Error;

/// The refusal of a command that runs a day with what happens logged.
#[derive(Clone, Copy, Debug, PartialEq, Eq, Error)]
pub enum LiveFault<'a> {
    /// What is needed was not opened, or the day was not told.
    #[error(transparent)]
    Day(DayCommandFault<'a>),
    /// The journal of this name, which is to be a new one, is there and not empty.
    #[error("J3 NotEmpty {0}")]
    NotEmpty(&'a str),
    /// Another program writes the journal of this name.
    #[error("J6 InUse {0}")]
    InUse(&'a str),
    /// What is to be the journal of this name is no plain file.
    #[error("J7 NotAFile {0}")]
    NotAFile(&'a str),
    /// The journal of this name cannot be opened to write it, or a write, a cut or a sync of it failed.
    #[error("J4 CannotRecord {0}")]
    CannotRecord(&'a str),
    /// The day has no more seconds, and a call is up.
    #[error("L10 StillUp")]
    StillUp,
}

impl<'a> LiveFault<'a> {
    /// Whether a start again, with the same words, cannot mend it: the words name no day, the plan is none or is not proved,
    /// the journal is no file or none of this plan, this day and these rules, or the day has no more seconds. Whoever starts
    /// the exchange again and again need not do so.
    pub fn does_last(self) -> bool
        ensures { result ≡ does_last self.entry }
    {
        match self {
            LiveFault::Day(fault) => does_opening_last(fault),
            LiveFault::NotAFile(_) | LiveFault::StillUp => true,
            LiveFault::NotEmpty(_) | LiveFault::InUse(_) | LiveFault::CannotRecord(_) => false,
        }
    }
}

/// The same of a fault of the day's opening.
fn does_opening_last(fault: DayCommandFault<'_>) -> bool
    ensures { result ≡ does_opening_last fault.entry }
{
    match fault {
        DayCommandFault::Command(fault) => does_command_last(fault),
        DayCommandFault::Day(_) | DayCommandFault::Capture(_) => true,
        DayCommandFault::Journal(fault) => does_journal_last(fault),
        DayCommandFault::Amendment(fault) => does_amendment_last(fault),
        DayCommandFault::Script(_)
        | DayCommandFault::CannotListen
        | DayCommandFault::CannotConnect
        | DayCommandFault::CannotWriteFile(_)
        | DayCommandFault::Link(_) => false,
    }
}

/// The same of what is wrong with the plan's file.
fn does_command_last(fault: CommandFault<'_>) -> bool
    ensures { result ≡ does_command_last fault.entry }
{
    matches!(fault, CommandFault::Plan(_) | CommandFault::Check(_))
}

/// The same of what is wrong with the journal.
fn does_journal_last(fault: JournalFault) -> bool
    ensures { result ≡ does_journal_last fault }
{
    !matches!(fault, JournalFault::NotBegun | JournalFault::ReadFailed)
}

/// The same of a line of the journal that amends the plan.
fn does_amendment_last(fault: AmendmentFault) -> bool
    ensures { result ≡ does_amendment_last fault }
{
    !matches!(fault, AmendmentFault::Memory)
}

impl<'a> From<DayCommandFault<'a>> for LiveFault<'a> {
    ghost use Rattle.std.specs.Prelude.{◌≡◌};
    ghost use Rattle.bx_journal_files.specs.declared.fault.LiveFault.TheVariants.{Day as OfDay};

    ghost from_gives = { λ fault told. told ≡ OfDay fault };

    fn from(fault: DayCommandFault<'a>) -> LiveFault<'a> {
        LiveFault::Day(fault)
    }
}

/// The fault by which something cannot be logged in a journal that is kept.
pub fn unlogged<'a>(journal: Option<&'a str>) -> LiveFault<'a>
    requires { is_some journal ≡ true }
    ensures { IsUnlogged journal.entry result }
{
    match journal {
        Some(name) => LiveFault::CannotRecord(name),
        None => unreachable!(),
    }
}
