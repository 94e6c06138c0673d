//! Why a command on files was refused.

use crate::{AmendFault, RunFault};
use bx_base::ChannelFault;
use bx_book::BookFault;
use bx_calendar::DayFault;
use bx_chart::ChartFault;
use bx_check_commands::CommandFault;
use bx_planner::QuoteFault;
use thiserror::Error;

/// The refusal of a command on files.
#[derive(Clone, Copy, Debug, PartialEq, Eq, Error)]
pub enum FileFault<'a> {
    /// A file of this name was not opened or not read, it holds no plan or none that is proved, the output failed, or memory ran out.
    #[error(transparent)]
    Command(CommandFault<'a>),
    /// A number of the list of channels is no B channel, or stands there twice.
    #[error(transparent)]
    Channels(ChannelFault),
    /// The date and the zone name no day.
    #[error(transparent)]
    Day(DayFault),
    /// What was read is no booking text of the day.
    #[error(transparent)]
    Book(BookFault),
    /// The planning run was refused.
    #[error(transparent)]
    Run(RunFault),
    /// The plan was not amended.
    #[error(transparent)]
    Amend(AmendFault),
    /// No quote was written.
    #[error(transparent)]
    Quote(QuoteFault),
    /// No picture was written.
    #[error(transparent)]
    Chart(ChartFault),
}

impl<'a> From<CommandFault<'a>> for FileFault<'a> {
    ghost use Rattle.std.specs.Prelude.{◌≡◌};
    ghost use Rattle.bx_plan_commands.specs.declared.fault.FileFault.TheVariants.{Command};

    ghost from_gives = { λ fault told. told ≡ Command fault };

    fn from(fault: CommandFault<'a>) -> FileFault<'a> {
        FileFault::Command(fault)
    }
}

impl<'a> From<DayFault> for FileFault<'a> {
    ghost use Rattle.std.specs.Prelude.{◌≡◌};
    ghost use Rattle.bx_plan_commands.specs.declared.fault.FileFault.TheVariants.{Day};

    ghost from_gives = { λ fault told. told ≡ Day fault };

    fn from(fault: DayFault) -> FileFault<'a> {
        FileFault::Day(fault)
    }
}

impl<'a> From<BookFault> for FileFault<'a> {
    ghost use Rattle.std.specs.Prelude.{◌≡◌};
    ghost use Rattle.bx_plan_commands.specs.declared.fault.FileFault.TheVariants.{Book};

    ghost from_gives = { λ fault told. told ≡ Book fault };

    fn from(fault: BookFault) -> FileFault<'a> {
        FileFault::Book(fault)
    }
}

impl<'a> From<QuoteFault> for FileFault<'a> {
    ghost use Rattle.std.specs.Prelude.{◌≡◌};
    ghost use Rattle.bx_plan_commands.specs.declared.fault.FileFault.TheVariants.{Quote};

    ghost from_gives = { λ fault told. told ≡ Quote fault };

    fn from(fault: QuoteFault) -> FileFault<'a> {
        FileFault::Quote(fault)
    }
}
