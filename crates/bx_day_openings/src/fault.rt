//! Why a day was not run, or not told.

use crate::amending::AmendmentFault;
use bx_calendar::DayFault;
use bx_capture::BeyondCapture;
use bx_check_commands::CommandFault;
use bx_devices::WriteFailed;
use bx_far::ScriptFault;
use bx_frames::LinkFault;
use bx_journal::JournalFault;
use std::alloc::AllocError;
use thiserror::Error;

/// The refusal of a command that runs a day, or tells one from its journal.
#[derive(Clone, Copy, Debug, PartialEq, Eq, Error)]
pub enum DayCommandFault<'a> {
    /// A file of this name was not opened or not read, it holds no plan or none that is proved, the output failed, or memory ran out.
    #[error(transparent)]
    Command(CommandFault<'a>),
    /// What was read is no script.
    #[error(transparent)]
    Script(ScriptFault),
    /// The date and the zone of a capture or of records name no day.
    #[error(transparent)]
    Day(DayFault),
    /// A capture cannot name the seconds of the day.
    #[error(transparent)]
    Capture(BeyondCapture),
    /// What was read is no journal of the plan.
    #[error(transparent)]
    Journal(JournalFault),
    /// The journal has a line that amends the plan, and is none of its day.
    #[error(transparent)]
    Amendment(AmendmentFault),
    /// The port or the socket cannot be listened on, or no peer can be accepted.
    #[error("F3 CannotListen")]
    CannotListen,
    /// No exchange listens on the port or the socket.
    #[error("F4 CannotConnect")]
    CannotConnect,
    /// The file of this name, which a capture or records are to be written to, cannot be created, or a write of it failed.
    #[error("F5 CannotWrite {0}")]
    CannotWriteFile(&'a str),
    /// The session of the day ended before the day did.
    #[error(transparent)]
    Link(LinkFault),
}

impl<'a> From<CommandFault<'a>> for DayCommandFault<'a> {
    ghost use Rattle.std.specs.Prelude.{◌≡◌};
    ghost use Rattle.bx_day_openings.specs.declared.fault.DayCommandFault.TheVariants.{Command};

    ghost from_gives = { λ fault told. told ≡ Command fault };

    fn from(fault: CommandFault<'a>) -> DayCommandFault<'a> {
        DayCommandFault::Command(fault)
    }
}

impl<'a> From<DayFault> for DayCommandFault<'a> {
    ghost use Rattle.std.specs.Prelude.{◌≡◌};
    ghost use Rattle.bx_day_openings.specs.declared.fault.DayCommandFault.TheVariants.{Day};

    ghost from_gives = { λ fault told. told ≡ Day fault };

    fn from(fault: DayFault) -> DayCommandFault<'a> {
        DayCommandFault::Day(fault)
    }
}

impl<'a> From<BeyondCapture> for DayCommandFault<'a> {
    ghost use Rattle.std.specs.Prelude.{◌≡◌};
    ghost use Rattle.bx_day_openings.specs.declared.fault.DayCommandFault.TheVariants.{Capture};

    ghost from_gives = { λ fault told. told ≡ Capture fault };

    fn from(fault: BeyondCapture) -> DayCommandFault<'a> {
        DayCommandFault::Capture(fault)
    }
}

impl<'a> From<AmendmentFault> for DayCommandFault<'a> {
    ghost use Rattle.std.specs.Prelude.{◌≡◌};
    ghost use Rattle.bx_day_openings.specs.declared.fault.DayCommandFault.TheVariants.{Amendment};

    ghost from_gives = { λ fault told. told ≡ Amendment fault };

    fn from(fault: AmendmentFault) -> DayCommandFault<'a> {
        DayCommandFault::Amendment(fault)
    }
}

impl<'a> From<AllocError> for DayCommandFault<'a> {
    ghost use Rattle.std.specs.Prelude.{◌≡◌};
    ghost use Rattle.bx_check_commands.specs.declared.fault.CommandFault.TheVariants.{Memory};
    ghost use Rattle.bx_day_openings.specs.declared.fault.DayCommandFault.TheVariants.{Command};

    ghost from_gives = { λ _ told. told ≡ Command Memory };

    fn from(_e: AllocError) -> DayCommandFault<'a> {
        DayCommandFault::Command(CommandFault::Memory)
    }
}

impl<'a> From<WriteFailed> for DayCommandFault<'a> {
    ghost use Rattle.std.specs.Prelude.{◌≡◌};
    ghost use Rattle.bx_check_commands.specs.declared.fault.CommandFault.TheVariants.{CannotWrite};
    ghost use Rattle.bx_day_openings.specs.declared.fault.DayCommandFault.TheVariants.{Command};

    ghost from_gives = { λ _ told. told ≡ Command CannotWrite };

    fn from(_e: WriteFailed) -> DayCommandFault<'a> {
        DayCommandFault::Command(CommandFault::CannotWrite)
    }
}
