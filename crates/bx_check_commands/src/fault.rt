//! Why a command was refused.

use bx_check::CheckFault;
use bx_planfile::PlanTextFault;
use bx_q931::MessageFault;
use thiserror::Error;

/// The refusal of a command over a reader and a writer.
#[derive(Clone, Copy, Debug, PartialEq, Eq, Error)]
pub enum CommandFault<'a> {
    /// A reader of this name failed, did not end within 8,388,608 reads, or has more than 4,194,304 octets.
    /// Standard input has the name `-`.
    #[error("F1 CannotRead {0}")]
    CannotRead(&'a str),
    /// The output failed, or took none of what was written.
    #[error("F2 CannotWrite")]
    CannotWrite,
    /// What was read is no plan text.
    #[error(transparent)]
    Plan(PlanTextFault),
    /// The plan is not proved.
    #[error(transparent)]
    Check(CheckFault),
    /// The word is not pairs of hexadecimal digits.
    #[error("H1 NotHex")]
    NotHex,
    /// The octets are no message.
    #[error(transparent)]
    Message(MessageFault),
    /// Memory ran out.
    #[error("Memory")]
    Memory,
}
