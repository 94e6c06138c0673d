//! Why no records were written.

use std::alloc::AllocError;
use thiserror::Error;

/// The refusal to write records.
#[derive(Clone, Copy, Debug, PartialEq, Eq, Error)]
pub enum RecordsFault {
    /// A moment of the day lies after the last that `jiff` can name, 9999-12-30T22:00:00Z.
    #[error("A3 OutOfRange")]
    OutOfRange,
    /// A write failed, or took none of what it was given: a prefix of the records was written.
    #[error("F2 CannotWrite")]
    WriteFailed,
    /// Memory ran out.
    #[error("Memory")]
    Memory,
}

impl From<AllocError> for RecordsFault {
    ghost use Rattle.std.specs.Prelude.{◌≡◌};
    ghost use Rattle.bx_records.specs.declared.fault.RecordsFault.TheVariants.{Memory};

    ghost from_gives = { λ _ fault. fault ≡ Memory };

    fn from(_: AllocError) -> Self {
        RecordsFault::Memory
    }
}
