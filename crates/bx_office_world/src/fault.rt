//! Why there is no answer.

use bx_book::BookFault;
use bx_planner::NoQuote;
use std::alloc::AllocError;

/// Why there is no answer. Each is told as the command prints it; `NoTimes` and `NoLength`, which no command has, in plain words.
#[derive(Clone, Copy, Debug, PartialEq, Eq)]
pub enum NoAnswer {
    /// A time of the records is outside the range of `jiff`.
    OutOfRange,
    /// At this moment more must bookings run than there are channels.
    TooManyMust(u32),
    /// The query of a quote has no start, or no end.
    NoTimes,
    /// The query of free times has no length, or one that is none.
    NoLength,
    /// The times of a call are none.
    Book(BookFault),
    /// There is no quote.
    Quote(NoQuote),
    /// Memory ran out.
    Memory,
}

impl From<AllocError> for NoAnswer {
    ghost use Rattle.std.specs.Prelude.{◌≡◌};
    ghost use Rattle.bx_office_world.specs.declared.fault.NoAnswer.TheVariants.{Memory};

    ghost from_gives = { λ _ fault. fault ≡ Memory };

    fn from(_: AllocError) -> Self {
        NoAnswer::Memory
    }
}
