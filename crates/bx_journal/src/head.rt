//! What a journal is of.

ghost use Rattle.std.specs.Prelude.{◌≡◌};

/// The number of the rules by which the events of a journal are replayed. A journal of other rules would tell another day, so no
/// exchange goes on with one. It is to be raised with each change of what an event does to a day.
pub const RULES: u32 = 3;

/// The number of the older rules by which a journal is still read where no day is wanted. Those of version 1 are the same.
pub const OLDER_RULES: u32 = 2;

/// What the day of a journal is.
#[derive(Clone, Copy, Debug, PartialEq, Eq)]
pub enum JournalDay {
    /// Its seconds are not those of a clock.
    Rehearsed,
    /// Moment 0 is at the first second of the clock, counted from 1970-01-01T00:00:00Z, and so many seconds of the day go by in one
    /// of the clock, at least 1.
    Live { first: u32, pace: u32 },
}

/// What a journal is of: a plan, by the SHA-256 digest of its text, and a day.
#[derive(Clone, Copy)]
pub struct Head {
    pub plan: [u8; 32],
    pub day: JournalDay,
}

/// What is wanted of a journal that is read: a plan, and, where an exchange is to go on with it, a day. Where no day is wanted,
/// a journal of each is read, also one by the older rules, as is one of version 1, which tells no day.
#[derive(Clone, Copy)]
pub struct Wanted {
    pub plan: [u8; 32],
    pub day: Option<JournalDay>,
}

impl Head {
    ghost use Rattle.bx_journal.specs.Heads.{wanted_of};

    /// A journal of this head is wanted, and no other.
    pub fn wanted(&self) -> Wanted
        ensures { result ≡ wanted_of self.now }
    {
        Wanted {
            plan: self.plan,
            day: Some(self.day),
        }
    }
}

impl Wanted {
    ghost use Rattle.bx_journal.specs.Heads.{of_any_day};

    /// A journal of the plan of this digest is wanted, of whatever day.
    pub fn of_any_day(plan: &[u8; 32]) -> Wanted
        ensures { result ≡ of_any_day plan.now }
    {
        Wanted {
            plan: *plan,
            day: None,
        }
    }
}
