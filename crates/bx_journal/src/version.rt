//! The versions of a journal.

ghost use Rattle.std.specs.Prelude.{◌≡◌, ◌≤◌};

use bx_events::Rules;

/// A version, with the rules by which the events are replayed.
#[derive(Clone, Copy)]
pub enum Version {
    /// 1, whose head is two lines and tells no day, by the older rules.
    Undated,
    /// 2, whose head is three lines, by the older rules.
    Older,
    /// 2, by the rules of this program.
    Dated,
}

impl Version {
    ghost use Rattle.bx_journal.specs.Versions.{has_day, head_size, is_older, rules_of};

    /// Whether its head tells a day.
    pub(crate) fn has_day(self) -> bool
        ensures { result ≡ has_day self }
    {
        match self {
            Version::Undated => false,
            Version::Older => true,
            Version::Dated => true,
        }
    }

    /// Whether its events are replayed by the older rules.
    pub(crate) fn is_older(self) -> bool
        ensures { result ≡ is_older self }
    {
        match self {
            Version::Undated => true,
            Version::Older => true,
            Version::Dated => false,
        }
    }

    /// The rules by which its events are replayed.
    pub(crate) fn rules(self) -> Rules
        ensures { result ≡ rules_of self }
    {
        if self.is_older() {
            Rules::Two
        } else {
            Rules::Three
        }
    }

    /// How many lines its head has.
    pub(crate) fn head_size(self) -> u64
        ensures lines { result ≡ head_size self }
        ensures few { result ≤ 3 }
    {
        if self.has_day() { 3 } else { 2 }
    }
}
