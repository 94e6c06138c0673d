//! When the seconds of a live day begin.

ghost use Rattle.std.specs.Prelude.{◌≡◌, ◌≤◌};

/// A second of the clock, in nanoseconds.
pub const SECOND: u128 = 1_000_000_000;

/// When each second of a day begins, by the second of the clock at which moment 0 is, counted from 1970-01-01T00:00:00Z, and by how
/// many seconds of the day are one of the clock.
#[derive(Clone, Copy)]
pub struct Schedule {
    first: u64,
    pace: u32,
    ghost limit: { 1 ≤ pace },
}

impl Schedule {
    ghost use Rattle.bx_live.specs.Schedules.{instant_of_second, first_instant_of, pace_of};

    /// The schedule of a day whose moment 0 is this second of the clock, and of which so many seconds, at least one, are one of the
    /// clock.
    pub fn new(first: u64, pace: u32) -> Self
        requires { 1 ≤ pace }
        ensures first { first_instant_of result ≡ first }
        ensures pace { pace_of result ≡ pace }
    {
        Schedule { first, pace }
    }

    /// The instant of a second of the day, in nanoseconds since 1970-01-01T00:00:00Z.
    pub fn instant(&self, second: u32) -> u128
        ensures { result ≡ instant_of_second self.now second }
    {
        u128::from(self.first) * SECOND + u128::from(second) * SECOND / u128::from(self.pace)
    }
}
