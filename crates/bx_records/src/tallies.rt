//! Bookings of a day, as they are counted.

ghost use Rattle.std.specs.Prelude.{◌≡◌, ◌+◌, ◌<◌, ◌≤◌, if◌then◌else◌};
ghost use Rattle.bx_base.specs.declared.booking.TheConstants.{MAX_PAY};
ghost use Rattle.bx_base.specs.declared.bookings.TheConstants.{MAX_BOOKINGS};
ghost use Rattle.bx_base.specs.declared.plan.TheConstants.{MAX_TOTAL};

use bx_day::Entry;

/// Bookings of a day: how many there are, and what they pay together.
#[derive(Clone, Copy)]
pub struct Tally {
    pub count: u64,
    pub pay: u64,
}

impl Tally {
    /// None is counted yet.
    pub const NONE: Tally = Tally { count: 0, pay: 0 };

    /// Counts a booking, if it is one of them. So many as a day has of them, and what these may pay, can be counted.
    pub fn count(&mut self, entry: &Entry, is_one: bool)
        requires count { self.old.count < MAX_BOOKINGS }
        requires pay { self.old.pay ≤ MAX_TOTAL }
        ensures count { self.new.count ≡ self.old.count + (if is_one then 1 else 0) }
        ensures pay { self.new.pay ≡ self.old.pay + (if is_one then entry.now.booking.pay else 0) }
        ensures limit { self.new.pay ≤ self.old.pay + MAX_PAY }
    {
        if is_one {
            self.count += 1;
            self.pay += entry.booking.pay();
        }
    }
}
