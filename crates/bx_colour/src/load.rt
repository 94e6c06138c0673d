//! How many bookings of a set run at each moment.

ghost use Rattle.std.specs.Prelude.{◌≡◌, ◌≤◌, ◌<◌, ◌+◌, ◌↔◌, ℕ, length, Some, IfNone, if◌then◌else◌};
ghost use Rattle.std.specs.List.Sorted.{IsNonDecreasing};
ghost use Rattle.bx_base.specs.Bookings.{is_running};
ghost use Rattle.bx_colour.specs.Above.{IsFirstAbove};
ghost use Rattle.bx_colour.specs.Counted.{counted_to, running_between};

use arrayvec::ArrayVec;
use bx_base::{Booking, MAX_BOOKINGS};

/// The most bookings of a load: those of a plan, and as many that are asked for beside it.
pub const MAX_LOAD: usize = 2 * MAX_BOOKINGS;

/// Moments of the bookings of a set: one each.
type Moments = ArrayVec<u32, MAX_LOAD>;

/// How many bookings of a set run at each moment of the day, by the moments at which they start and end. Takes no memory beyond its
/// own 0.3 MB, however long the day is.
#[derive(Drop)]
pub struct Load {
    starts: Moments,
    ends: Moments,
    ghost one_each: { length starts.items ≡ length ends.items },
    ghost ordered: { (t : ℕ) → counted_to ends.items t ≤ counted_to starts.items t },
}

impl Load {
    ghost use Rattle.bx_colour.specs.Loads.{load_at, size_of};

    /// No bookings.
    pub fn none() -> Load
        ensures each { (t : ℕ) → load_at result t ≡ 0 }
        ensures size { size_of result ≡ 0 }
    {
        Load {
            starts: ArrayVec::new(),
            ends: ArrayVec::new(),
        }
    }

    /// One booking more, where fewer than 32,000 were added.
    pub fn add(&mut self, booking: &Booking)
        requires { size_of self.old < MAX_LOAD }
        ensures each { (t : ℕ) → load_at self.new t ≡ load_at self.old t + (if is_running booking.now t then 1 else 0) }
        ensures size { size_of self.new ≡ size_of self.old + 1 }
    {
        self.starts.push(booking.start());
        self.ends.push(booking.end());
    }

    /// The first moment at which more run than so many: it is a start. Sorts what was added, which no call sees.
    pub fn first_above(&mut self, limit: u8) -> Option<u32>
        ensures first { (t : ℕ) → (result ≡ Some t) ↔ ((limit < load_at self.old t) × ((s : ℕ) → s < t → load_at self.old s ≤ limit)) }
        ensures none { IfNone result ((t : ℕ) → load_at self.old t ≤ limit) }
        ensures same { (t : ℕ) → load_at self.new t ≡ load_at self.old t }
    {
        sort(&mut self.starts);
        sort(&mut self.ends);
        first_between(self.starts.as_slice(), self.ends.as_slice(), limit)
    }
}

/// Sorts moments.
fn sort(moments: &mut Moments)
    ensures size { length moments.new.items ≡ length moments.old.items }
    ensures counted { (t : ℕ) → counted_to moments.new.items t ≡ counted_to moments.old.items t }
    ensures rising { IsNonDecreasing moments.new.items }
{
    let sorted = moments.as_mut_slice();
    sorted.sort_unstable();
}

/// How many of these moments, which do not fall, have come by this one, of which so many have.
fn come_by(moments: &[u32], known: usize, moment: u32) -> usize
    requires rising { IsNonDecreasing moments.now }
    requires known { known ≤ counted_to moments.now moment }
    ensures { result ≡ counted_to moments.now moment }
{
    let mut count = known;
    while count < moments.len() {
        if moments[count] > moment {
            return count;
        }
        count += 1;
    }
    count
}

/// The first moment at which more have started, and not ended, than so many.
fn first_between(starts: &[u32], ends: &[u32], limit: u8) -> Option<u32>
    requires starts { IsNonDecreasing starts.now }
    requires ends { IsNonDecreasing ends.now }
    requires few { length starts.now ≤ MAX_LOAD }
    requires one_each { length ends.now ≤ MAX_LOAD }
    ensures first { (t : ℕ) → (result ≡ Some t) ↔ IsFirstAbove starts.now ends.now limit t }
    ensures none { IfNone result ((t : ℕ) → running_between starts.now ends.now t ≤ limit) }
{
    let mut ended = 0;
    for index in 0..starts.len() {
        let moment = starts[index];
        ended = come_by(ends, ended, moment);
        if index >= ended + limit as usize {
            return Some(moment);
        }
    }
    None
}
