//! Whether accepted rows keep apart on their channels, by one sort.

ghost use Rattle.std.specs.Prelude.{◌<◌, ◌-◌, ℕ, IsTrue, IfSome, IfNone, length};
ghost use Rattle.bx_base.specs.Plans.{Clash, AreApartBefore, AreClashing};
ghost use Rattle.bx_check.specs.Seats.{AreSeats};

use arrayvec::ArrayVec;
use bx_base::{MAX_BOOKINGS, Plan};

/// The channel, the start and the index of each accepted row. They stand on the stack, since a check takes no memory.
type Seats = ArrayVec<(u8, u32, u16), MAX_BOOKINGS>;

/// The seats in the order of the rows.
fn seats_of(plan: &Plan) -> Seats
    ensures { AreSeats plan.now.bookings plan.now.assigned.items (length plan.now.bookings) result.items }
{
    let mut seats = ArrayVec::new();
    for i in 0..plan.bookings.len() {
        if let Some(channel) = plan.assigned[i as usize] {
            seats.push((channel.number(), plan.bookings.nth(i).start(), i));
        }
    }
    seats
}

/// Whether no two accepted rows overlap on one channel: by channel and start, each ends before the next one starts.
fn are_apart(plan: &Plan) -> bool
    ensures { IsTrue result → (i k : ℕ) → i < k → k < length plan.now.bookings → ¬ Clash plan.now.bookings plan.now.assigned.items i k }
{
    let mut seats = seats_of(plan);
    let sorted = seats.as_mut_slice();
    sorted.sort_unstable();
    for k in 1..sorted.len() {
        let (channel, _, row) = sorted[k - 1];
        let (next, start, _) = sorted[k];
        if channel == next && plan.bookings.nth(row).end() > start {
            return false;
        }
    }
    true
}

/// The first two rows that overlap on one channel: the least first row, and for it the least second. Compares rows in pairs
/// only where two overlap.
pub(crate) fn first_overlap(plan: &Plan) -> Option<(u16, u16)>
    ensures some { IfSome result (AreClashing plan.now.bookings plan.now.assigned.items) }
    ensures least_first { IfSome result (λ p. AreApartBefore plan.now.bookings plan.now.assigned.items (p.0 - 1)) }
    ensures least_second { IfSome result (λ p. (k : ℕ) → p.0 - 1 < k → k < p.1 - 1 → ¬ Clash plan.now.bookings plan.now.assigned.items (p.0 - 1) k) }
    ensures none { IfNone result ((i k : ℕ) → i < k → k < length plan.now.bookings → ¬ Clash plan.now.bookings plan.now.assigned.items i k) }
{
    if are_apart(plan) {
        return None;
    }
    plan.first_overlap()
}
