//! Moments at which more bookings have to be held than there are channels.

ghost use Rattle.std.specs.Prelude.{◌≡◌, ◌↔◌, ◌<◌, ℕ, Some, false, length};
ghost use Rattle.bx_base.specs.Bookings.{row_at};
ghost use Rattle.bx_colour.specs.Loads.{load_at};
ghost use Rattle.bx_planner.specs.Musts.{musts_at, IsTooManyMust};

use crate::demand::Demand;
use bx_base::ChannelSet;
use bx_colour::Load;

/// The first moment at which more bookings run that each plan has to hold than there are channels. It is the start
/// of one of them. Takes no memory but that of a `Load`; time linear in the bookings, and n log n in those that have to be held.
pub(crate) fn too_many_must(demand: &Demand<'_>, channels: ChannelSet) -> Option<u32>
    ensures { (t : ℕ) → (result ≡ Some t) ↔ IsTooManyMust demand.now channels t }
{
    if !has_must(demand) {
        return None;
    }
    let mut load = must_load(demand);
    load.first_above(channels.count())
}

/// Whether any of them has to be held.
fn has_must(demand: &Demand<'_>) -> bool
    ensures { result ≡ false → (i : ℕ) → i < length demand.now → (row_at demand.now i).must ≡ false }
{
    for i in 0..demand.len() {
        if demand.nth(i).is_must() {
            return true;
        }
    }
    false
}

/// How many bookings run at each moment that each plan has to hold.
pub(crate) fn must_load(demand: &Demand<'_>) -> Load
    ensures { (t : ℕ) → load_at result t ≡ musts_at demand.now t }
{
    let mut load = Load::none();
    for i in 0..demand.len() {
        let booking = demand.nth(i);
        if booking.is_must() {
            load.add(&booking);
        }
    }
    load
}
