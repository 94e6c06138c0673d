//! Whether must bookings leave another one a channel.

ghost use Rattle.std.specs.Prelude.{◌≡◌, ◌≤◌, ◌↔◌, ℕ, Some};
ghost use Rattle.bx_base.specs.Channels.{count_of};
ghost use Rattle.bx_planner.specs.Musts.{musts_at};
ghost use Rattle.bx_planner.specs.Rooms.{IsNoChannel};

use bx_base::{Booking, Bookings, ChannelSet};
use bx_colour::Load;

/// The first moment of the booking at which as many must bookings run as there are channels, where at no moment more of
/// them do: the first at which there are too many with it. Takes no memory but that of a `Load`.
pub(crate) fn no_channel(
    bookings: &Bookings,
    channels: ChannelSet,
    booking: &Booking,
) -> Option<u32>
    requires { (t : ℕ) → musts_at bookings.now t ≤ count_of channels }
    ensures { (t : ℕ) → (result ≡ Some t) ↔ IsNoChannel bookings.now channels booking.now t }
{
    let mut load = Load::none();
    load.add(booking);
    for i in 0..bookings.len() {
        let other = bookings.nth(i);
        if other.is_must() {
            load.add(&other);
        }
    }
    load.first_above(channels.count())
}
