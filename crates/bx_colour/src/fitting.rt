//! Whether accepted bookings fit on the channels.

ghost use Rattle.std.specs.Prelude.{◌≡◌, ◌↔◌, IsTrue, length};
ghost use Rattle.bx_colour.specs.Colouring.{FitsChannels};

use crate::load::Load;
use bx_base::{Bookings, ChannelSet};

/// Whether there is one mark for each booking, and at no moment more accepted bookings run than there are channels.
/// Takes no memory but that of a `Load`, and time n log n in the bookings.
pub fn fits(bookings: &Bookings, accepted: &[bool], channels: ChannelSet) -> bool
    ensures { IsTrue result ↔ FitsChannels bookings.now accepted.now channels }
{
    if accepted.len() != bookings.len() as usize {
        return false;
    }
    let mut load = Load::none();
    for i in 0..bookings.len() {
        if accepted[i as usize] {
            load.add(&bookings.nth(i));
        }
    }
    load.first_above(channels.count()).is_none()
}
