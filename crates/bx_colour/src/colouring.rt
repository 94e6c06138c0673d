//! First-fit colouring.

ghost use Rattle.std.specs.Prelude.{◌≡◌, ℕ, IfOk, None, replicate};
ghost use Rattle.bx_base.specs.Bookings.{Carries};
ghost use Rattle.bx_base.specs.Plans.{is_accepted, channel_at};
ghost use Rattle.bx_colour.specs.Colouring.{FitsChannels, IsFirstFit, is_in};

use crate::order::in_order;
use crate::sweep::lowest_free_at;
use bx_base::{Bookings, ChannelSet};
use bx_channels::Channel;
use std::alloc::{AllocError, Global};

/// In the order of (start, row) each accepted booking gets the lowest channel of the set that no earlier accepted booking has
/// which overlaps it (M. C. Carlisle and E. L. Lloyd, On the k-coloring of intervals, 1995). There has to be one mark for each
/// booking, and at no moment may more accepted bookings run than there are channels: `fits` says so. Time n log n in the
/// bookings, memory linear. `AllocError` where memory runs out.
pub fn colour(
    alloc: Global,
    bookings: &Bookings,
    accepted: &[bool],
    channels: ChannelSet,
) -> Result<Vec<Option<Channel>>, AllocError>
    requires { FitsChannels bookings.now accepted.now channels }
    ensures first_fit { IfOk result (λ v. IsFirstFit bookings.now channels accepted.now v.items) }
    ensures accepted { IfOk result (λ v. (i : ℕ) → is_accepted v.items i ≡ is_in accepted.now i) }
    ensures carries { IfOk result (λ v. Carries bookings.now channels (is_accepted v.items) (channel_at v.items)) }
{
    let order = in_order(alloc, bookings, accepted)?;
    let mut assigned = none_given(alloc, bookings.len())?;
    // Read for the prover alone, which learns a limit from it.
    let _count = channels.count();
    let mut until = [0; 32];
    for (_, row) in &order {
        let booking = bookings.nth(*row);
        let Some(channel) = lowest_free_at(&channels, &until, booking.start()) else {
            unreachable!();
        };
        until[channel.number() as usize] = booking.end();
        assigned[*row as usize] = Some(channel);
    }
    Ok(assigned)
}

/// No channel for any of so many bookings.
pub(crate) fn none_given(alloc: Global, count: u16) -> Result<Vec<Option<Channel>>, AllocError>
    ensures { IfOk result (λ v. v.items ≡ replicate count None) }
{
    vec![in alloc; None; count as usize]
}
