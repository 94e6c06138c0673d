//! First-fit colouring beside bookings that keep their channels.

ghost use Rattle.std.specs.Prelude.{◌≡◌, ◌≤◌, ℕ, true, IfOk, IfSome, Err, None, length, slice_index_or};
ghost use Rattle.bx_base.specs.Channels.{has_channel};
ghost use Rattle.bx_base.specs.Plans.{is_accepted};
ghost use Rattle.bx_colour.specs.Beside.{marks_beside, IsShortOfChannels};
ghost use Rattle.bx_colour.specs.ChangedRows.{IsFirstFitAmong, choice_of, choices_of, IsCarriedByThese, HasNoFirstFit};
ghost use Rattle.bx_colour.specs.Colouring.{FitsChannels, is_in};

use crate::colouring::none_given;
use crate::order::in_order;
use crate::sweep::lowest_free_at;
use bx_base::{Bookings, ChannelSet};
use bx_channels::Channel;
use std::alloc::Global;
use thiserror::Error;

/// Why bookings are not coloured.
#[derive(Clone, Copy, Debug, PartialEq, Eq, Error)]
pub enum NoColouring {
    /// First fit does not come to an end: a booking finds none of its channels free.
    #[error("NoChannel")]
    NoChannel,
    /// Memory ran out.
    #[error("Memory")]
    Memory,
}

/// The channel of its own that a booking has: none beyond the last of these.
fn own_channel(own: &[Option<Channel>], row: u16) -> Option<Channel>
    ensures { result ≡ slice_index_or own.now row None }
{
    if row as usize >= own.len() {
        return None;
    }
    own[row as usize]
}

/// The channels that a booking has to choose from.
fn choice(own: Option<Channel>, channels: ChannelSet) -> ChannelSet
    ensures value { result ≡ choice_of own channels }
    ensures own { IfSome own (λ c. has_channel result c ≡ true) }
{
    match own {
        Some(channel) => ChannelSet::empty().with(channel),
        None => channels,
    }
}

/// First fit, where some bookings have a channel of their own, as one whose call is up, of this set or of none: each other one gets the lowest channel
/// of the set that no earlier accepted booking has which overlaps it. A booking beyond the last of `own` has none. `NoChannel` where that does not come
/// to an end: then there is no such colouring. Where just those that start by some moment have channels of their own, and apart, it comes to an end
/// where those that count on the set fit on it, and there alone. Time n log n in the bookings, memory linear.
pub fn colour_beside(
    alloc: Global,
    bookings: &Bookings,
    accepted: &[bool],
    own: &[Option<Channel>],
    channels: ChannelSet,
) -> Result<Vec<Option<Channel>>, NoColouring>
    requires accepted { length accepted.now ≡ length bookings.now }
    requires own { length own.now ≤ length bookings.now }
    ensures first_fit { IfOk result (λ v. IsFirstFitAmong bookings.now (choices_of own.now channels) accepted.now v.items) }
    ensures accepted { IfOk result (λ v. (i : ℕ) → is_accepted v.items i ≡ is_in accepted.now i) }
    ensures carries { IfOk result (λ v. IsCarriedByThese bookings.now own.now channels v.items) }
    ensures none { result ≡ Err NoColouring.NoChannel → HasNoFirstFit bookings.now own.now channels accepted.now }
    ensures fitting { IfOk result (λ v. FitsChannels bookings.now (marks_beside own.now channels accepted.now) channels) }
    ensures enough { result ≡ Err NoColouring.NoChannel → IsShortOfChannels bookings.now own.now channels accepted.now }
{
    let Ok(order) = in_order(alloc, bookings, accepted) else {
        return Err(NoColouring::Memory);
    };
    let Ok(mut assigned) = none_given(alloc, bookings.len()) else {
        return Err(NoColouring::Memory);
    };
    let mut until = [0; 32];
    for (_, row) in &order {
        let booking = bookings.nth(*row);
        let choices = choice(own_channel(own, *row), channels);
        // Read for the prover alone, which learns a limit from it.
        let _count = choices.count();
        let Some(channel) = lowest_free_at(&choices, &until, booking.start()) else {
            return Err(NoColouring::NoChannel);
        };
        until[channel.number() as usize] = booking.end();
        assigned[*row as usize] = Some(channel);
    }
    Ok(assigned)
}
