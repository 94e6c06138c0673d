//! The channels that are taken while the bookings are swept in the order of their starts.

ghost use Rattle.std.specs.Prelude.{◌≡◌, ◌≤◌, ◌<◌, ℕ, true, slice_index, IfSome, IfNone};
ghost use Rattle.bx_base.specs.Channels.{has_channel, IsChannelSet};
ghost use Rattle.bx_channels.specs.ChannelNumbers.{IsChannel};

use bx_base::ChannelSet;
use bx_channels::Channel;

/// The lowest channel in service whose last booking has ended by this moment, where `until` has the end of the last
/// booking on each channel.
pub(crate) fn lowest_free_at(
    channels: &ChannelSet,
    until: &[u32; 32],
    moment: u32,
) -> Option<Channel>
    requires { IsChannelSet channels.now }
    ensures channel { IfSome result IsChannel }
    ensures free { IfSome result (λ c. (has_channel channels.now c ≡ true) × (slice_index until.now c ≤ moment)) }
    ensures lowest { IfSome result (λ c. (n : ℕ) → n < c → has_channel channels.now n ≡ true → moment < slice_index until.now n) }
    ensures none { IfNone result ((n : ℕ) → has_channel channels.now n ≡ true → moment < slice_index until.now n) }
{
    for n in 1..32 {
        if until[n as usize] <= moment
            && let Some(channel) = Channel::new(n)
            && channels.has(channel)
        {
            return Some(channel);
        }
    }
    None
}
