//! The channels that are left of a set.

ghost use Rattle.std.specs.Prelude.{◌≡◌};
ghost use Rattle.bx_sales.specs.Left.{left_in_service};

use bx_base::ChannelSet;
use bx_channels::Channel;
use bx_day::Exchange;

/// The channels of a set that are not in maintenance: on these bookings are sold, and to these go those whose channel is lost.
pub fn channels_left(exchange: &Exchange, channels: ChannelSet) -> ChannelSet
    ensures { result ≡ left_in_service channels exchange.now }
{
    // Read for the prover alone, which learns from it what a set is.
    let _count = channels.count();
    let mut left = channels;
    for number in 0..32 {
        if let Some(channel) = Channel::new(number) {
            if exchange.in_maintenance(channel) {
                left = left.without(channel);
            }
        }
    }
    left
}
