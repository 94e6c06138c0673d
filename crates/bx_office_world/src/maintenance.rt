//! How many channels are in maintenance.

ghost use Rattle.std.specs.Prelude.{◌≡◌};
ghost use Rattle.bx_office_world.specs.Maintenance.{is_maintained, maintained};

use bx_channels::Channel;
use bx_day::Exchange;

/// Whether this is the number of a channel that is in maintenance.
fn is_maintained(exchange: &Exchange, number: u8) -> bool
    ensures { result ≡ is_maintained exchange.now number }
{
    match Channel::new(number) {
        Some(channel) => exchange.in_maintenance(channel),
        None => false,
    }
}

/// How many channels are in maintenance.
pub(crate) fn maintained(exchange: &Exchange) -> u8
    ensures { result ≡ maintained exchange.now }
{
    let mut count = 0u8;
    for number in 0..32u8 {
        if is_maintained(exchange, number) {
            count += 1;
        }
    }
    count
}
