//! The lines of a plan text, each built before it is written.

ghost use Rattle.std.specs.Prelude.{◌≡◌, ◌+◌, ◌<◌, ◌≤◌, ◌++◌, ◌∷◌, [], length, codes, decimal, map, IfSome};
ghost use Rattle.arrayvec.specs.ArrayVec.{array_vec_len};
ghost use Rattle.bx_base.specs.Bound.{IsCharge};
ghost use Rattle.bx_channels.specs.ChannelNumbers.{IsChannel};
ghost use Rattle.bx_base.specs.Channels.{IsChannelSet};
ghost use Rattle.bx_planfile.specs.declared.version.Version.TheVariants.{Three};
ghost use Rattle.bx_text.specs.Lines.{line_text, members_from, named};
ghost use Rattle.bx_planfile.specs.Text.{booking_fields, price_fields, must_field, direction_field, channel_field};

use bx_base::{Booking, ChannelSet, Price};
use bx_channels::Channel;
use bx_text::{Line, add, add_decimal, add_members, append};

/// The line of a price.
pub(crate) fn price_line(price: &Price) -> Line
    ensures text { result.items ≡ line_text (price_fields price.now) }
    ensures limits { IsCharge price.now }
{
    let mut line = Line::new();
    add_decimal(&mut line, u64::from(price.moment), b' ');
    add_decimal(&mut line, price.amount, b'\n');
    line
}

/// Adds a booking's channel, where it has one, and else a dash.
fn add_channel(line: &mut Line, channel: Option<Channel>)
    requires { array_vec_len line.old ≤ 107 }
    ensures items { line.new.items ≡ line.old.items ++ (channel_field channel ++ 32 ∷ []) }
    ensures len { array_vec_len line.new ≤ array_vec_len line.old + 21 }
    ensures limits { IfSome channel IsChannel }
{
    match channel {
        None => add(line, b"-", b' '),
        Some(channel) => add_decimal(line, u64::from(channel.number()), b' '),
    }
}

fn must_word(is_must: bool) -> &'static [u8]
    ensures text { result.now ≡ must_field is_must }
    ensures short { length result.now ≤ 4 }
{
    if is_must { b"must" } else { b"free" }
}

fn direction_word(is_inward: bool) -> &'static [u8]
    ensures text { result.now ≡ direction_field is_inward }
    ensures short { length result.now ≤ 4 }
{
    if is_inward { b"in" } else { b"out" }
}

/// The line of a booking, and of the channel that it has.
pub(crate) fn booking_line(booking: Booking, channel: Option<Channel>) -> Line
    ensures text { result.items ≡ line_text (booking_fields Three booking channel) }
    ensures limits { IfSome channel IsChannel }
{
    let mut line = Line::new();
    add_decimal(&mut line, u64::from(booking.start()), b' ');
    add_decimal(&mut line, u64::from(booking.end()), b' ');
    add_decimal(&mut line, booking.pay(), b' ');
    add(&mut line, booking.number().digits(), b' ');
    add_channel(&mut line, channel);
    add(&mut line, must_word(booking.is_must()), b' ');
    add(&mut line, direction_word(booking.is_inward()), b'\n');
    line
}

/// The line of the channels.
pub(crate) fn channels_line(channels: ChannelSet) -> Line
    ensures text { result.items ≡ line_text (codes "channels" ∷ map decimal (members_from 0 channels)) }
    ensures limits { IsChannelSet channels }
{
    let mut line = Line::new();
    append(&mut line, b"channels");
    add_members(&mut line, &channels);
    line.push(b'\n');
    line
}
