//! What both sides hear in a message.

ghost use Rattle.std.specs.Prelude.{◌≡◌};
ghost use Rattle.bx_calls.specs.Hearing.{names_channel};

use bx_channels::Channel;
use bx_q931::ChannelField;

/// Whether a message that may name a channel agrees to this one.
pub(crate) fn names_channel(field: ChannelField, own: Channel) -> bool
    ensures { result ≡ names_channel field own }
{
    match field {
        ChannelField::Absent => true,
        ChannelField::Named { channel, .. } => channel == own,
        ChannelField::AnyChannel | ChannelField::Unread => false,
    }
}
