//! Channel identification.

ghost use Rattle.std.specs.Prelude.{◌≡◌};
ghost use Rattle.bx_q931.specs.Values.{channel_in, numbered, after_interface, has_bit};

use bx_channels::Channel;

/// What a message says of a B channel (ITU-T Q.931, 4.5.13).
#[derive(Clone, Copy, Debug, PartialEq, Eq)]
pub enum ChannelField {
    /// There is no channel identification.
    Absent,
    /// This channel, and whether no other will do.
    Named { channel: Channel, exclusive: bool },
    /// Any channel.
    AnyChannel,
    /// A channel identification of another form, or of a channel that is no B channel.
    Unread,
}

impl ChannelField {
    /// What the contents of a channel identification say.
    pub(crate) fn of(contents: &[u8]) -> ChannelField
        ensures { result ≡ channel_in contents.now }
    {
        let Some((first, rest)) = contents.split_first() else {
            return ChannelField::Unread;
        };
        if !has_bit(*first, 0x20) || has_bit(*first, 0x04) {
            return ChannelField::Unread;
        }
        match *first & 0x03 {
            3 => ChannelField::AnyChannel,
            1 if has_bit(*first, 0x40) => {
                numbered(following_interface(rest), has_bit(*first, 0x08))
            }
            1 => numbered(rest, has_bit(*first, 0x08)),
            _ => ChannelField::Unread,
        }
    }
}

fn has_bit(octet: u8, bit: u8) -> bool
    ensures { result ≡ has_bit octet bit }
{
    octet & bit != 0
}

/// The octets after the interface identifier.
fn following_interface(octets: &[u8]) -> &[u8]
    ensures { result.now ≡ after_interface octets.now }
{
    let mut rest = octets;
    while let Some((octet, after)) = rest.split_first() {
        rest = after;
        if *octet >= 0x80 {
            break;
        }
    }
    rest
}

fn numbered(octets: &[u8], exclusive: bool) -> ChannelField
    ensures { result ≡ numbered exclusive octets.now }
{
    match octets {
        [0x83, number, ..] => match Channel::new(*number & 0x7F) {
            Some(channel) => ChannelField::Named { channel, exclusive },
            None => ChannelField::Unread,
        },
        _ => ChannelField::Unread,
    }
}
