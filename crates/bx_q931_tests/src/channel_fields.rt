//! Channel identifications, after shifts too.

use bx_channels::Channel;
use bx_q931::{ChannelField, Octets, read};

/// What a channel identification says, with the channel by its number and whether no other will do.
enum Said {
    Absent,
    Named(u8, bool),
    AnyChannel,
    Unread,
}

/// What is tried, the items of a CONNECT, and what they say of the channel.
static FIELDS: [(&str, &[u8], Said); 12] = [
    ("none", &[], Said::Absent),
    (
        "an interface that is named",
        &[0x18, 4, 0xE9, 0x81, 0x83, 0x85],
        Said::Named(5, true),
    ),
    (
        "preferred",
        &[0x18, 3, 0xA1, 0x83, 0x82],
        Said::Named(2, false),
    ),
    ("any channel", &[0x18, 1, 0xA3], Said::AnyChannel),
    ("the D channel", &[0x18, 3, 0xA9, 0x83, 0x90], Said::Unread),
    ("no number", &[0x18, 2, 0xA9, 0x83], Said::Unread),
    ("empty", &[0x18, 0], Said::Unread),
    (
        "exclusive",
        &[0x18, 3, 0xA9, 0x83, 0x82],
        Said::Named(2, true),
    ),
    (
        "two of them",
        &[0x18, 3, 0xA9, 0x83, 0x81, 0x18, 3, 0xA9, 0x83, 0x82],
        Said::Named(1, true),
    ),
    (
        "behind a locking shift",
        &[0x96, 0x18, 3, 0xA9, 0x83, 0x82],
        Said::Absent,
    ),
    (
        "behind a shift for one element",
        &[0x9E, 0x18, 3, 0xA9, 0x83, 0x82, 0x18, 3, 0xA9, 0x83, 0x81],
        Said::Named(1, true),
    ),
    (
        "behind a locking shift and one for one element",
        &[0x96, 0x98, 0x18, 3, 0xA9, 0x83, 0x82],
        Said::Named(2, true),
    ),
];

fn says(field: ChannelField, said: &Said) -> bool {
    match *said {
        Said::Absent => field == ChannelField::Absent,
        Said::AnyChannel => field == ChannelField::AnyChannel,
        Said::Unread => field == ChannelField::Unread,
        Said::Named(number, exclusive) => match Channel::new(number) {
            Some(channel) => field == ChannelField::Named { channel, exclusive },
            None => false,
        },
    }
}

/// The channel of a CONNECT with these items.
fn channel_of(items: &[u8]) -> Option<ChannelField> {
    let mut octets = Octets::new();
    for octet in [0x08, 0x02, 0x80, 0x01, 0x07].iter().chain(items) {
        octets.try_push(*octet).ok()?;
    }
    Some(read(&octets).ok()?.channel())
}

fn is_read_so(items: &[u8], said: &Said) -> bool {
    match channel_of(items) {
        Some(field) => says(field, said),
        None => false,
    }
}

#[test]
fn channels_are_read(rt: HostRuntime) {
    for (name, items, said) in &FIELDS {
        assert!(rt; is_read_so(items, said), "{name}");
    }
}
