//! The codec on hostile octets.

use crate::hostile_octets::{Subject, first_wrong};
use crate::second_reading::{Heard, Naming, read_again};
use bx_channels::Number;
use bx_q931::{ChannelField, Message, Reference, read};

/// The codec.
#[derive(Drop)]
struct Codec;

fn names_alike(field: ChannelField, naming: Naming) -> bool {
    match field {
        ChannelField::Absent => naming == Naming::Absent,
        ChannelField::AnyChannel => naming == Naming::Any,
        ChannelField::Unread => naming == Naming::Unread,
        ChannelField::Named { channel, exclusive } => {
            let number = channel.number();
            naming == Naming::Channel { number, exclusive }
        }
    }
}

fn refers_alike(reference: Reference, expected: Option<(u16, bool)>) -> bool {
    match reference {
        Reference::Dummy => expected.is_none(),
        Reference::Value { value, flag } => expected == Some((value, flag)),
    }
}

fn calls_alike(called: Option<Number>, digits: Option<&[u8]>) -> bool {
    match (called, digits) {
        (Some(number), Some(expected)) => number.digits() == expected,
        (None, None) => true,
        _ => false,
    }
}

/// Whether the parts of a message are those of the second reading.
fn reads_alike(message: &Message<'_>, expected: &Heard<'_>) -> bool {
    message.kind().octet() == expected.kind
        && refers_alike(message.reference(), expected.reference)
        && names_alike(message.channel(), expected.naming())
        && message.cause() == expected.cause()
        && message.state() == expected.state()
        && calls_alike(message.called(), expected.digits())
        && message.first(0x04) == expected.element(0x04)
}

impl Subject for Codec {
    fn takes_rightly(&mut self, octets: &[u8]) -> bool {
        match (read(octets), read_again(octets)) {
            (Ok(message), Ok(expected)) => reads_alike(&message, &expected),
            (Err(fault), Err(expected)) => fault == expected,
            _ => false,
        }
    }
}

#[test]
fn hostile_octets_are_read_as_the_second_reading_does(rt: HostRuntime) {
    assert_eq!(rt; first_wrong(&mut Codec), None, "a worked message");
    assert!(rt; Codec.takes_rightly(&[0x08; 261]), "too long");
}
