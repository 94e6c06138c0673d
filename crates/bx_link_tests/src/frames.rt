//! Worked frames, of a call with reference 1 on channel 1 to the number 1234, and connections that give them.

use bx_devices::Watched;
use bx_link::Connection;
use std::alloc::Global;

/// The SETUP of the one booking, and the end of the turn with moment 1.
pub(crate) const OPENED: &[u8] = &[
    0x01, 0x00, 0x16, 0x08, 0x02, 0x00, 0x01, 0x05, 0xA1, 0x04, 0x02, 0x88, 0x90, 0x18, 0x03, 0xA9,
    0x83, 0x81, 0x70, 0x05, 0x81, 0x31, 0x32, 0x33, 0x34, 0x02, 0x00, 0x04, 0x00, 0x00, 0x00, 0x01,
];

/// CONNECT with the channel.
pub(crate) const CONNECT: &[u8] = &[
    0x01, 0x00, 0x0A, 0x08, 0x02, 0x80, 0x01, 0x07, 0x18, 0x03, 0xA9, 0x83, 0x81,
];

/// The prefix of a CONNECT that does not come whole.
pub(crate) const TORN: &[u8] = &[0x01, 0x00, 0x0A, 0x08, 0x02];

pub(crate) const CONNECT_ACKNOWLEDGE: &[u8] = &[0x01, 0x00, 0x05, 0x08, 0x02, 0x00, 0x01, 0x0F];

/// DISCONNECT at the end of the booking, RELEASE and RELEASE COMPLETE.
pub(crate) const DISCONNECT: &[u8] = &[
    0x01, 0x00, 0x09, 0x08, 0x02, 0x00, 0x01, 0x45, 0x08, 0x02, 0x82, 0x90,
];

pub(crate) const RELEASE: &[u8] = &[0x01, 0x00, 0x05, 0x08, 0x02, 0x80, 0x01, 0x4D];

pub(crate) const RELEASE_COMPLETE: &[u8] = &[0x01, 0x00, 0x05, 0x08, 0x02, 0x00, 0x01, 0x5A];

/// The end of a turn with moment 1, and the end of the day.
pub(crate) const END_OF_TURN: &[u8] = &[0x02, 0x00, 0x04, 0x00, 0x00, 0x00, 0x01];

pub(crate) const END_OF_DAY: &[u8] = &[0x03, 0x00, 0x00];

/// ALERTING of an unknown reference to the exchange, and the RELEASE COMPLETE that answers it.
pub(crate) const STRAY: &[u8] = &[0x01, 0x00, 0x05, 0x08, 0x02, 0x80, 0x09, 0x01];

pub(crate) const REFUSAL: &[u8] = &[
    0x01, 0x00, 0x09, 0x08, 0x02, 0x00, 0x09, 0x5A, 0x08, 0x02, 0x82, 0xD1,
];

/// The same to the far end.
pub(crate) const FAR_STRAY: &[u8] = &[0x01, 0x00, 0x05, 0x08, 0x02, 0x00, 0x09, 0x01];

pub(crate) const FAR_REFUSAL: &[u8] = &[
    0x01, 0x00, 0x09, 0x08, 0x02, 0x80, 0x09, 0x5A, 0x08, 0x02, 0x80, 0xD1,
];

/// So many frames, one after another, and what stands after them.
pub(crate) fn repeated(
    alloc: Global,
    frame: &[u8],
    count: u8,
    following: &[u8],
) -> Option<Vec<u8>> {
    let mut octets = Vec::new(alloc);
    for _ in 0..count {
        octets.extend_from_slice(frame).ok()?;
    }
    octets.extend_from_slice(following).ok()?;
    Some(octets)
}

/// Three parts, one after another.
pub(crate) fn joined(alloc: Global, parts: [&[u8]; 3]) -> Option<Vec<u8>> {
    let mut octets = Vec::new(alloc);
    for part in parts {
        octets.extend_from_slice(part).ok()?;
    }
    Some(octets)
}

/// A connection that gives these octets, and holds what is written.
pub(crate) fn connection<'a>(alloc: Global, octets: &'a [u8]) -> Connection<&'a [u8], Vec<u8>> {
    Connection {
        reader: Watched::new(octets),
        writer: Watched::new(Vec::new(alloc)),
    }
}
