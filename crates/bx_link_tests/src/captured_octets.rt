//! The octets of a file's header and of packets.

use arrayvec::ArrayVec;
use bx_capture::{Direction, write_file_header, write_packet};
use bx_cases::messages::CONNECT_ACKNOWLEDGE;
use bx_devices::Watched;
use bx_q931::Octets;
use std::alloc::Global;

/// What stands at the start of each capture file.
pub(crate) static HEADER: [u8; 24] = [
    0xA1, 0xB2, 0xC3, 0xD4, 0, 2, 0, 4, 0, 0, 0, 0, 0, 0, 0, 0, 0, 0, 0xFF, 0xFF, 0, 0, 0, 0xFC,
];

/// CONNECT ACKNOWLEDGE, received at second 16,909,060.
static RECEIVED: [u8; 41] = [
    1, 2, 3, 4, 0, 0, 0, 0, 0, 0, 0, 25, 0, 0, 0, 25, 0, 12, 0, 4, b'q', b'9', b'3', b'1', 0, 35,
    0, 4, 0, 0, 0, 1, 0, 0, 0, 0, 8, 2, 0, 1, 15,
];

/// The same, sent.
static SENT: [u8; 41] = [
    1, 2, 3, 4, 0, 0, 0, 0, 0, 0, 0, 25, 0, 0, 0, 25, 0, 12, 0, 4, b'q', b'9', b'3', b'1', 0, 35,
    0, 4, 0, 0, 0, 0, 0, 0, 0, 0, 8, 2, 0, 1, 15,
];

/// The message of these octets.
pub(crate) fn message(octets: &[u8]) -> Option<Octets> {
    ArrayVec::try_from(octets).ok()
}

fn header(alloc: Global) -> Option<Vec<u8>> {
    let mut file = Watched::new(Vec::new(alloc));
    write_file_header(&mut file).ok()?;
    Some(file.into_inner())
}

/// The packet of a message.
pub(crate) fn packet(
    alloc: Global,
    second: u32,
    direction: Direction,
    octets: &[u8],
) -> Option<Vec<u8>> {
    let mut file = Watched::new(Vec::new(alloc));
    write_packet(&mut file, second, direction, &message(octets)?).ok()?;
    Some(file.into_inner())
}

/// Whether these octets were written.
fn is_just(written: Option<Vec<u8>>, expected: &[u8]) -> bool {
    match written {
        Some(octets) => octets.as_slice() == expected,
        None => false,
    }
}

#[test]
fn header_and_packets(rt: HostRuntime) {
    let alloc = rt.alloc();
    assert!(rt; is_just(header(alloc), &HEADER), "header");
    let received = packet(alloc, 16_909_060, Direction::Received, CONNECT_ACKNOWLEDGE);
    assert!(rt; is_just(received, &RECEIVED), "received");
    let sent = packet(alloc, 16_909_060, Direction::Sent, CONNECT_ACKNOWLEDGE);
    assert!(rt; is_just(sent, &SENT), "sent");
}
