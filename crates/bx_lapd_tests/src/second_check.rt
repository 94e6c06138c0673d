//! A second check sequence, four bits at a time.

use bx_lapd::FrameOctets;

/// What four bits leave.
static NIBBLES: [u16; 16] = [
    0x0000, 0x1081, 0x2102, 0x3183, 0x4204, 0x5285, 0x6306, 0x7387, 0x8408, 0x9489, 0xA50A, 0xB58B,
    0xC60C, 0xD68D, 0xE70E, 0xF78F,
];

fn after_four(rest: u16, bits: u8) -> u16 {
    (rest >> 4) ^ NIBBLES[((rest ^ u16::from(bits)) & 15) as usize]
}

pub(crate) fn second_check(octets: &[u8]) -> u16 {
    let mut rest = 0xFFFF;
    for octet in octets {
        rest = after_four(after_four(rest, *octet & 15), *octet >> 4);
    }
    !rest
}

/// Adds octets, as far as there is room.
pub(crate) fn add_all(octets: &mut FrameOctets, more: &[u8]) {
    for octet in more {
        let _full = octets.try_push(*octet);
    }
}

/// The octets with their check sequence.
pub(crate) fn close(body: FrameOctets) -> FrameOctets {
    let mut octets = body;
    let check = second_check(octets.as_slice());
    add_all(&mut octets, &[(check % 256) as u8, (check / 256) as u8]);
    octets
}

/// A body with its check sequence.
pub(crate) fn closed(body: &[u8]) -> FrameOctets {
    let mut octets = FrameOctets::new();
    add_all(&mut octets, body);
    close(octets)
}
