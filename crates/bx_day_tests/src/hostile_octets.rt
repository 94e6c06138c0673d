//! The octets that everything is tried on.

use bx_cases::SHARE;

/// What takes octets, and knows what it should do with them.
pub(crate) trait Subject {
    /// Takes the octets, and answers whether that was right.
    fn takes_rightly(&mut self, octets: &[u8]) -> bool;
}

/// Worked messages to and from both ends: each type of element, both lengths of a reference, shifts, and what is torn.
static WORKED: [&[u8]; 20] = [
    // SETUP of the exchange, and one of the far end
    &[
        0x08, 0x02, 0x00, 0x01, 0x05, 0xA1, 0x04, 0x02, 0x88, 0x90, 0x18, 0x03, 0xA9, 0x83, 0x81,
        0x70, 0x05, 0x81, 0x31, 0x32, 0x33, 0x34,
    ],
    &[
        0x08, 0x02, 0x00, 0x07, 0x05, 0x04, 0x02, 0x88, 0x90, 0x18, 0x03, 0xA1, 0x83, 0x82, 0x70,
        0x02, 0x81, 0x31,
    ],
    &[0x08, 0x02, 0x00, 0x08, 0x05, 0x04, 0x02, 0x88, 0x90],
    &[
        0x08, 0x02, 0x00, 0x08, 0x05, 0x04, 0x02, 0x88, 0x90, 0x18, 0x01, 0xA3,
    ],
    // to a call that the exchange began: an answer on its channel, on another one, on any, after shifts
    &[0x08, 0x02, 0x80, 0x01, 0x07, 0x18, 0x03, 0xA9, 0x83, 0x81],
    &[0x08, 0x02, 0x80, 0x01, 0x02, 0x18, 0x03, 0xA9, 0x83, 0x82],
    &[0x08, 0x02, 0x80, 0x01, 0x07, 0x18, 0x01, 0xA3],
    &[
        0x08, 0x02, 0x80, 0x01, 0x07, 0x96, 0x18, 0x03, 0xA9, 0x83, 0x82,
    ],
    &[
        0x08, 0x02, 0x80, 0x01, 0x07, 0x9E, 0x18, 0x03, 0xA9, 0x83, 0x82, 0x18, 0x03, 0xA9, 0x83,
        0x81,
    ],
    &[
        0x08, 0x02, 0x80, 0x01, 0x07, 0x18, 0x05, 0xE9, 0x01, 0x81, 0x83, 0x81,
    ],
    &[0x08, 0x01, 0x81, 0x07],
    &[
        0x08, 0x02, 0x80, 0x01, 0x45, 0x08, 0x03, 0x00, 0x80, 0x90, 0x1E, 0x02, 0x80, 0x88,
    ],
    &[
        0x08, 0x02, 0x80, 0x01, 0x7D, 0x08, 0x02, 0x80, 0x9E, 0x14, 0x01, 0x0A,
    ],
    // to a call that the far end began, seen from either end
    &[0x08, 0x02, 0x00, 0x07, 0x0F],
    &[0x08, 0x02, 0x00, 0x07, 0x4D, 0x08, 0x02, 0x80, 0x90],
    &[0x08, 0x02, 0x80, 0x01, 0x02, 0x18, 0x03, 0xA9, 0x83, 0x82],
    // to the far end: an acknowledgement, and a state that is reported
    &[0x08, 0x02, 0x00, 0x01, 0x0F],
    &[
        0x08, 0x02, 0x00, 0x01, 0x7D, 0x08, 0x02, 0x82, 0xE5, 0x14, 0x01, 0x00,
    ],
    // the dummy reference, and the global one
    &[0x08, 0x00, 0x01],
    &[0x08, 0x02, 0x80, 0x00, 0x4D],
];

/// Whether every string of at most two octets, or one in `SHARE` of those of two, is taken rightly.
fn short_strings<S: Subject>(subject: &mut S) -> bool {
    let mut right = subject.takes_rightly(&[]);
    for first in 0..=255u8 {
        right &= subject.takes_rightly(&[first]);
        for second in 0..=255u8 {
            if (u32::from(first) + u32::from(second)) % SHARE == 0 {
                right &= subject.takes_rightly(&[first, second]);
            }
        }
    }
    right
}

/// Whether the octets are taken rightly with each value, or one in `SHARE`, at this place.
fn each_value<S: Subject>(subject: &mut S, octets: &mut [u8], at: usize) -> bool {
    let mut right = true;
    for value in 0..=255u8 {
        if let Some(octet) = octets.get_mut(at) {
            *octet = value;
        }
        if usize::from(value).wrapping_add(at) % SHARE as usize == 0 {
            right &= subject.takes_rightly(octets);
        }
    }
    right
}

/// Whether each prefix of the octets is taken rightly, and each copy with one octet replaced.
fn prefixes_and_values<S: Subject>(subject: &mut S, message: &[u8]) -> bool {
    let mut right = subject.takes_rightly(message);
    for at in 0..message.len() {
        let mut copy = [0; 32];
        if let (Some(prefix), Some(room)) = (message.get(..at), copy.get_mut(..message.len())) {
            right &= subject.takes_rightly(prefix);
            room.copy_from_slice(message);
            right &= each_value(subject, room, at);
        }
    }
    right
}

/// The index of the first worked message of which some prefix or some copy is taken wrongly; 20 where a short string is.
pub(crate) fn first_wrong<S: Subject>(subject: &mut S) -> Option<usize> {
    for (index, message) in WORKED.iter().enumerate() {
        if !prefixes_and_values(subject, message) {
            return Some(index);
        }
    }
    if short_strings(subject) {
        None
    } else {
        Some(WORKED.len())
    }
}
