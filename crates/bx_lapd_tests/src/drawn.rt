//! What is drawn: numbers, messages, and frames that no peer would send.

use crate::second_check::{add_all, close};
use bx_lapd::FrameOctets;
use bx_q931::Octets;

/// Numbers that are drawn one after another.
#[derive(Drop)]
pub(crate) struct Drawn {
    state: u32,
}

/// Control octets: each kind of frame with P or F = 0 and 1, I frames of low numbers, and some of no kind.
static CONTROLS: [u8; 32] = [
    0x7F, 0x6F, 0x53, 0x43, 0x73, 0x63, 0x1F, 0x0F, 0x97, 0x87, 0xAF, 0x03, 0x01, 0x05, 0x09, 0x01,
    0x05, 0x09, 0x00, 0x02, 0x04, 0x06, 0x00, 0x02, 0x0D, 0x11, 0x2F, 0x73, 0x1F, 0x01, 0x03, 0xBF,
];

/// First octets of addresses: commands and responses, another SAPI, and a last octet.
static FIRSTS: [u8; 8] = [2, 0, 2, 0, 2, 0, 4, 3];

/// How many octets stand after the control octet.
static LENGTHS: [u16; 8] = [0, 1, 1, 1, 0, 5, 3, 261];

impl Drawn {
    pub(crate) fn of(seed: u32) -> Drawn {
        Drawn { state: seed }
    }

    pub(crate) fn below(&mut self, limit: u32) -> u32 {
        self.state = self
            .state
            .wrapping_mul(1_664_525)
            .wrapping_add(1_013_904_223);
        (self.state >> 8).checked_rem(limit).unwrap_or(0)
    }

    fn octet(&mut self) -> u8 {
        (self.below(256) % 256) as u8
    }

    /// A frame with its check sequence, which may be none of the link.
    pub(crate) fn frame(&mut self) -> FrameOctets {
        let first = FIRSTS[(self.below(8) & 7) as usize];
        let control = CONTROLS[(self.below(32) & 31) as usize];
        let length = LENGTHS[(self.below(8) & 7) as usize];
        let mut octets = FrameOctets::new();
        add_all(&mut octets, &[first, 1, control]);
        for place in 0..length {
            let octet = self.octet();
            add_all(&mut octets, &[if place == 0 { octet % 8 } else { octet }]);
        }
        close(octets)
    }
}

/// The message of a number: one in sixteen has 260 octets.
pub(crate) fn message_of(number: u32) -> Octets {
    let length = if number % 16 == 0 { 260 } else { number % 7 };
    let mut message = Octets::new();
    for place in 0..length {
        let _full = message.try_push((number.wrapping_add(place) % 251) as u8);
    }
    message
}
