//! Octets that no peer would send, to an end in each state.

use crate::pair::{Pair, in_state};
use crate::second_check::closed;
use bx_cases::SHARE;

/// Bodies of frames, and how many of the strings that `mangled` makes of them are dropped.
static BODIES: [(&str, &[u8], u64); 6] = [
    ("SABME", &[0x02, 0x01, 0x7F], 7140),
    ("UA", &[0x00, 0x01, 0x73], 7140),
    ("DM", &[0x02, 0x01, 0x0F], 7140),
    ("RR", &[0x02, 0x01, 0x01, 0x05], 5250),
    ("REJ", &[0x00, 0x01, 0x09, 0x02], 5250),
    ("I", &[0x02, 0x01, 0x00, 0x06, 0x08], 5270),
];

/// Gives each string of at most two octets, or one in `SHARE` of those of two.
fn short_strings(pair: &mut Pair) {
    pair.hears(&[], 1500);
    for first in 0..=255u8 {
        pair.hears(&[first], 1500);
        for second in 0..=255u8 {
            if (u32::from(first) + u32::from(second)) % SHARE == 0 {
                pair.hears(&[first, second], 1500);
            }
        }
    }
}

#[test]
fn strings_of_two_octets(rt: HostRuntime) {
    for state in 4..=8u8 {
        let mut pair = in_state(state % 2 == 0, state);
        short_strings(&mut pair);
        assert!(rt; pair.same, "state {state}");
        if SHARE == 1 {
            let dropped = pair.dropped();
            assert_eq!(rt; dropped, 65_793, "state {state}");
        }
    }
}

/// Whether an end in this state takes the octets as its second, and how many frames it has dropped.
fn takes(network: bool, state: u8, octets: &[u8]) -> (bool, u64) {
    let mut pair = in_state(network, state);
    pair.hears(octets, 1500);
    (pair.same, pair.dropped())
}

/// What was tried: whether all was taken rightly, and how many strings were dropped.
#[derive(Clone, Copy)]
struct Tried {
    right: bool,
    dropped: u64,
}

impl Tried {
    /// Octets with the check sequence that they have, to either side.
    fn octets(&mut self, state: u8, octets: &[u8]) {
        for network in [true, false] {
            let (right, dropped) = takes(network, state, octets);
            self.right &= right;
            self.dropped = self.dropped.saturating_add(dropped);
        }
    }

    /// A prefix of a body with a right check sequence, and the same prefix of the closed frame.
    fn prefixes(&mut self, state: u8, body: &[u8]) {
        let whole = closed(body);
        for (place, _octet) in whole.as_slice().iter().enumerate() {
            self.octets(state, &whole.as_slice()[..place]);
        }
        for (place, _octet) in body.iter().enumerate() {
            self.octets(state, closed(&body[..place]).as_slice());
        }
    }

    /// The body with each value, or one in `SHARE`, at this place, and a right check sequence.
    fn values(&mut self, state: u8, body: &[u8], at: usize) {
        for value in 0..=255u8 {
            if usize::from(value).wrapping_add(at) % SHARE as usize == 0 {
                let mut octets = closed(&[]);
                octets.clear();
                for (place, octet) in body.iter().enumerate() {
                    let _full = octets.try_push(if place == at { value } else { *octet });
                }
                self.octets(state, closed(octets.as_slice()).as_slice());
            }
        }
    }

    /// The closed frame with each octet flipped, and a check sequence that is wrong for that.
    fn flips(&mut self, state: u8, body: &[u8]) {
        let whole = closed(body);
        for (at, _octet) in whole.as_slice().iter().enumerate() {
            let mut octets = closed(&[]);
            octets.clear();
            for (place, octet) in whole.as_slice().iter().enumerate() {
                let _full = octets.try_push(if place == at { *octet ^ 0x55 } else { *octet });
            }
            self.octets(state, octets.as_slice());
        }
    }
}

/// All that is made of a body, in each state.
fn mangled(body: &[u8]) -> Tried {
    let mut tried = Tried {
        right: true,
        dropped: 0,
    };
    for state in 4..=8u8 {
        tried.prefixes(state, body);
        tried.flips(state, body);
        for (at, _octet) in body.iter().enumerate() {
            tried.values(state, body, at);
        }
    }
    tried
}

#[test]
fn mangled_frames(rt: HostRuntime) {
    for (name, body, dropped) in &BODIES {
        let tried = mangled(body);
        assert!(rt; tried.right, "{name}");
        if SHARE == 1 {
            assert_eq!(rt; tried.dropped, *dropped, "{name}");
        }
    }
}
