//! Drawn events at two ends, each compared with its second.

use crate::drawn::Drawn;
use crate::pair::Pair;
use arrayvec::ArrayVec;
use bx_cases::SHARE;
use bx_lapd::FrameOctets;

const LINKS: u32 = 240;

/// How much time goes by between two events.
static DELAYS: [u32; 16] = [
    0, 0, 0, 0, 1, 20, 20, 20, 20, 100, 100, 149, 150, 500, 1000, 10_000,
];

/// The oldest frame that is on its way.
fn oldest(line: &mut ArrayVec<FrameOctets, 24>) -> FrameOctets {
    if line.is_empty() {
        FrameOctets::new()
    } else {
        line.remove(0)
    }
}

/// The octets with one that is another.
fn damaged(octets: FrameOctets, at: u32, value: u8) -> FrameOctets {
    let mut damaged = octets;
    if let Some(octet) = damaged.as_mut_slice().get_mut(at as usize) {
        *octet = value;
    }
    damaged
}

/// What comes to an end: the oldest frame, one that is damaged, or one that no peer would send.
fn comes(drawn: &mut Drawn, this: &mut Pair, other: &mut Pair, now: u32) {
    match drawn.below(12) {
        0 => this.hears(drawn.frame().as_slice(), now),
        1 => {
            let at = drawn.below(7);
            let value = (drawn.below(256) % 256) as u8;
            this.hears(damaged(oldest(&mut other.line), at, value).as_slice(), now);
        }
        2 => {
            other.line.clear();
        }
        _ => this.hears(oldest(&mut other.line).as_slice(), now),
    }
}

/// Nothing comes for so long that a command is given up.
fn waits(this: &mut Pair, now: u32) {
    for tried in 0..22u32 {
        this.elapses(now.wrapping_add(tried.wrapping_mul(150)));
    }
}

/// What an end does of itself.
fn acts(drawn: &mut Drawn, this: &mut Pair, now: u32) {
    match drawn.below(40) {
        0..=2 => this.establishes(now),
        3 => this.releases(now),
        4 => waits(this, now),
        5..=8 => this.polls(now),
        9..=16 => this.elapses(now),
        _ => {
            let number = drawn.below(65_536);
            this.gives(number, now);
        }
    }
}

/// Events at two ends; whether each did what its second did, and what was told.
fn link_goes(seed: u32, near: &mut Pair, far: &mut Pair) {
    let mut drawn = Drawn::of(seed);
    let mut now: u32 = 0;
    for _event in 0..300u32 {
        now = now.wrapping_add(DELAYS[(drawn.below(16) & 15) as usize]);
        match drawn.below(10) {
            0..=3 => comes(&mut drawn, near, far, now),
            4..=7 => comes(&mut drawn, far, near, now),
            8 => acts(&mut drawn, near, now),
            _ => acts(&mut drawn, far, now),
        }
    }
}

/// The letters that were told at an end with those before.
fn joined(seen: &mut ArrayVec<u8, 18>, more: &[u8]) {
    for letter in more {
        if !seen.as_slice().contains(letter) {
            let _full = seen.try_push(*letter);
        }
    }
}

/// The first drawn link that does otherwise than its second.
fn first_odd(seen: &mut ArrayVec<u8, 18>) -> Option<u32> {
    for seed in 0..LINKS / SHARE {
        let mut near = Pair::new(true);
        let mut far = Pair::new(false);
        link_goes(seed, &mut near, &mut far);
        joined(seen, near.seen.as_slice());
        joined(seen, far.seen.as_slice());
        if !near.same || !far.same {
            return Some(seed);
        }
    }
    None
}

#[test]
fn drawn_links(rt: HostRuntime) {
    let mut seen = ArrayVec::new();
    let odd = first_odd(&mut seen);
    assert_eq!(rt; odd, None, "a drawn link");
    // A share of the links does not come to all that can be told.
    if SHARE == 1 {
        let told = seen.len();
        assert_eq!(rt; told, 18, "what was told");
    }
}
