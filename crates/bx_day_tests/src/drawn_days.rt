//! Quiet seconds on drawn days: counted tick by tick, and skipped.

use crate::quiet_seconds::{are_counted, look_same, skip_to};
use bx_cases::SHARE;
use bx_worked_days::{Row, exchange_of};
use std::alloc::Global;

const SETUP: u8 = 0x05;

/// Messages of calls, without elements.
static KINDS: [u8; 8] = [SETUP, 0x01, 0x02, 0x07, 0x45, 0x4D, 0x5A, 0x75];

/// Call states that STATUS reports.
static STATES: [u8; 8] = [10, 8, 11, 19, 12, 3, 1, 0];

/// Causes with which calls are refused.
static CAUSES: [u8; 8] = [44, 17, 41, 102, 42, 16, 47, 44];

/// Rows, for calls that the exchange began; the far end's calls take their references from these too.
static REFERENCES: [u8; 8] = [1, 2, 3, 4, 5, 6, 1, 2];

/// Numbers that are drawn one after another.
#[derive(Drop)]
pub(crate) struct Drawn {
    state: u32,
}

impl Drawn {
    pub(crate) fn of(seed: u32) -> Drawn {
        Drawn { state: seed }
    }

    pub(crate) fn below(&mut self, limit: u32) -> u32 {
        self.state = self
            .state
            .wrapping_mul(1_664_525)
            .wrapping_add(1_013_904_223);
        (self.state >> 8).checked_rem(limit).unwrap_or(0)
    }

    /// A booking of a channel from this moment on, or later.
    fn row(&mut self, channel: u8, from: u32) -> Row {
        let start = from.wrapping_add(self.below(8));
        let end = start.wrapping_add(self.below(40)).wrapping_add(1);
        (start, end, channel, self.below(3) == 0)
    }

    /// Six bookings, one after another on channels 1 and 2, and some that are refused.
    pub(crate) fn rows(&mut self) -> [Row; 6] {
        let mut rows = [(0, 1, 0, false); 6];
        let mut one: u32 = 0;
        let mut two: u32 = 0;
        for place in 0..6 {
            let channel = self.below(7);
            if channel == 0 {
                rows[place] = self.row(0, 0);
            } else if channel < 4 {
                rows[place] = self.row(1, one);
                one = rows[place].1;
            } else {
                rows[place] = self.row(2, two);
                two = rows[place].1;
            }
        }
        rows
    }

    /// A message of a call with a low reference; a SETUP has a good bearer capability.
    pub(crate) fn message(&mut self) -> [u8; 9] {
        let kind = KINDS[(self.below(8) & 7) as usize];
        let flag = if kind != SETUP && self.below(4) > 0 {
            0x80
        } else {
            0
        };
        let reference = REFERENCES[(self.below(8) & 7) as usize];
        [8, 2, flag, reference, kind, 4, 2, 0x88, 0x90]
    }

    /// STATUS with a call state, of a call with a low reference.
    pub(crate) fn report(&mut self) -> [u8; 8] {
        let flag = if self.below(4) > 0 { 0x80 } else { 0 };
        let reference = REFERENCES[(self.below(8) & 7) as usize];
        let state = STATES[(self.below(8) & 7) as usize];
        [8, 2, flag, reference, 0x7D, 0x14, 1, state]
    }

    /// RELEASE COMPLETE with a cause, of a call with a low reference that the exchange began.
    pub(crate) fn refusal(&mut self) -> [u8; 9] {
        let reference = REFERENCES[(self.below(8) & 7) as usize];
        let cause = CAUSES[(self.below(8) & 7) as usize];
        [8, 2, 0x80, reference, 0x5A, 8, 2, 0x80, 0x80 | cause]
    }
}

/// Whether each tick of a drawn day goes as its quiet seconds say, and a day that skips them looks the same.
fn goes_quietly(alloc: Global, seed: u32) -> Option<bool> {
    let mut drawn = Drawn::of(seed);
    let rows = drawn.rows();
    let mut ticking = exchange_of(alloc, &rows)?;
    let mut before = exchange_of(alloc, &rows)?;
    let mut skipping = exchange_of(alloc, &rows)?;
    let mut same = true;
    let mut moment: u32 = 0;
    for _message in 0..24 {
        moment = moment.wrapping_add(drawn.below(16));
        same &= are_counted(&mut ticking, &mut before, moment);
        skip_to(&mut skipping, moment);
        same &= skipping.moment() == moment && look_same(&ticking, &skipping);
        let octets = drawn.message();
        ticking.receive(&octets);
        before.receive(&octets);
        skipping.receive(&octets);
    }
    Some(same)
}

/// The first of so many drawn days that goes otherwise.
fn first_odd(alloc: Global, days: u32) -> Option<u32> {
    for seed in 0..days {
        if goes_quietly(alloc, seed) != Some(true) {
            return Some(seed);
        }
    }
    None
}

#[test]
fn drawn_quiet_seconds(rt: HostRuntime) {
    assert!(rt; first_odd(rt.alloc(), 200 / SHARE).is_none(), "a drawn day");
}
