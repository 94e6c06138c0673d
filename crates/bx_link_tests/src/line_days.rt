//! Days of 12 seconds with one booking, from 2 to 8 on channel 1, whose call the far end answers in the next second.

use crate::letters::LetterDisk;
use crate::wire::{Hears, Manner, MemoryWire};
use bx_day::Outcome;
use bx_journal::MemoryDisk;
use bx_line_world::{Line, LineWorld, run_by_line};
use bx_live::{Log, Schedule};
use bx_worked_days::{Row, exchange_of, far_end};
use std::alloc::Global;

/// How many of a thousand frames are lost, the seed by which they are drawn, and between which seconds all are.
type Losses = (u64, u64, u64, u64);

/// What comes of a day: the first letters of its journal's lines (a tick, a second without a link (down), a message that was heard), the
/// outcome of the booking, and how many frames were lost.
type Day = (&'static str, Losses, &'static [u8], Outcome, u32);

static ROWS: [Row; 1] = [(2, 8, 1, false)];

static DAYS: [Day; 8] = [
    (
        "whole",
        (0, 1, 0, 0),
        b"ttthttttthtttt",
        Outcome::Carried { from: 3, until: 8 },
        0,
    ),
    (
        "one of ten, the request first",
        (100, 7919, 0, 0),
        b"ttthttttthtttt",
        Outcome::Carried { from: 3, until: 8 },
        2,
    ),
    (
        "one of ten",
        (100, 15838, 0, 0),
        b"ttthttttthtttt",
        Outcome::Carried { from: 3, until: 8 },
        3,
    ),
    (
        "three of ten",
        (300, 7919, 0, 0),
        b"ttthttttthtttt",
        Outcome::Carried { from: 3, until: 8 },
        16,
    ),
    (
        "three of ten, and no answer within a second",
        (300, 15838, 0, 0),
        b"tdtthtttthtttt",
        Outcome::Carried { from: 4, until: 8 },
        12,
    ),
    (
        "cut when it is offered",
        (0, 1, 2, 4),
        b"tddtthttthtttt",
        Outcome::Carried { from: 5, until: 8 },
        14,
    ),
    (
        "cut when it ends",
        (0, 1, 8, 11),
        b"ttthttttdddtht",
        Outcome::Carried { from: 3, until: 8 },
        20,
    ),
    (
        "cut all day",
        (0, 1, 0, 20),
        b"dddddddddddd",
        Outcome::Missed,
        133,
    ),
];

/// The letters of a journal's lines.
fn letters_of(alloc: Global, journal: &[u8]) -> Option<Vec<u8>> {
    let mut letters = Vec::new(alloc);
    for line in journal.split(|octet| *octet == b'\n') {
        if let Some(letter) = line.first() {
            letters.push(*letter).ok()?;
        }
    }
    Some(letters)
}

/// What comes of a day, and at which moment it is over.
fn run(alloc: Global, losses: &Losses, jump: Jump) -> Option<(Vec<u8>, Outcome, u32, u32)> {
    let mut exchange = exchange_of(alloc, &ROWS)?;
    let manner = Manner {
        loss: losses.0,
        seed: losses.1,
        cut: (losses.2, losses.3),
        anew: 0,
        release: 0,
        gives: (0, &[]),
        flood: (0, 0),
        jump,
        hears: Hears::Rehearsed,
    };
    let wire = MemoryWire::new(alloc, far_end(alloc)?, manner);
    let log = Log {
        disk: Some(MemoryDisk::new(alloc, Vec::new(alloc))),
    };
    let mut world = LineWorld::new(Schedule::new(0, 1), Line::new(true, wire), log);
    run_by_line(&mut exchange, &mut world, 12).ok()?;
    let letters = letters_of(alloc, world.log.disk?.octets())?;
    let outcome = exchange.outcome(1)?;
    Some((letters, outcome, world.line.wire.lost, exchange.moment()))
}

/// Whether just this comes of a day, at its last second.
fn is_as(alloc: Global, day: &Day) -> bool {
    match run(alloc, &day.1, None) {
        Some((letters, outcome, lost, moment)) => {
            let is_told = letters.as_slice() == day.2 && outcome == day.3;
            is_told && lost == day.4 && moment == 12
        }
        None => false,
    }
}

#[test]
fn days_over_wires(rt: HostRuntime) {
    for day in &DAYS {
        assert!(rt; is_as(rt.alloc(), day), "{}", day.0);
    }
}

/// Days on which a call is up in the last second, as the link is away then: by a name between which seconds it is, the letters of the
/// journal, the outcome of the booking, and the moment at which the day is over.
static HELD: [(&'static str, (u64, u64), &'static [u8], Outcome, u32); 2] = [
    (
        "away when the call ends",
        (8, 20),
        b"ttthttttddddddddddddth",
        Outcome::Carried { from: 3, until: 8 },
        20,
    ),
    (
        "away amid the call",
        (5, 30),
        b"ttthtdddddddddddddddddddddddddth",
        Outcome::Carried { from: 3, until: 8 },
        30,
    ),
];

#[test]
fn a_day_is_held_open(rt: HostRuntime) {
    for (name, (from, until), letters, outcome, moment) in &HELD {
        let ran = run(rt.alloc(), &(0, 1, *from, *until), None);
        assert!(rt;
            matches!(&ran, Some((l, o, _, m)) if l.as_slice() == *letters && o == outcome && m == moment),
            "{name}: {ran:?}"
        );
    }
}

/// A clock that jumps from one millisecond to another.
type Jump = Option<(u64, u64)>;

/// By the name of a jump, the letters of the journal and the outcome of the booking.
static JUMPS: [(&'static str, Jump, &'static [u8], Outcome); 3] = [
    (
        "seven seconds on",
        Some((3_200, 10_500)),
        b"ttthddddddthtt",
        Outcome::Carried { from: 3, until: 8 },
    ),
    (
        "two seconds back",
        Some((3_200, 1_200)),
        b"ttthttttthtttt",
        Outcome::Carried { from: 3, until: 8 },
    ),
    (
        "twenty seconds late",
        Some((0, 9_500)),
        b"dddddddddttt",
        Outcome::Missed,
    ),
];

#[test]
fn clocks_jump(rt: HostRuntime) {
    for (name, jump, letters, outcome) in &JUMPS {
        let ran = run(rt.alloc(), &(0, 1, 0, 0), *jump);
        assert!(rt;
            matches!(&ran, Some((l, o, _, 12)) if l.as_slice() == *letters && o == outcome),
            "{name}: {ran:?}"
        );
    }
}

/// Of a disk that does so many calls, the moment at which it stops the day, and the letters that it has.
static DISKS: [(u32, u32, &'static [u8]); 4] = [
    (0, 0, b""),
    (1, 1, b"t"),
    (3, 2, b"tt"),
    (4, 3, b"ttt"),
];

/// Whether a disk that does so many calls stops the day at this moment, with these letters.
fn stops(alloc: Global, calls: u32, moment: u32, letters: &[u8]) -> Option<bool> {
    let mut exchange = exchange_of(alloc, &ROWS)?;
    let manner = Manner {
        loss: 0,
        seed: 1,
        cut: (0, 0),
        anew: 0,
        release: 0,
        gives: (0, &[]),
        flood: (0, 0),
        jump: None,
        hears: Hears::Rehearsed,
    };
    let wire = MemoryWire::new(alloc, far_end(alloc)?, manner);
    let log = Log {
        disk: Some(LetterDisk::new(calls)),
    };
    let mut world = LineWorld::new(Schedule::new(0, 1), Line::new(true, wire), log);
    let is_stopped = run_by_line(&mut exchange, &mut world, 12).is_err();
    let is_kept = world.log.disk?.letters.as_slice() == letters;
    Some(is_stopped && is_kept && exchange.moment() == moment)
}

#[test]
fn disks_fail(rt: HostRuntime) {
    for (calls, moment, letters) in &DISKS {
        assert!(rt;
            stops(rt.alloc(), *calls, *moment, letters) == Some(true),
            "{calls} calls"
        );
    }
}
