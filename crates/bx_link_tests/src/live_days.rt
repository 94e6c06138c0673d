//! Live days of one booking, from 0 to 60 on channel 1.

use crate::journal::Mark;
use crate::memory_world::{MemoryWorld, Scene};
use bx_day::Exchange;
use bx_frames::LinkFault;
use bx_live::{Begin, CannotLog, Loss, run_live};
use bx_worked_days::exchange;
use std::alloc::Global;

/// A peer is lost in the first second after an end of turn that is none; the second has none; in the third one comes, asks for
/// a call that is unknown and ends its turn; the fourth begins late; in the fifth it sends half a frame; the sixth has none; in
/// the last two one ends its turns. Behind the second, the fourth and the sixth the call is asked for, and T322 is not over in the
/// eighth.
static SECONDS: [Scene; 8] = [
    Scene {
        begin: Begin::Joined,
        input: &[2, 0, 4, 0, 0, 0, 9],
    },
    Scene {
        begin: Begin::Alone,
        input: &[],
    },
    Scene {
        begin: Begin::Joined,
        input: &[1, 0, 5, 8, 2, 0x80, 9, 1, 2, 0, 4, 0, 0, 0, 3],
    },
    Scene {
        begin: Begin::Late,
        input: &[],
    },
    Scene {
        begin: Begin::Joined,
        input: &[1, 0, 5, 8],
    },
    Scene {
        begin: Begin::Alone,
        input: &[],
    },
    Scene {
        begin: Begin::Joined,
        input: &[2, 0, 4, 0, 0, 0, 7],
    },
    Scene {
        begin: Begin::Joined,
        input: &[2, 0, 4, 0, 0, 0, 8],
    },
];

/// The SETUP of the booking, with the end of the turn of moment 1.
static OPENED: [u8; 32] = [
    1, 0, 0x16, 8, 2, 0, 1, 5, 0xA1, 4, 2, 0x88, 0x90, 0x18, 3, 0xA9, 0x83, 0x81, 0x70, 5, 0x81,
    0x31, 0x32, 0x33, 0x34, 2, 0, 4, 0, 0, 0, 1,
];

/// STATUS ENQUIRY with the end of the turn of moment 3, the refusal of the unknown call, the same of moments 5 and 7, and the end of
/// the turn of moment 8.
static FOLLOWING: [u8; 64] = [
    1, 0, 5, 8, 2, 0, 1, 0x75, 2, 0, 4, 0, 0, 0, 3, 1, 0, 9, 8, 2, 0, 9, 0x5A, 8, 2, 0x82, 0xD1, 1,
    0, 5, 8, 2, 0, 1, 0x75, 2, 0, 4, 0, 0, 0, 5, 1, 0, 5, 8, 2, 0, 1, 0x75, 2, 0, 4, 0, 0, 0, 7, 2,
    0, 4, 0, 0, 0, 8,
];

fn letter(mark: &Mark) -> u8 {
    match mark {
        Mark::Tick => b't',
        Mark::Heard(_) => b'h',
        Mark::Down => b'd',
        Mark::Amended(_, _) => b'a',
    }
}

/// Whether these are the lines of the journal, by their letters.
fn has_lines(world: &MemoryWorld, letters: &[u8]) -> bool {
    if world.journal.marks.len() != letters.len() {
        return false;
    }
    for (index, mark) in world.journal.marks.iter().enumerate() {
        if letters[index] != letter(mark) {
            return false;
        }
    }
    true
}

/// Runs the seconds with room for so many lines and so many syncs: how it ended, the moment, and the world after it.
fn run(alloc: Global, lines: u32, syncs: u32) -> Option<(Result<(), CannotLog>, u32, MemoryWorld)> {
    let mut exchange = exchange(alloc)?;
    let mut world = MemoryWorld::new(alloc, &SECONDS, lines);
    world.syncs_left = syncs;
    let done = run_live(&mut exchange, &mut world, 8);
    Some((done, exchange.moment(), world))
}

fn goes_through(alloc: Global) -> Option<bool> {
    let (done, moment, world) = run(alloc, 100, 100)?;
    let is_done = done == Ok(()) && moment == 8 && world.is_over;
    let is_lost = world.lost == Some(Loss::Fault(LinkFault::EndedInFrame));
    let is_kept = has_lines(&world, b"tdthdtdtt") && world.synced == 9;
    let written = world.into_written();
    let octets = written.as_slice();
    Some(
        is_done
            && is_lost
            && is_kept
            && octets.strip_prefix(OPENED.as_slice()) == Some(FOLLOWING.as_slice()),
    )
}

#[test]
fn peers_come_and_go(rt: HostRuntime) {
    assert!(rt; goes_through(rt.alloc()) == Some(true));
}

/// Whether the day stops at this moment, with these lines and so many octets written.
fn stops(
    alloc: Global,
    lines: u32,
    syncs: u32,
    at: u32,
    letters: &[u8],
    written: usize,
) -> Option<bool> {
    let (done, moment, world) = run(alloc, lines, syncs)?;
    let is_stopped = done == Err(CannotLog) && moment == at && !world.is_over;
    let is_kept = has_lines(&world, letters);
    Some(is_stopped && is_kept && world.into_written().len() == written)
}

/// A peer ends its first turn, and no second begins after it.
static SHORT: [Scene; 2] = [
    Scene {
        begin: Begin::Joined,
        input: &[2, 0, 4, 0, 0, 0, 1],
    },
    Scene {
        begin: Begin::Ended,
        input: &[],
    },
];

fn ends_early(alloc: Global) -> Option<bool> {
    let mut exchange = exchange(alloc)?;
    let mut world = MemoryWorld::new(alloc, &SHORT, 100);
    let done = run_live(&mut exchange, &mut world, 8);
    let is_over = done == Ok(()) && exchange.moment() == 1 && world.is_over;
    Some(is_over && has_lines(&world, b"t") && world.synced == 1)
}

#[test]
fn no_second_begins_any_more(rt: HostRuntime) {
    assert!(rt; ends_early(rt.alloc()) == Some(true));
}

#[test]
fn a_log_fails(rt: HostRuntime) {
    let alloc = rt.alloc();
    assert!(rt; stops(alloc, 0, 100, 0, b"", 0) == Some(true));
    assert!(rt; stops(alloc, 1, 100, 1, b"t", 32) == Some(true));
    assert!(rt; stops(alloc, 3, 100, 3, b"tdt", 47) == Some(true));
    assert!(rt; stops(alloc, 4, 100, 3, b"tdth", 59) == Some(true));
}

#[test]
fn a_sync_fails(rt: HostRuntime) {
    let alloc = rt.alloc();
    assert!(rt; stops(alloc, 100, 0, 1, b"t", 0) == Some(true));
    assert!(rt; stops(alloc, 100, 1, 3, b"tdt", 32) == Some(true));
    assert!(rt; stops(alloc, 100, 2, 3, b"tdth", 47) == Some(true));
}
