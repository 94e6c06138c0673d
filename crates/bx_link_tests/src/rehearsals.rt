//! Rehearsals towards one peer, and days of both ends.

use crate::letters::LetterDisk;
use bx_day::Exchange;
use bx_devices::Watched;
use bx_frames::LinkFault;
use bx_link::Connection;
use bx_live::{Log, run_live};
use bx_worked_days::{exchange, far_end};
use bx_world::{BothEnds, CapturedWorld, FarEnd, Rehearsal};
use std::alloc::Global;

/// CONNECT with the channel, the ends of the turns of moments 1 and 2, and half a frame.
static INPUT: &[u8] = &[
    0x01, 0x00, 0x0A, 0x08, 0x02, 0x80, 0x01, 0x07, 0x18, 0x03, 0xA9, 0x83, 0x81, 2, 0, 4, 0, 0, 0,
    1, 2, 0, 4, 0, 0, 0, 2, 1, 0, 5, 8,
];

/// SETUP and the end of the turn of moment 1, CONNECT ACKNOWLEDGE, and the ends of the next turn and of the day.
static TOLD: &[u8] = &[
    0x01, 0x00, 0x16, 0x08, 0x02, 0x00, 0x01, 0x05, 0xA1, 0x04, 0x02, 0x88, 0x90, 0x18, 0x03, 0xA9,
    0x83, 0x81, 0x70, 0x05, 0x81, 0x31, 0x32, 0x33, 0x34, 2, 0, 4, 0, 0, 0, 1, 0x01, 0x00, 0x05,
    0x08, 0x02, 0x00, 0x01, 0x0F, 2, 0, 4, 0, 0, 0, 2, 3, 0, 0,
];

fn log_of(calls: u32) -> Log<LetterDisk> {
    Log {
        disk: Some(LetterDisk::new(calls)),
    }
}

fn connection<'a>(alloc: Global, octets: &'a [u8]) -> Connection<&'a [u8], Vec<u8>> {
    Connection {
        reader: Watched::new(octets),
        writer: Watched::new(Vec::new(alloc)),
    }
}

type Captured<'a> = CapturedWorld<Rehearsal<Connection<&'a [u8], Vec<u8>>, LetterDisk>, Vec<u8>>;

/// A rehearsal with a capture, up to a second.
fn rehearsed(alloc: Global, last: u32) -> Option<(Exchange, Captured<'static>)> {
    let mut exchange = exchange(alloc)?;
    let rehearsal = Rehearsal {
        peer: connection(alloc, INPUT),
        log: log_of(1000),
        lost: None,
    };
    let file = Watched::new(Vec::new(alloc));
    let mut world = CapturedWorld::new(rehearsal, Some(file), 7);
    let done = run_live(&mut exchange, &mut world, last);
    if done.is_err() {
        return None;
    }
    Some((exchange, world))
}

/// Whether a rehearsal ends with this fault at this moment, with these letters in its journal, and so many octets captured.
fn ends(
    alloc: Global,
    last: u32,
    fault: Option<LinkFault>,
    letters: &[u8],
    captured: usize,
) -> Option<bool> {
    let (exchange, mut world) = rehearsed(alloc, last)?;
    let is_whole = world.is_whole();
    let file = world.file.take()?;
    let is_kept = is_whole && file.into_inner().len() == captured;
    let rehearsal = world.into_world();
    let is_ended = rehearsal.lost == fault && exchange.moment() as usize + 1 == letters.len();
    let disk = rehearsal.log.disk?;
    Some(is_kept && is_ended && disk.letters.as_slice() == letters)
}

#[test]
fn a_fault_ends_a_rehearsal(rt: HostRuntime) {
    let alloc = rt.alloc();
    assert!(rt; ends(alloc, 2, None, b"tht", 145) == Some(true), "whole");
    let torn = Some(LinkFault::EndedInFrame);
    assert!(rt; ends(alloc, 8, torn, b"thtt", 145) == Some(true), "torn");
}

/// Whether the peer of a whole rehearsal is told just this.
fn is_told(alloc: Global) -> Option<bool> {
    let (_exchange, world) = rehearsed(alloc, 2)?;
    let Rehearsal { peer, .. } = world.into_world();
    Some(peer.writer.into_inner().as_slice() == TOLD)
}

#[test]
fn a_rehearsal_is_told(rt: HostRuntime) {
    assert!(rt; is_told(rt.alloc()) == Some(true));
}

/// Whether a turn of both ends writes what each is given of the other.
fn goes_both(alloc: Global, answered: &'static [u8], told: &'static [u8]) -> Option<bool> {
    let mut exchange = exchange(alloc)?;
    let far = far_end(alloc)?;
    let mut world = Rehearsal {
        peer: BothEnds::new(connection(alloc, answered), far, connection(alloc, told)),
        log: log_of(1000),
        lost: None,
    };
    let done = run_live(&mut exchange, &mut world, 1);
    let Rehearsal { peer, lost, .. } = world;
    let BothEnds { near, distant, .. } = peer;
    let is_told = near.writer.into_inner().as_slice() == told;
    let is_ended = lost == None && distant.session.is_over() && distant.far.moment() == 1;
    let FarEnd { connection, .. } = distant;
    let is_answered = connection.writer.into_inner().as_slice() == answered;
    Some(done == Ok(()) && is_told && is_ended && is_answered)
}

/// CONNECT and the end of the turn of moment 1.
static ANSWERED: &[u8] = &[
    0x01, 0x00, 0x0A, 0x08, 0x02, 0x80, 0x01, 0x07, 0x18, 0x03, 0xA9, 0x83, 0x81, 2, 0, 4, 0, 0, 0,
    1,
];

/// SETUP and the end of the turn of moment 1, CONNECT ACKNOWLEDGE, and the end of the day.
static TOLD_TO_FAR: &[u8] = &[
    0x01, 0x00, 0x16, 0x08, 0x02, 0x00, 0x01, 0x05, 0xA1, 0x04, 0x02, 0x88, 0x90, 0x18, 0x03, 0xA9,
    0x83, 0x81, 0x70, 0x05, 0x81, 0x31, 0x32, 0x33, 0x34, 2, 0, 4, 0, 0, 0, 1, 0x01, 0x00, 0x05,
    0x08, 0x02, 0x00, 0x01, 0x0F, 3, 0, 0,
];

#[test]
fn a_day_of_both_ends(rt: HostRuntime) {
    assert!(rt; goes_both(rt.alloc(), ANSWERED, TOLD_TO_FAR) == Some(true));
}
