//! A second in which 30 messages come that each have a reply.

use crate::memory_world::{MemoryWorld, Scene};
use bx_live::{Begin, run_live};
use bx_worked_days::{Row, exchange_of};
use std::alloc::Global;

static ROWS: [Row; 3] = [(0, 60, 1, false), (0, 60, 2, false), (0, 60, 3, false)];

/// The peer answers each of three SETUPs by CONNECT, sends ALERTING for 27 calls that are unknown, and ends its turn.
static SECOND: [Scene; 1] = [Scene {
    begin: Begin::Joined,
    input: &[
        1, 0, 0xA, 8, 2, 0x80, 1, 7, 0x18, 3, 0xA9, 0x83, 0x81, 1, 0, 0xA, 8, 2, 0x80, 2, 7, 0x18,
        3, 0xA9, 0x83, 0x82, 1, 0, 0xA, 8, 2, 0x80, 3, 7, 0x18, 3, 0xA9, 0x83, 0x83, 1, 0, 5, 8, 2,
        0x80, 4, 1, 1, 0, 5, 8, 2, 0x80, 5, 1, 1, 0, 5, 8, 2, 0x80, 6, 1, 1, 0, 5, 8, 2, 0x80, 7,
        1, 1, 0, 5, 8, 2, 0x80, 8, 1, 1, 0, 5, 8, 2, 0x80, 9, 1, 1, 0, 5, 8, 2, 0x80, 0xA, 1, 1, 0,
        5, 8, 2, 0x80, 0xB, 1, 1, 0, 5, 8, 2, 0x80, 0xC, 1, 1, 0, 5, 8, 2, 0x80, 0xD, 1, 1, 0, 5,
        8, 2, 0x80, 0xE, 1, 1, 0, 5, 8, 2, 0x80, 0xF, 1, 1, 0, 5, 8, 2, 0x80, 0x10, 1, 1, 0, 5, 8,
        2, 0x80, 0x11, 1, 1, 0, 5, 8, 2, 0x80, 0x12, 1, 1, 0, 5, 8, 2, 0x80, 0x13, 1, 1, 0, 5, 8,
        2, 0x80, 0x14, 1, 1, 0, 5, 8, 2, 0x80, 0x15, 1, 1, 0, 5, 8, 2, 0x80, 0x16, 1, 1, 0, 5, 8,
        2, 0x80, 0x17, 1, 1, 0, 5, 8, 2, 0x80, 0x18, 1, 1, 0, 5, 8, 2, 0x80, 0x19, 1, 1, 0, 5, 8,
        2, 0x80, 0x1A, 1, 1, 0, 5, 8, 2, 0x80, 0x1B, 1, 1, 0, 5, 8, 2, 0x80, 0x1C, 1, 1, 0, 5, 8,
        2, 0x80, 0x1D, 1, 1, 0, 5, 8, 2, 0x80, 0x1E, 1, 2, 0, 4, 0, 0, 0, 1,
    ],
}];

/// A name, whether what the peer sends comes at once, and how many syncs there are: one for the SETUPs, those for the replies, and one
/// at the end of the day.
static MANNERS: [(&'static str, bool, u32); 2] = [
    ("one after another", false, 32),
    ("together", true, 3),
];

/// Whether these are three acknowledged CONNECTs, and then RELEASE COMPLETE for calls 4 to 30.
fn are_replies(octets: &[u8]) -> bool {
    let (connected, unknown) = octets.split_at(octets.len().min(24));
    let is_connected = connected.chunks(8).zip(1u8..).all(|(frame, row)| frame
        == [1, 0, 5, 8, 2, 0, row, 15].as_slice());
    let is_refused = unknown.chunks(12).zip(4u8..).all(|(frame, call)| {
        frame == [1, 0, 9, 8, 2, 0, call, 0x5A, 8, 2, 0x82, 0xD1].as_slice()
    });
    is_connected && is_refused && octets.len() == 348
}

/// How many syncs there were, how many lines are logged, and whether the replies were written, in their order.
fn run(alloc: Global, is_together: bool) -> Option<(u32, usize, bool)> {
    let mut exchange = exchange_of(alloc, &ROWS)?;
    let mut world = MemoryWorld::new(alloc, &SECOND, 100);
    world.is_together = is_together;
    run_live(&mut exchange, &mut world, 1).ok()?;
    let syncs = 1000u32.saturating_sub(world.syncs_left);
    let lines = world.synced;
    let written = world.into_written();
    let start = written.len().saturating_sub(348);
    Some((syncs, lines, are_replies(&written.as_slice()[start..])))
}

#[test]
fn replies_share_a_sync(rt: HostRuntime) {
    for (name, is_together, syncs) in &MANNERS {
        let ran = run(rt.alloc(), *is_together);
        assert!(rt; ran == Some((*syncs, 31, true)), "{name}: {ran:?}");
    }
}
