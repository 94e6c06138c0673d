//! A day by the sessions of `bx_link`, and by the run of a live day, towards the same peer: the same octets, outcomes and fault.

use crate::letters::LetterDisk;
use bx_day::Exchange;
use bx_devices::Watched;
use bx_frames::LinkFault;
use bx_link::Connection;
use bx_live::{Log, run_live};
use bx_sessions::run_day;
use bx_worked_days::exchange;
use bx_world::Rehearsal;
use std::alloc::Global;

/// What a peer says in a day: a name, the turns that are asked for, its octets, and the fault that ends the day.
static PEERS: &[(&str, u32, &[u8], Option<LinkFault>)] = &[
    (
        "answers",
        2,
        &[
            1, 0, 10, 8, 2, 0x80, 1, 7, 0x18, 3, 0xA9, 0x83, 0x81, 2, 0, 4, 0, 0, 0, 1, 2, 0, 4, 0,
            0, 0, 2,
        ],
        None,
    ),
    ("says nothing in its turns", 1, &[2, 0, 4, 0, 0, 0, 1], None),
    (
        "is read no further than the last turn",
        1,
        &[2, 0, 4, 0, 0, 0, 1, 9],
        None,
    ),
    ("is not there", 1, &[], Some(LinkFault::EndedInFrame)),
    (
        "goes inside a message",
        3,
        &[2, 0, 4, 0, 0, 0, 1, 1, 0, 5, 8],
        Some(LinkFault::EndedInFrame),
    ),
    (
        "names another moment",
        3,
        &[2, 0, 4, 0, 0, 0, 2],
        Some(LinkFault::WrongMoment),
    ),
    ("ends the day", 3, &[3, 0, 0], Some(LinkFault::UnknownKind)),
    ("sends another kind", 3, &[9], Some(LinkFault::UnknownKind)),
    (
        "sends a long end of turn",
        3,
        &[2, 0, 5, 0, 0, 0, 0, 1],
        Some(LinkFault::BadLength),
    ),
    (
        "asks and clears",
        3,
        &[
            1, 0, 5, 8, 2, 0x80, 1, 0x75, 1, 0, 9, 8, 2, 0x80, 1, 0x45, 8, 2, 0x80, 0x90, 2, 0, 4,
            0, 0, 0, 1, 1, 0, 5, 8, 2, 0x80, 1, 0x4D, 2, 0, 4, 0, 0, 0, 2, 2, 0, 4, 0, 0, 0, 3,
        ],
        None,
    ),
];

/// How a day ended: its fault, what was written to the peer, the moment, and what became of its bookings.
#[derive(Drop)]
struct Ended {
    fault: Option<LinkFault>,
    written: Vec<u8>,
    moment: u32,
    outcomes: Vec<u8>,
}

fn end_of(
    alloc: Global,
    exchange: &Exchange,
    fault: Option<LinkFault>,
    written: Vec<u8>,
) -> Option<Ended> {
    let mut outcomes = Watched::new(Vec::new(alloc));
    exchange.write_outcomes(&[], &mut outcomes).ok()?;
    Some(Ended {
        fault,
        written,
        moment: exchange.moment(),
        outcomes: outcomes.into_inner(),
    })
}

fn by_sessions(alloc: Global, turns: u32, said: &[u8]) -> Option<Ended> {
    let mut exchange = exchange(alloc)?;
    let mut reader = Watched::new(said);
    let mut writer = Watched::new(Vec::new(alloc));
    let done = run_day(&mut exchange, &mut reader, &mut writer, turns);
    end_of(alloc, &exchange, done.err(), writer.into_inner())
}

fn by_run(alloc: Global, turns: u32, said: &[u8]) -> Option<Ended> {
    let mut exchange = exchange(alloc)?;
    let mut world = Rehearsal {
        peer: Connection {
            reader: Watched::new(said),
            writer: Watched::new(Vec::new(alloc)),
        },
        log: Log::<LetterDisk> { disk: None },
        lost: None,
    };
    run_live(&mut exchange, &mut world, turns).ok()?;
    let Rehearsal { peer, lost, .. } = world;
    end_of(alloc, &exchange, lost, peer.writer.into_inner())
}

/// Whether both end so.
fn are_one(alloc: Global, turns: u32, said: &[u8], fault: Option<LinkFault>) -> Option<bool> {
    let one = by_sessions(alloc, turns, said)?;
    let other = by_run(alloc, turns, said)?;
    let is_so = one.fault == fault && other.fault == fault && one.moment == other.moment;
    Some(
        is_so
            && one.written.as_slice() == other.written.as_slice()
            && one.outcomes.as_slice() == other.outcomes.as_slice(),
    )
}

#[test]
fn a_run_is_the_day_of_the_sessions(rt: HostRuntime) {
    for (name, turns, said, fault) in PEERS {
        assert!(rt;
            are_one(rt.alloc(), *turns, said, *fault) == Some(true),
            "{name}"
        );
    }
}
