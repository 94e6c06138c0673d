//! Days of both ends over connections that do not carry what the other end writes.

use crate::frames::{CONNECT, END_OF_DAY, END_OF_TURN, OPENED, connection, joined};
use bx_cases::Failing;
use bx_devices::Watched;
use bx_frames::LinkFault;
use bx_link::{Connection, run_far_day};
use bx_sessions::run_both_ends;
use bx_worked_days::{exchange, far_end};
use std::alloc::Global;

/// What is tried; what comes to the far end, in two parts, and to the exchange; how a day of one turn ends, and the moments that
/// the exchange and the far end then have reached.
type Day = (
    &'static str,
    [&'static [u8]; 2],
    &'static [u8],
    Result<(), LinkFault>,
    (u32, u32),
);

static DAYS: [Day; 8] = [
    (
        "a whole day",
        [OPENED, END_OF_DAY],
        END_OF_TURN,
        Ok(()),
        (1, 1),
    ),
    (
        "a second turn in place of the end",
        [END_OF_TURN, &[2, 0, 4, 0, 0, 0, 2]],
        END_OF_TURN,
        Err(LinkFault::Closed),
        (1, 2),
    ),
    (
        "a day that ends at once",
        [END_OF_DAY, END_OF_DAY],
        END_OF_TURN,
        Err(LinkFault::Closed),
        (1, 0),
    ),
    (
        "no end of the day",
        [OPENED, &[]],
        END_OF_TURN,
        Err(LinkFault::EndedInFrame),
        (1, 1),
    ),
    (
        "a torn frame to the far end",
        [CONNECT, &[1]],
        END_OF_TURN,
        Err(LinkFault::EndedInFrame),
        (1, 0),
    ),
    (
        "an unknown kind to the far end",
        [&[4], END_OF_DAY],
        &[3],
        Err(LinkFault::UnknownKind),
        (1, 0),
    ),
    (
        "a bad length to the exchange",
        [OPENED, END_OF_DAY],
        &[2, 0, 3],
        Err(LinkFault::BadLength),
        (1, 1),
    ),
    (
        "nothing to the exchange",
        [END_OF_DAY, &[]],
        &[],
        Err(LinkFault::EndedInFrame),
        (1, 0),
    ),
];

/// Whether the day ends so, and at these moments.
fn ends_so(alloc: Global, day: &Day) -> Option<bool> {
    let (_, [first, second], answered, expected, moments) = *day;
    let told = joined(alloc, [first, second, &[]])?;
    let mut exchange = exchange(alloc)?;
    let mut far = far_end(alloc)?;
    let mut near = connection(alloc, answered);
    let mut distant = connection(alloc, &told);
    let result = run_both_ends(&mut exchange, &mut near, &mut far, &mut distant, 1);
    Some(result == expected && (exchange.moment(), far.moment()) == moments)
}

#[test]
fn days_of_both_ends(rt: HostRuntime) {
    for day in &DAYS {
        assert!(rt; ends_so(rt.alloc(), day) == Some(true), "{}", day.0);
    }
}

/// Whether a writer of the exchange that fails after so many writes ends the day, at these moments.
fn stops_so(alloc: Global, writes: u32, moments: (u32, u32)) -> Option<bool> {
    let told = joined(alloc, [OPENED, END_OF_DAY, &[]])?;
    let mut exchange = exchange(alloc)?;
    let mut far = far_end(alloc)?;
    let mut near = Connection {
        reader: Watched::new(END_OF_TURN),
        writer: Watched::new(Failing::new(Vec::new(alloc), writes, 300)),
    };
    let mut distant = connection(alloc, &told);
    let result = run_both_ends(&mut exchange, &mut near, &mut far, &mut distant, 1);
    let is_stopped = result == Err(LinkFault::WriteFailed);
    Some(is_stopped && (exchange.moment(), far.moment()) == moments)
}

#[test]
fn days_whose_writes_fail(rt: HostRuntime) {
    for (writes, moments) in [(0, (1, 0)), (1, (1, 0)), (2, (1, 1))] {
        let stopped = stops_so(rt.alloc(), writes, moments);
        assert!(rt; stopped == Some(true), "{writes} writes");
    }
}

/// What is tried; what comes to the far end; how its day ends, the moment that it has reached, and how many octets are left.
type FarDay = (
    &'static str,
    &'static [u8],
    Result<(), LinkFault>,
    u32,
    usize,
);

static FAR_DAYS: [FarDay; 4] = [
    ("one turn", &[2, 0, 4, 0, 0, 0, 1, 3, 0, 0, 3], Ok(()), 1, 1),
    ("no turn", &[3, 0, 0, 2], Ok(()), 0, 1),
    (
        "no end of the day",
        END_OF_TURN,
        Err(LinkFault::EndedInFrame),
        1,
        0,
    ),
    (
        "a later moment",
        &[2, 0, 4, 0, 0, 0, 2, 3],
        Err(LinkFault::WrongMoment),
        0,
        1,
    ),
];

/// Whether the far end's day ends so.
fn far_ends_so(alloc: Global, day: &FarDay) -> Option<bool> {
    let (_, told, expected, moment, left) = *day;
    let mut far = far_end(alloc)?;
    let mut reader = Watched::new(told);
    let mut writer = Watched::new(Vec::new(alloc));
    let result = run_far_day(&mut far, &mut reader, &mut writer);
    let is_left = reader.into_inner().len() == left;
    let turns: &[u8] = if moment == 1 { END_OF_TURN } else { &[] };
    let is_written = writer.into_inner().as_slice() == turns;
    Some(result == expected && far.moment() == moment && is_left && is_written)
}

#[test]
fn days_of_the_far_end(rt: HostRuntime) {
    for day in &FAR_DAYS {
        assert!(rt; far_ends_so(rt.alloc(), day) == Some(true), "{}", day.0);
    }
}
