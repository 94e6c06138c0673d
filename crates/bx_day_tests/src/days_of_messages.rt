//! Days of the exchange with messages of the far end.

use crate::booked_days::{Day, run_day, tells};
use crate::steps::{Step, first_wrong};
use bx_cases::messages::{
    CONNECT, CONNECT_ACKNOWLEDGE, CONNECT_CHANNEL_2, DISCONNECT_16, FAR_DISCONNECT_16, FAR_RELEASE,
    RELEASE, RELEASE_6, RELEASE_16, RELEASE_COMPLETE, SETUP, SETUP_REFERENCE_2, SETUP_REFERENCE_7,
    STATUS_101,
};
use bx_worked_days::{Row, exchange_of};
use std::alloc::Global;
use std::test::Fail;

/// The only booking is live.
const LIVE: &str = "1 live\nmaintenance none\n";

static DAYS: [Day<'static>; 4] = [
    // answered, and the answer again: STATUS
    Day {
        bookings: &[(0, 60, 1, false)],
        steps: &[
            (1, &[], &[SETUP]),
            (1, CONNECT, &[CONNECT_ACKNOWLEDGE]),
            (1, CONNECT, &[STATUS_101]),
        ],
        told: LIVE,
    },
    // another channel is named
    Day {
        bookings: &[(0, 60, 1, false)],
        steps: &[(1, &[], &[SETUP]), (1, CONNECT_CHANNEL_2, &[RELEASE_6])],
        told: LIVE,
    },
    // called by the far end; any other channel is refused, and the same SETUP again is nothing
    Day {
        bookings: &[(0, 60, 1, true)],
        steps: &[
            (1, &[], &[]),
            (
                1,
                &[
                    0x08, 0x02, 0x00, 0x08, 0x05, 0x04, 0x02, 0x88, 0x90, 0x18, 0x03, 0xA9, 0x83,
                    0x82,
                ],
                &[&[0x08, 0x02, 0x80, 0x08, 0x5A, 0x08, 0x02, 0x82, 0xAC]],
            ),
            (
                1,
                SETUP_REFERENCE_7,
                &[&[0x08, 0x02, 0x80, 0x07, 0x02, 0x18, 0x03, 0xA9, 0x83, 0x81]],
            ),
            (1, SETUP_REFERENCE_7, &[]),
            (
                2,
                &[],
                &[&[0x08, 0x02, 0x80, 0x07, 0x07, 0x18, 0x03, 0xA9, 0x83, 0x81]],
            ),
            (
                2,
                &[0x08, 0x02, 0x00, 0x08, 0x05, 0x04, 0x02, 0x88, 0x90],
                &[&[0x08, 0x02, 0x80, 0x08, 0x5A, 0x08, 0x02, 0x82, 0xA2]],
            ),
            (
                2,
                &[
                    0x08, 0x02, 0x00, 0x08, 0x05, 0x04, 0x02, 0x88, 0x90, 0x18, 0x03, 0xA9, 0x83,
                    0x82,
                ],
                &[&[0x08, 0x02, 0x80, 0x08, 0x5A, 0x08, 0x02, 0x82, 0xAC]],
            ),
            (
                60,
                &[],
                &[&[0x08, 0x02, 0x80, 0x07, 0x45, 0x08, 0x02, 0x82, 0x90]],
            ),
            (
                60,
                &[0x08, 0x02, 0x00, 0x07, 0x4D],
                &[&[0x08, 0x02, 0x80, 0x07, 0x5A]],
            ),
        ],
        told: "1 carried 2 60\nmaintenance none\n",
    },
    // a preferred channel that is not open
    Day {
        bookings: &[(0, 60, 1, true)],
        steps: &[(
            0,
            &[
                0x08, 0x02, 0x00, 0x08, 0x05, 0x04, 0x02, 0x88, 0x90, 0x18, 0x03, 0xA1, 0x83, 0x82,
            ],
            &[&[0x08, 0x02, 0x80, 0x08, 0x02, 0x18, 0x03, 0xA9, 0x83, 0x81]],
        )],
        told: LIVE,
    },
];

#[test]
fn days_with_messages(rt: HostRuntime) -> Result<(), Fail> {
    for day in &DAYS {
        run_day(rt.alloc(), day)?;
    }
    Ok(())
}

/// CONNECTs that name channel 2 where that does not count.
static CONNECTS: [&[u8]; 3] = [
    // the first of two counts
    &[
        0x08, 0x02, 0x80, 0x01, 0x07, 0x18, 0x03, 0xA9, 0x83, 0x81, 0x18, 0x03, 0xA9, 0x83, 0x82,
    ],
    // after a locking shift
    &[
        0x08, 0x02, 0x80, 0x01, 0x07, 0x96, 0x18, 0x03, 0xA9, 0x83, 0x82,
    ],
    // after a shift of one element
    &[
        0x08, 0x02, 0x80, 0x01, 0x07, 0x9E, 0x18, 0x03, 0xA9, 0x83, 0x82, 0x18, 0x03, 0xA9, 0x83,
        0x81,
    ],
];

#[test]
fn channels_that_do_not_count(rt: HostRuntime) -> Result<(), Fail> {
    for connect in &CONNECTS {
        let day = Day {
            bookings: &[(0, 60, 1, false)],
            steps: &[(1, &[], &[SETUP]), (1, *connect, &[CONNECT_ACKNOWLEDGE])],
            told: LIVE,
        };
        run_day(rt.alloc(), &day)?;
    }
    Ok(())
}

static TWO: [Row; 2] = [(100, 200, 1, false), (200, 300, 1, false)];

/// The call of the first of two bookings, until its end.
static CARRIED: [Step; 3] = [
    (100, &[], &[SETUP]),
    (100, CONNECT, &[CONNECT_ACKNOWLEDGE]),
    (200, &[], &[DISCONNECT_16]),
];

/// How a call is cleared, what happens then, and what is told in the end.
static CLEARINGS: [(&str, &[Step], &str); 3] = [
    (
        "no answer to the release, so its channel is lost to the next",
        &[
            (230, &[], &[RELEASE_16]),
            (234, &[], &[RELEASE_16]),
            (238, &[], &[]),
            (300, &[], &[]),
        ],
        "1 carried 100 200\n2 missed\nmaintenance 1\n",
    ),
    (
        "released at the end, so the next has its channel a second later",
        &[
            (200, FAR_RELEASE, &[RELEASE_COMPLETE]),
            (201, &[], &[SETUP_REFERENCE_2]),
        ],
        "1 carried 100 200\n2 live\nmaintenance none\n",
    ),
    (
        "both clear",
        &[
            (200, FAR_DISCONNECT_16, &[RELEASE]),
            (200, FAR_RELEASE, &[]),
        ],
        "1 carried 100 200\n2 waiting\nmaintenance none\n",
    ),
];

/// Whether a call goes so to its end, and then so, and this is told.
fn clears(alloc: Global, steps: &[Step], told: &str) -> Option<bool> {
    let mut exchange = exchange_of(alloc, &TWO)?;
    let is_carried = first_wrong(&mut exchange, &CARRIED).is_none();
    let is_cleared = first_wrong(&mut exchange, steps).is_none();
    Some(is_carried && is_cleared && tells(alloc, &exchange, told))
}

#[test]
fn calls_that_are_cleared_at_their_end(rt: HostRuntime) {
    for (name, steps, told) in &CLEARINGS {
        assert!(rt; clears(rt.alloc(), steps, told) == Some(true), "{name}");
    }
}
