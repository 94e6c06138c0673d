//! Quiet seconds: how many there are, and that to skip them leaves the day that ticks leave.

use crate::steps::{Step, first_wrong};
use bx_cases::messages::{
    CONNECT, CONNECT_ACKNOWLEDGE, DISCONNECT_16, FAR_DISCONNECT_16, FAR_RELEASE, RELEASE_16,
    RELEASE_COMPLETE, RELEASE_COMPLETE_102, SETUP, SETUP_REFERENCE_2, SETUP_REFERENCE_7,
};
use bx_channels::Channel;
use bx_day::Exchange;
use bx_worked_days::{Row, exchange_of};
use std::alloc::Global;

/// Bookings, and steps with the quiet seconds after each.
struct Worked {
    name: &'static str,
    bookings: &'static [Row],
    steps: &'static [(Step, u32)],
}

static WORKED: [Worked; 6] = [
    Worked {
        name: "nothing to do in a whole day",
        bookings: &[],
        steps: &[((0, &[], &[]), 300_000), ((300, &[], &[]), 299_700)],
    },
    Worked {
        name: "a call that is offered",
        bookings: &[(0, 60, 1, false)],
        steps: &[((0, &[], &[]), 0), ((1, &[], &[SETUP]), 3)],
    },
    Worked {
        name: "no answer to the call",
        bookings: &[(100, 200, 1, false)],
        steps: &[
            ((0, &[], &[]), 99),
            ((99, &[], &[]), 0),
            ((100, &[], &[SETUP]), 3),
            ((104, &[], &[SETUP]), 3),
            ((108, &[], &[RELEASE_COMPLETE_102]), 299_892),
        ],
    },
    Worked {
        name: "no answer to the release, so the next booking waits for its end",
        bookings: &[(100, 200, 1, false), (200, 300, 1, false)],
        steps: &[
            ((0, &[], &[]), 99),
            ((100, &[], &[SETUP]), 3),
            ((100, CONNECT, &[CONNECT_ACKNOWLEDGE]), 99),
            ((200, &[], &[DISCONNECT_16]), 29),
            ((230, &[], &[RELEASE_16]), 3),
            ((234, &[], &[RELEASE_16]), 3),
            ((238, &[], &[]), 61),
            ((300, &[], &[]), 299_700),
        ],
    },
    Worked {
        name: "the next booking waits until its channel is free",
        bookings: &[(100, 200, 1, false), (200, 300, 1, false)],
        steps: &[
            ((100, &[], &[SETUP]), 3),
            ((100, CONNECT, &[CONNECT_ACKNOWLEDGE]), 99),
            ((200, &[], &[DISCONNECT_16]), 29),
            ((200, FAR_RELEASE, &[RELEASE_COMPLETE]), 0),
            ((201, &[], &[SETUP_REFERENCE_2]), 3),
        ],
    },
    Worked {
        name: "an inward booking, whose call a tick answers",
        bookings: &[(5, 60, 1, true)],
        steps: &[
            ((0, &[], &[]), 59),
            ((5, &[], &[]), 54),
            (
                (
                    5,
                    SETUP_REFERENCE_7,
                    &[&[0x08, 0x02, 0x80, 0x07, 0x02, 0x18, 0x03, 0xA9, 0x83, 0x81]],
                ),
                0,
            ),
            (
                (
                    6,
                    &[],
                    &[&[0x08, 0x02, 0x80, 0x07, 0x07, 0x18, 0x03, 0xA9, 0x83, 0x81]],
                ),
                53,
            ),
        ],
    },
];

/// The moment of the first step that goes otherwise, or has other quiet seconds after it.
fn first_unquiet(alloc: Global, worked: &Worked) -> Option<u32> {
    let mut exchange = exchange_of(alloc, worked.bookings)?;
    for (step, seconds) in worked.steps {
        if first_wrong(&mut exchange, &[*step]).is_some() || exchange.quiet() != *seconds {
            return Some(step.0);
        }
    }
    Some(u32::MAX)
}

#[test]
fn worked_quiet_seconds(rt: HostRuntime) {
    for worked in &WORKED {
        assert!(rt;
            first_unquiet(rt.alloc(), worked) == Some(u32::MAX),
            "{}",
            worked.name
        );
    }
}

/// Skips the quiet seconds, but no more than these.
fn skip_some(exchange: &mut Exchange, most: u32) {
    let seconds = exchange.quiet().min(most);
    exchange.skip(seconds);
}

/// Whether a day of no bookings is over after its quiet seconds.
fn is_over(alloc: Global) -> Option<bool> {
    let mut exchange = exchange_of(alloc, &[])?;
    skip_some(&mut exchange, u32::MAX);
    Some(exchange.moment() == 300_000 && exchange.quiet() == 0)
}

#[test]
fn day_of_no_bookings(rt: HostRuntime) {
    assert!(rt; is_over(rt.alloc()) == Some(true), "over");
}

/// Messages and the moments at which they come, the last of them empty.
type Script = &'static [(u32, &'static [u8])];

static PLANS: [&[Row]; 6] = [
    &[(5, 60, 1, false)],
    &[(0, 60, 1, false), (60, 99, 1, false), (10, 30, 2, true)],
    &[(3, 40, 1, true), (40, 90, 1, false), (20, 21, 2, false)],
    &[(3, 40, 1, false), (41, 120, 1, true), (0, 9, 0, false)],
    &[(2, 50, 1, false), (50, 52, 1, false), (52, 110, 1, false)],
    &[(2, 70, 2, true), (2, 70, 1, true), (75, 80, 2, false)],
];

static SCRIPTS: [Script; 5] = [
    &[(150, &[])],
    &[(6, CONNECT), (150, &[])],
    &[
        (6, CONNECT),
        (30, FAR_DISCONNECT_16),
        (30, FAR_RELEASE),
        (150, &[]),
    ],
    &[(6, SETUP_REFERENCE_7), (60, SETUP_REFERENCE_7), (150, &[])],
    &[(6, CONNECT), (51, FAR_RELEASE), (54, CONNECT), (150, &[])],
];

/// Whether the same holds a channel in both, in the same state, and it is in maintenance in both or in none.
fn is_same_on(first: &Exchange, second: &Exchange, channel: Channel) -> bool {
    first.on_channel(channel) == second.on_channel(channel)
        && first.in_maintenance(channel) == second.in_maintenance(channel)
}

/// Whether two exchanges of up to six bookings on channels 1 and 2 look the same, but for the moment.
pub(crate) fn look_same(first: &Exchange, second: &Exchange) -> bool {
    let mut same = true;
    for number in 1..=6 {
        same &= first.outcome(number) == second.outcome(number);
    }
    for number in 1..=2 {
        if let Some(channel) = Channel::new(number) {
            same &= is_same_on(first, second, channel);
        }
    }
    same
}

/// One tick of two exchanges of one day: whether it is quiet just where there are quiet seconds, of which it is
/// then one.
fn is_counted(exchange: &mut Exchange, before: &mut Exchange) -> bool {
    let seconds = exchange.quiet();
    let is_quiet = exchange.tick().is_empty() && look_same(exchange, before);
    before.tick();
    if is_quiet {
        exchange.quiet().saturating_add(1) == seconds
    } else {
        seconds == 0
    }
}

/// Ticks to a moment, each as the quiet seconds say.
pub(crate) fn are_counted(exchange: &mut Exchange, before: &mut Exchange, moment: u32) -> bool {
    let mut counted = true;
    for _now in exchange.moment()..moment {
        counted &= is_counted(exchange, before);
    }
    counted
}

/// To a moment by what is quiet and by single ticks.
pub(crate) fn skip_to(exchange: &mut Exchange, moment: u32) {
    for _now in exchange.moment()..moment {
        let left = moment.saturating_sub(exchange.moment());
        skip_some(exchange, left);
        if exchange.moment() < moment {
            exchange.tick();
        }
    }
}

/// Whether each tick of a day goes as its quiet seconds say, and a day that skips them looks the same.
fn goes_quietly(alloc: Global, rows: &[Row], script: Script) -> Option<bool> {
    let mut ticking = exchange_of(alloc, rows)?;
    let mut before = exchange_of(alloc, rows)?;
    let mut skipping = exchange_of(alloc, rows)?;
    let mut same = true;
    for (moment, octets) in script {
        same &= are_counted(&mut ticking, &mut before, *moment);
        skip_to(&mut skipping, *moment);
        same &= skipping.moment() == *moment && look_same(&ticking, &skipping);
        ticking.receive(octets);
        before.receive(octets);
        skipping.receive(octets);
    }
    Some(same)
}

/// The first script with which a day of this plan goes otherwise.
fn first_odd_script(alloc: Global, rows: &[Row]) -> Option<usize> {
    for (index, script) in SCRIPTS.iter().enumerate() {
        if goes_quietly(alloc, rows, *script) != Some(true) {
            return Some(index);
        }
    }
    None
}

#[test]
fn quiet_seconds_are_counted(rt: HostRuntime) {
    for (index, rows) in PLANS.iter().enumerate() {
        assert!(rt;
            first_odd_script(rt.alloc(), rows).is_none(),
            "plan {index}"
        );
    }
}
