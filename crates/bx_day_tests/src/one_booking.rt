//! The day of one booking, event by event, with another that waits for its channel.

use crate::steps::{Step, first_wrong};
use bx_cases::messages::{CONNECT, CONNECT_ACKNOWLEDGE, DISCONNECT_16, RELEASE_16, SETUP};
use bx_channels::Channel;
use bx_day::{Exchange, Outcome};
use bx_worked_days::{Row, exchange_of};
use std::alloc::Global;

/// A step, what the two bookings are told to be then, and whether their channel is in maintenance.
type Line = (Step, [Outcome; 2], bool);

static ROWS: [Row; 2] = [(0, 60, 1, false), (60, 99, 1, false)];

const CARRIED: Outcome = Outcome::Carried { from: 1, until: 60 };

static LINES: [Line; 7] = [
    ((1, &[], &[SETUP]), [Outcome::Live, Outcome::Waiting], false),
    (
        (1, CONNECT, &[CONNECT_ACKNOWLEDGE]),
        [Outcome::Live, Outcome::Waiting],
        false,
    ),
    (
        (60, &[], &[DISCONNECT_16]),
        [Outcome::Live, Outcome::Waiting],
        false,
    ),
    (
        (90, &[], &[RELEASE_16]),
        [Outcome::Live, Outcome::Waiting],
        false,
    ),
    (
        (94, &[], &[RELEASE_16]),
        [Outcome::Live, Outcome::Waiting],
        false,
    ),
    ((98, &[], &[]), [CARRIED, Outcome::Waiting], true),
    ((99, &[], &[]), [CARRIED, Outcome::Missed], true),
];

/// Whether the bookings are told to be this, and their channel is in maintenance or not.
fn is_told(exchange: &Exchange, outcomes: &[Outcome; 2], is_broken: bool) -> bool {
    let [first, second] = *outcomes;
    let told = exchange.outcome(1) == Some(first) && exchange.outcome(2) == Some(second);
    match Channel::new(1) {
        Some(channel) => told && exchange.in_maintenance(channel) == is_broken,
        None => false,
    }
}

/// The index of the first line that goes otherwise.
fn first_wrong_line(alloc: Global) -> Option<usize> {
    let mut exchange = exchange_of(alloc, &ROWS)?;
    for (index, (step, outcomes, is_broken)) in LINES.iter().enumerate() {
        let goes = first_wrong(&mut exchange, &[*step]).is_none();
        if !goes || !is_told(&exchange, outcomes, *is_broken) {
            return Some(index);
        }
    }
    Some(LINES.len())
}

#[test]
fn day_of_one_booking(rt: HostRuntime) {
    assert_eq!(rt; first_wrong_line(rt.alloc()), Some(LINES.len()));
}

/// What is told of a booking whose end is the first tick.
fn told_at_the_end(alloc: Global) -> Option<Outcome> {
    let mut exchange = exchange_of(alloc, &[(0, 1, 1, false)])?;
    let sent = exchange.tick();
    if sent.is_empty() {
        exchange.outcome(1)
    } else {
        None
    }
}

#[test]
fn booking_that_ends_at_once(rt: HostRuntime) {
    assert!(rt;
        told_at_the_end(rt.alloc()) == Some(Outcome::Missed),
        "missed"
    );
}
