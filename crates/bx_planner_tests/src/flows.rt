//! Flows of least cost along the line of a small day.

use crate::rows::{Row, bookings_of};
use bx_dist::{Carried, Potentials};
use bx_flow::least_cost;
use bx_line::Line;
use bx_rounds::Rounds;
use std::alloc::Global;

static FREE: [Row; 3] = [(0, 10, 4, false), (5, 15, 6, false), (10, 20, 4, false)];

static SECOND_MUST: [Row; 3] = [(0, 10, 4, false), (5, 15, 6, true), (10, 20, 4, false)];

/// A flow by its name, whether the second booking must be held, how many units are sent, the rows that carry one, and the
/// distances.
type Case = (&'static str, bool, u8, [bool; 3], [i64; 5]);

static FLOWS: [Case; 4] = [
    (
        "no unit",
        false,
        0,
        [false, false, false],
        [0, 0, -4, -6, -8],
    ),
    (
        "one unit",
        false,
        1,
        [true, false, true],
        [0, 0, -2, -6, -6],
    ),
    ("two units", false, 2, [true, true, true], [0, 0, 0, 0, 0]),
    (
        "one unit and a must booking",
        true,
        1,
        [false, true, false],
        [0, 0, -4, -8, -8],
    ),
];

fn carries(carried: &Carried, rows: [bool; 3]) -> bool {
    [
        carried.accepted(1),
        carried.accepted(2),
        carried.accepted(3),
    ] == rows
}

fn are(potentials: &Potentials, heights: [i64; 5]) -> bool {
    let mut same = true;
    for (place, height) in (0..5u16).zip(heights) {
        same &= potentials.at(place) == height;
    }
    same
}

/// Whether the flow of the case carries just these rows, and has these distances.
fn is_least(alloc: Global, case: &Case) -> Option<bool> {
    let (_, is_must, units, rows, heights) = *case;
    let bookings = bookings_of(alloc, if is_must { &SECOND_MUST } else { &FREE })?;
    let line = Line::of(alloc, &bookings).ok()?;
    let (carried, potentials) = least_cost(alloc, &line, units.min(30), &Rounds).ok()?;
    Some(carried.units() == units && carries(&carried, rows) && are(&potentials, heights))
}

#[test]
fn no_unit_and_more(rt: HostRuntime) {
    for case in &FLOWS {
        assert!(rt; is_least(rt.alloc(), case) == Some(true), "{}", case.0);
    }
}

/// Whether the flow along the line of no booking is of no unit.
fn sends_nothing(alloc: Global) -> Option<bool> {
    let line = Line::of(alloc, &bookings_of(alloc, &[])?).ok()?;
    let (carried, potentials) = least_cost(alloc, &line, 30, &Rounds).ok()?;
    Some(carried.units() == 0 && potentials.at(0) == 0)
}

#[test]
fn no_moments(rt: HostRuntime) {
    assert!(rt; sends_nothing(rt.alloc()) == Some(true), "a unit");
}
