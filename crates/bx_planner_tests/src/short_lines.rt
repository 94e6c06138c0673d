//! The shorter line of cliques by hand on small days, and flows that are the same by way of it and on the whole line.

use crate::distances::{asked_of, distances_of, line_of, send};
use crate::heap_distances::are_same;
use crate::rows::{Drawn, Row, random_rows};
use bx_cases::SHARE;
use bx_dist::{Carried, Dist, Part, Potentials};
use bx_flow::least_cost;
use bx_heap::HeapDist;
use bx_line::Line;
use std::alloc::Global;

/// A day by its name, its bookings, for each moment how many maximal sets have ended by then, how many places the shorter
/// line has, and from which of them to which each booking leads there.
type Day = (
    &'static str,
    &'static [Row],
    &'static [u16],
    u16,
    &'static [(u16, u16)],
);

static DAYS: [Day; 8] = [
    ("no moments", &[], &[], 0, &[]),
    ("one call", &[(10, 20, 7, false)], &[0, 1], 2, &[(0, 1)]),
    (
        "all run at one moment",
        &[(0, 9, 1, false), (4, 5, 2, false), (2, 7, 3, true)],
        &[0, 0, 0, 1, 1, 1],
        2,
        &[(0, 1), (0, 1), (0, 1)],
    ),
    (
        "two that touch",
        &[(0, 10, 3, false), (10, 20, 3, false)],
        &[0, 1, 2],
        3,
        &[(0, 1), (1, 2)],
    ),
    (
        "two apart",
        &[(0, 10, 3, false), (15, 20, 3, false)],
        &[0, 1, 1, 2],
        3,
        &[(0, 1), (1, 2)],
    ),
    (
        "a chain of three",
        &[(0, 10, 4, false), (5, 15, 6, false), (10, 20, 4, false)],
        &[0, 0, 1, 2, 2],
        3,
        &[(0, 1), (0, 2), (1, 2)],
    ),
    (
        "ends without a start between",
        &[
            (0, 30, 1, false),
            (0, 10, 2, false),
            (5, 20, 3, false),
            (25, 40, 4, false),
        ],
        &[0, 0, 1, 1, 1, 2, 2],
        3,
        &[(0, 2), (0, 1), (0, 1), (1, 2)],
    ),
    (
        "starts without an end between",
        &[
            (0, 5, 1, false),
            (1, 9, 2, false),
            (6, 9, 3, false),
            (7, 8, 4, false),
        ],
        &[0, 0, 1, 1, 1, 2, 2],
        3,
        &[(0, 1), (0, 2), (1, 2), (1, 2)],
    ),
];

/// From where to where a row leads.
fn ends_of(line: &Line, row: u16) -> Option<(u16, u16)> {
    let arc = line.arc_of(row)?;
    Some((arc.from, arc.to))
}

/// Whether each row leads from and to these places.
fn leads(line: &Line, ends: &[(u16, u16)]) -> bool {
    let mut same = line.rows() as usize == ends.len();
    for (row, end) in (1..4001u16).zip(ends) {
        same &= ends_of(line, row) == Some(*end);
    }
    same
}

/// Whether the counts of the day and its shorter line are these.
fn is_shortened(alloc: Global, day: &Day) -> Option<bool> {
    let (_, rows, counts, places, ends) = *day;
    let line = line_of(alloc, rows)?;
    let found = line.cliques(alloc).ok()?;
    let shorter = line.shortened(alloc, &found).ok()?;
    Some(found.as_slice() == counts && shorter.places() == places && leads(&shorter, ends))
}

#[test]
fn counts_and_places(rt: HostRuntime) {
    for day in &DAYS {
        assert!(rt; is_shortened(rt.alloc(), day) == Some(true), "{}", day.0);
    }
}

/// What the arcs of the rows that carry a unit pay together.
fn paid(line: &Line, carried: &Carried) -> u64 {
    let mut paid: u64 = 0;
    for row in 0..line.rows() {
        if carried.accepted(row + 1) {
            paid = paid.saturating_add(line.arc(row).pay);
        }
    }
    paid
}

/// A flow of so many units that grew on the whole line, and its distances without must rows, both by rounds.
fn on_the_whole_line(alloc: Global, line: &Line, units: u8) -> Option<(Carried, Dist)> {
    let mut carried = Carried::empty(alloc, line).ok()?;
    let mut potentials = Potentials::first(alloc, line).ok()?;
    for _ in 0..units {
        let dist = distances_of(alloc, asked_of(line, &carried, &potentials, Part::Whole))?;
        send(&mut carried, line, &dist)?;
        potentials = Potentials::of(dist);
    }
    let free = distances_of(alloc, asked_of(line, &carried, &potentials, Part::Free))?;
    Some((carried, free))
}

/// Whether a flow by way of the shorter line pays as much, and leaves the same distances.
fn is_same_both_ways(alloc: Global, rows: &[Row], units: u8) -> Option<bool> {
    let line = line_of(alloc, rows)?;
    let (whole, free) = on_the_whole_line(alloc, &line, units)?;
    let (short, distances) = least_cost(alloc, &line, units.min(30), &HeapDist).ok()?;
    Some(
        short.belongs_to(&line)
            && paid(&line, &short) == paid(&line, &whole)
            && are_same(&Potentials::of(free), &distances, line.places()),
    )
}

/// Whether the shorter line has fewer places.
fn is_shorter(alloc: Global, rows: &[Row]) -> Option<bool> {
    let line = line_of(alloc, rows)?;
    let counts = line.cliques(alloc).ok()?;
    let shorter = line.shortened(alloc, &counts).ok()?;
    Some(shorter.places() < line.places())
}

/// Calls that often touch, or start or end together.
static CLOSE: Drawn = Drawn {
    starts: 9,
    lengths: 5,
    pays: 3,
};

/// Calls of many lengths and pays.
static APART: Drawn = Drawn {
    starts: 40,
    lengths: 16,
    pays: 50,
};

/// Of so many drawn days, on how many the shorter line has fewer places; none where a flow of some count of units up to
/// four is not the same both ways.
fn drawn_days(alloc: Global, drawn: &Drawn, days: u32) -> Option<u32> {
    let mut seed: u32 = 43;
    let mut shorter: u32 = 0;
    for day in 0..days {
        let (rows, next) = random_rows::<8>(seed, drawn);
        if !is_same_both_ways(alloc, &rows, (day % 5) as u8)? {
            return None;
        }
        shorter = shorter.saturating_add(u32::from(is_shorter(alloc, &rows)?));
        seed = next;
    }
    Some(shorter)
}

#[test]
fn as_on_the_whole_line_over_many_small_days(rt: HostRuntime) {
    for drawn in [&CLOSE, &APART] {
        let shorter = drawn_days(rt.alloc(), drawn, 200 / SHARE);
        assert!(rt; shorter > Some(100 / SHARE), "a day");
    }
}

static TOGETHER: [Row; 3] = [(0, 20, 10, false), (0, 20, 8, false), (0, 10, 1, false)];

/// The distances of one unit, which on the shorter line have a fall less.
fn distances_of_one(alloc: Global) -> Option<[i64; 3]> {
    let line = line_of(alloc, &TOGETHER)?;
    let (_, distances) = least_cost(alloc, &line, 1, &HeapDist).ok()?;
    Some([distances.at(0), distances.at(1), distances.at(2)])
}

#[test]
fn least_distances_are_those_of_the_whole_line(rt: HostRuntime) {
    assert!(rt;
        distances_of_one(rt.alloc()) == Some([0, -1, -8]),
        "distances"
    );
}
