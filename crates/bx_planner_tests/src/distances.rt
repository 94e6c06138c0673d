//! Distances along the line of a small day, and a flow that grows by a unit.

use crate::rows::{Row, bookings_of};
use bx_dist::{Carried, Dist, Distances, Part, Potentials, Step};
use bx_line::Line;
use bx_rounds::Rounds;
use std::alloc::Global;
use std::test::Fail;

static CHAIN: [Row; 3] = [(0, 10, 4, false), (5, 15, 6, false), (10, 20, 4, false)];

static ONE_MUST: [Row; 2] = [(0, 10, 4, true), (5, 15, 6, false)];

pub(crate) fn line_of(alloc: Global, rows: &[Row]) -> Option<Line> {
    Line::of(alloc, &bookings_of(alloc, rows)?).ok()
}

/// Of what distances are asked for.
#[derive(Clone, Copy)]
pub(crate) struct Asked<'a> {
    pub(crate) line: &'a Line,
    pub(crate) carried: &'a Carried,
    pub(crate) potentials: &'a Potentials,
    pub(crate) part: Part,
}

/// The question for the distances in this part.
pub(crate) fn asked_of<'a>(
    line: &'a Line,
    carried: &'a Carried,
    potentials: &'a Potentials,
    part: Part,
) -> Asked<'a> {
    Asked {
        line,
        carried,
        potentials,
        part,
    }
}

/// The distances by this method, where what they need is there.
pub(crate) fn distances_by<D: Distances>(
    method: &D,
    alloc: Global,
    asked: Asked<'_>,
) -> Option<Dist> {
    let Asked {
        line,
        carried,
        potentials,
        part,
    } = asked;
    if line.places() == 0 || !carried.belongs_to(line) || !potentials.fits(line, carried) {
        return None;
    }
    method
        .from_first(alloc, line, carried, potentials, part)
        .ok()
}

/// The distances by rounds, where what they need is there.
pub(crate) fn distances_of(alloc: Global, asked: Asked<'_>) -> Option<Dist> {
    distances_by(&Rounds, alloc, asked)
}

/// Whether the distances are these.
pub(crate) fn are(dist: &Dist, lengths: &[i64]) -> bool {
    let mut same = true;
    for (place, length) in (0..8000u16).zip(lengths) {
        same &= dist.length(place) == *length;
    }
    same
}

/// Sends a unit along the walk; none where it cannot be sent.
pub(crate) fn send(carried: &mut Carried, line: &Line, dist: &Dist) -> Option<()> {
    if !carried.belongs_to(line) || carried.units() >= 30 || !dist.belongs_to(line, carried) {
        return None;
    }
    carried.send(line, dist);
    Some(())
}

/// Distances that are looked at while a flow grows.
pub(crate) trait Looked {
    /// The distances in this part; none where they are not what they should be.
    fn dist(&self, alloc: Global, asked: Asked<'_>) -> Option<Dist>;
}

/// Sends a unit along a least walk, where both parts have the distances that they should have.
fn grow<L: Looked>(
    looked: &L,
    alloc: Global,
    line: &Line,
    carried: &mut Carried,
    potentials: Potentials,
) -> Option<Potentials> {
    let _free = looked.dist(alloc, asked_of(line, carried, &potentials, Part::Free))?;
    let dist = looked.dist(alloc, asked_of(line, carried, &potentials, Part::Whole))?;
    send(carried, line, &dist)?;
    Some(Potentials::of(dist))
}

/// Some where the distances are what they should be while a flow grows by so many units.
pub(crate) fn grows<L: Looked>(looked: &L, alloc: Global, rows: &[Row], units: u8) -> Option<()> {
    let line = line_of(alloc, rows)?;
    let mut carried = Carried::empty(alloc, &line).ok()?;
    let mut potentials = Potentials::first(alloc, &line).ok()?;
    for _ in 0..units {
        potentials = grow(looked, alloc, &line, &mut carried, potentials)?;
    }
    Some(())
}

fn are_potentials(potentials: &Potentials, heights: &[i64]) -> bool {
    let mut same = true;
    for (place, height) in (0..8000u16).zip(heights) {
        same &= potentials.at(place) == *height;
    }
    same
}

/// Whether the flow has these rows alone of the first three, and nothing idle at both ends of the chain.
fn carries(carried: &Carried, rows: [bool; 3]) -> bool {
    let accepted = [
        carried.accepted(1),
        carried.accepted(2),
        carried.accepted(3),
    ];
    accepted == rows && carried.idle(0) == 0 && carried.idle(4) == 0
}

/// Whether the first walk takes the first and the third booking, and is a walk of this flow.
fn is_first_walk(dist: &Dist, line: &Line, carried: &Carried) -> bool {
    let walk = [Step::Take(1), Step::Take(3)];
    dist.walk() == walk.as_slice() && dist.belongs_to(line, carried)
}

/// Whether all is as it should be before and after a unit is sent along the chain.
fn chain_is_right(alloc: Global, line: &Line, carried: &mut Carried) -> Option<bool> {
    let first = Potentials::first(alloc, line).ok()?;
    let dist = distances_of(alloc, asked_of(line, carried, &first, Part::Whole))?;
    let before = are_potentials(&first, &[0, 0, -4, -6, -8, 0])
        && are(&dist, &[0, 0, -4, -6, -8, 0])
        && is_first_walk(&dist, line, carried);
    send(carried, line, &dist)?;
    let sent = carries(carried, [true, false, true]) && carried.units() == 1;
    let is_old = !dist.belongs_to(line, carried);
    let potentials = Potentials::of(dist);
    let after = distances_of(alloc, asked_of(line, carried, &potentials, Part::Whole))?;
    Some(before && sent && is_old && are(&after, &[0, 0, -2, -6, -6]))
}

#[test]
fn three_bookings_in_a_chain(rt: HostRuntime) -> Result<(), Fail> {
    let line = line_of(rt.alloc(), &CHAIN).ok_or("line")?;
    let mut carried = Carried::empty(rt.alloc(), &line)?;
    assert!(rt;
        chain_is_right(rt.alloc(), &line, &mut carried) == Some(true),
        "chain"
    );
    Ok(())
}

/// Whether the distances without the must row leave its arc out.
fn leaves_must_out(alloc: Global) -> Option<bool> {
    let line = line_of(alloc, &ONE_MUST)?;
    let nothing = Carried::empty(alloc, &line).ok()?;
    let steep = Potentials::first(alloc, &line).ok()?;
    let free = distances_of(alloc, asked_of(&line, &nothing, &steep, Part::Free))?;
    Some(are(&free, &[0, 0, 0, -6]))
}

/// Whether the line of no booking has potentials of 0, and a flow of nothing.
fn has_nothing(alloc: Global) -> Option<bool> {
    let none = line_of(alloc, &[])?;
    let first = Potentials::first(alloc, &none).ok()?;
    let nothing = Carried::empty(alloc, &none).ok()?;
    Some(first.at(0) == 0 && nothing.units() == 0)
}

#[test]
fn a_must_booking_and_no_booking(rt: HostRuntime) {
    assert!(rt; leaves_must_out(rt.alloc()) == Some(true), "a must booking");
    assert!(rt; has_nothing(rt.alloc()) == Some(true), "no booking");
}
