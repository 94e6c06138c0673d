//! Distances by a heap: a chain, many small days by rounds too, and a day on which forty calls at a time want thirty
//! channels.

use crate::distances::{Asked, Looked, are, asked_of, distances_by, distances_of, grows, line_of};
use crate::rows::{Drawn, Row, bookings_of, random_rows};
use bx_base::{Bookings, ChannelSet, Plan};
use bx_cases::SHARE;
use bx_dist::{Carried, Dist, Distances, Part, Potentials, Step};
use bx_flow::least_cost;
use bx_heap::HeapDist;
use bx_line::Line;
use bx_planner::plan;
use bx_rounds::Rounds;
use std::alloc::Global;

static CHAIN: [Row; 3] = [(0, 10, 4, false), (5, 15, 6, false), (10, 20, 4, false)];

/// Pays that are often the same.
static OFTEN_THE_SAME: Drawn = Drawn {
    starts: 9,
    lengths: 5,
    pays: 3,
};

/// A day by its name, how many units are sent along its line, and its bookings.
type Day = (&'static str, u8, &'static [Row]);

static DAYS: [Day; 9] = [
    ("no bookings", 3, &[]),
    ("no unit", 0, &[(10, 20, 7, false)]),
    (
        "a chain of three",
        1,
        &[(0, 10, 4, false), (5, 15, 6, false), (10, 20, 4, false)],
    ),
    (
        "two that touch",
        1,
        &[(0, 10, 3, false), (10, 20, 3, false)],
    ),
    (
        "two that overlap",
        1,
        &[(0, 10, 5, false), (5, 15, 3, false)],
    ),
    (
        "two alike, on two channels",
        2,
        &[(0, 10, 1, false), (0, 10, 1, false)],
    ),
    (
        "two alike, on one channel",
        1,
        &[(0, 10, 5, false), (0, 10, 5, false)],
    ),
    (
        "four on two channels",
        2,
        &[
            (0, 10, 3, false),
            (0, 10, 2, false),
            (5, 15, 4, false),
            (12, 20, 1, false),
        ],
    ),
    (
        "a must booking in the chain",
        1,
        &[(0, 10, 4, false), (5, 15, 6, true), (10, 20, 4, false)],
    ),
];

/// What the arc of a row pays.
fn pay_of(line: &Line, row: u16) -> i64 {
    match line.arc_of(row) {
        Some(arc) => arc.pay as i64,
        None => 0,
    }
}

/// What the steps of the walk cost together.
fn walk_cost(line: &Line, walk: &[Step]) -> i64 {
    let mut cost: i64 = 0;
    for step in walk {
        match *step {
            Step::Take(row) => cost = cost.saturating_sub(pay_of(line, row)),
            Step::Give(row) => cost = cost.saturating_add(pay_of(line, row)),
            Step::Idle(_) | Step::Back(_) => {}
        }
    }
    cost
}

pub(crate) fn are_same(a: &Potentials, b: &Potentials, places: u16) -> bool {
    let mut same = true;
    for place in 0..places {
        same &= a.at(place) == b.at(place);
    }
    same
}

/// The distances by a heap, where they are those by rounds, and the walk is simple and as long as the last of them.
struct ByHeap;

impl Looked for ByHeap {
    fn dist(&self, alloc: Global, asked: Asked<'_>) -> Option<Dist> {
        let line = asked.line;
        let rounds = Potentials::of(distances_of(alloc, asked)?);
        let again = Potentials::of(distances_by(&HeapDist, alloc, asked)?);
        let heap = distances_by(&HeapDist, alloc, asked)?;
        let length = heap.length(line.places().saturating_sub(1));
        let is_least = walk_cost(line, heap.walk()) == length
            && heap.belongs_to(line, asked.carried);
        if is_least && are_same(&again, &rounds, line.places()) {
            Some(heap)
        } else {
            None
        }
    }
}

#[test]
fn a_chain(rt: HostRuntime) {
    let walk = [Step::Take(1), Step::Take(3)];
    let found = chain_by_heap(rt.alloc());
    assert!(rt; found.is_some(), "distances");
    if let Some(dist) = found {
        assert!(rt; are(&dist, &[0, 0, -4, -6, -8, 0]), "lengths");
        assert!(rt; dist.walk() == walk.as_slice(), "walk");
    }
}

/// The distances of the chain with nothing carried.
fn chain_by_heap(alloc: Global) -> Option<Dist> {
    let line = line_of(alloc, &CHAIN)?;
    let nothing = Carried::empty(alloc, &line).ok()?;
    let first = Potentials::first(alloc, &line).ok()?;
    let asked = asked_of(&line, &nothing, &first, Part::Whole);
    distances_by(&HeapDist, alloc, asked)
}

#[test]
fn as_by_rounds_over_many_small_days(rt: HostRuntime) {
    let mut seed: u32 = 7;
    for day in 0..200 / SHARE {
        let (rows, next) = random_rows::<8>(seed, &OFTEN_THE_SAME);
        assert!(rt; grows(&ByHeap, rt.alloc(), &rows, 4).is_some(), "day {day}");
        seed = next;
    }
}

/// Whether a flow of least cost has the same potentials by a heap as by rounds.
fn has_same_potentials(alloc: Global, day: &Day) -> Option<bool> {
    let line = line_of(alloc, day.2)?;
    let units = day.1.min(30);
    let (_, heap) = least_cost(alloc, &line, units, &HeapDist).ok()?;
    let (_, rounds) = least_cost(alloc, &line, units, &Rounds).ok()?;
    Some(are_same(&heap, &rounds, line.places()))
}

#[test]
fn the_same_potentials_through_a_flow(rt: HostRuntime) {
    for day in &DAYS {
        assert!(rt;
            has_same_potentials(rt.alloc(), day) == Some(true),
            "{}",
            day.0
        );
    }
}

/// For each of a hundred seconds forty bookings, of pays 1 to 40.
fn forty_at_a_time(alloc: Global) -> Option<Bookings> {
    let mut rows = Vec::new(alloc);
    for second in 0..100u32 {
        for pay in 1..41u64 {
            rows.push((second, second + 1, pay, false)).ok()?;
        }
    }
    bookings_of(alloc, &rows)
}

/// The numbers of all thirty channels.
static THIRTY: [u8; 30] = [
    1, 2, 3, 4, 5, 6, 7, 8, 9, 10, 11, 12, 13, 14, 15, 17, 18, 19, 20, 21, 22, 23, 24, 25, 26, 27,
    28, 29, 30, 31,
];

/// Whether just the thirty bookings of a second that pay most have a channel.
fn are_highest_accepted(plan: &Plan) -> bool {
    let mut same = true;
    for (index, channel) in (0..4000u32).zip(&plan.assigned) {
        same &= channel.is_some() == (index % 40 >= 10);
    }
    same
}

/// Whether each second has a price of 10.
fn are_tens(plan: &Plan) -> bool {
    let mut same = plan.prices.len() == 100;
    for (second, price) in (0..100u32).zip(&plan.prices) {
        same &= price.moment == second && price.amount == 10;
    }
    same
}

#[test]
fn forty_calls_at_a_time_on_thirty_channels(rt: HostRuntime) {
    let found = plan_of_forty(rt.alloc());
    assert!(rt; found.is_some(), "a plan");
    if let Some(best) = found {
        assert_eq!(rt; best.total, 76_500);
        assert!(rt; are_highest_accepted(&best), "accepted");
        assert!(rt; are_tens(&best), "prices");
    }
}

fn plan_of_forty(alloc: Global) -> Option<Plan> {
    let channels = ChannelSet::from_numbers(&THIRTY).ok()?;
    plan(alloc, &forty_at_a_time(alloc)?, channels).ok()
}
