//! Plans of days with their totals and prices, the two largest among them, and a day that has no plan.

use crate::channels::are_given;
use crate::rows::{Row, bookings_of};
use bx_base::{Bookings, ChannelSet, Plan, Price};
use bx_check::check;
use bx_planner::{NoPlan, plan};
use std::alloc::Global;

/// A day by its name, its channels and bookings, the channels of its best plan (0: refused), what it pays, and the prices
/// (moments and amounts) that prove it.
type Day = (
    &'static str,
    &'static [u8],
    &'static [Row],
    &'static [u8],
    u64,
    &'static [(u32, u64)],
);

static DAYS: [Day; 9] = [
    ("no bookings", &[1, 2, 3], &[], &[], 0, &[]),
    (
        "no channels",
        &[],
        &[(10, 20, 7, false)],
        &[0],
        0,
        &[(10, 7)],
    ),
    (
        "a chain of three",
        &[1],
        &[(0, 10, 4, false), (5, 15, 6, false), (10, 20, 4, false)],
        &[1, 0, 1],
        8,
        &[(5, 2), (10, 4)],
    ),
    (
        "two that touch",
        &[1],
        &[(0, 10, 3, false), (10, 20, 3, false)],
        &[1, 1],
        6,
        &[],
    ),
    (
        "two that overlap",
        &[1],
        &[(0, 10, 5, false), (5, 15, 3, false)],
        &[1, 0],
        5,
        &[(5, 3)],
    ),
    (
        "two alike, on two channels",
        &[15, 17],
        &[(0, 10, 1, false), (0, 10, 1, false)],
        &[15, 17],
        2,
        &[],
    ),
    (
        "two alike, on one channel",
        &[1],
        &[(0, 10, 5, false), (0, 10, 5, false)],
        &[1, 0],
        5,
        &[(0, 5)],
    ),
    (
        "four on two channels",
        &[1, 2],
        &[
            (0, 10, 3, false),
            (0, 10, 2, false),
            (5, 15, 4, false),
            (12, 20, 1, false),
        ],
        &[1, 0, 2, 1],
        8,
        &[(5, 2)],
    ),
    (
        "a must booking in the chain",
        &[1],
        &[(0, 10, 4, false), (5, 15, 6, true), (10, 20, 4, false)],
        &[0, 1, 0],
        6,
        &[(5, 4), (10, 4)],
    ),
];

/// Two bookings of one moment that must be held.
static TOO_MANY: [Row; 3] = [(0, 10, 4, true), (5, 15, 6, true), (10, 20, 4, false)];

fn plan_on(alloc: Global, bookings: &Bookings, numbers: &[u8]) -> Option<Plan> {
    let channels = ChannelSet::from_numbers(numbers).ok()?;
    plan(alloc, bookings, channels).ok()
}

/// Whether the prices are of just these moments and amounts.
pub(crate) fn are_prices(found: &[Price], expected: &[(u32, u64)]) -> bool {
    let mut same = found.len() == expected.len();
    for (price, (moment, amount)) in found.iter().zip(expected) {
        same &= price.moment == *moment && price.amount == *amount;
    }
    same
}

/// Whether the best plan of the day has these channels, this total and these prices, and the checker says so.
fn is_planned(alloc: Global, day: &Day) -> Option<bool> {
    let (_, channels, rows, given, total, prices) = *day;
    let bookings = bookings_of(alloc, rows)?;
    let best = plan_on(alloc, &bookings, channels)?;
    let is_proved = check(&bookings, best.channels, &best) == Ok(total);
    Some(
        is_proved
            && best.total == total
            && are_prices(&best.prices, prices)
            && are_given(&best.assigned, given),
    )
}

#[test]
fn totals_and_prices(rt: HostRuntime) {
    for day in &DAYS {
        assert!(rt; is_planned(rt.alloc(), day) == Some(true), "{}", day.0);
    }
}

/// Whether the day of too many is refused, and the refusal printed.
fn is_crowded(alloc: Global) -> Option<bool> {
    let bookings = bookings_of(alloc, &TOO_MANY)?;
    let channels = ChannelSet::from_numbers(&[1]).ok()?;
    let fail = plan(alloc, &bookings, channels).err()?;
    let printed = fail.to_string(alloc).ok()?;
    Some(fail == NoPlan::TooManyMust(5) && printed.as_str() == "K1 TooManyMust 5")
}

#[test]
fn too_many_that_must_be_held(rt: HostRuntime) {
    assert!(rt; is_crowded(rt.alloc()) == Some(true), "the fault");
}

/// Sixteen thousand bookings, one after another.
fn one_after_another(alloc: Global) -> Option<Bookings> {
    let mut rows = Vec::new(alloc);
    for start in 0..16000u32 {
        rows.push((start, start + 1, 1_000_000_000, false)).ok()?;
    }
    bookings_of(alloc, &rows)
}

/// The chain of three bookings, 5,333 times.
fn many_chains(alloc: Global) -> Option<Bookings> {
    let mut rows = Vec::new(alloc);
    for copy in 0..5333u32 {
        let at = copy * 20;
        rows.push((at, at + 10, 4, false)).ok()?;
        rows.push((at + 5, at + 15, 6, false)).ok()?;
        rows.push((at + 10, at + 20, 4, false)).ok()?;
    }
    bookings_of(alloc, &rows)
}

/// The price with this index of the chains.
fn chain_price(index: u32) -> (u64, u64) {
    let tens = u64::from(index) * 10;
    if index % 2 == 0 {
        (tens + 5, 2)
    } else {
        (tens, 4)
    }
}

/// Whether the prices are those of the chain of three, for each of its copies.
fn are_chained(found: &[Price]) -> bool {
    let mut same = found.len() == 10666;
    for (index, price) in (0..10666u32).zip(found) {
        same &= (u64::from(price.moment), price.amount) == chain_price(index);
    }
    same
}

/// Whether all of the bookings one after another are accepted, without a price.
fn earns_all(alloc: Global) -> Option<bool> {
    let best = plan_on(alloc, &one_after_another(alloc)?, &[1])?;
    Some(best.total == 16_000_000_000_000 && best.prices.is_empty())
}

/// Whether each of the chains is planned as the chain of three is.
fn earns_of_each(alloc: Global) -> Option<bool> {
    let best = plan_on(alloc, &many_chains(alloc)?, &[1])?;
    Some(best.total == 42_664 && are_chained(&best.prices))
}

#[test]
fn largest_days(rt: HostRuntime) {
    assert!(rt; earns_all(rt.alloc()) == Some(true), "one after another");
    assert!(rt; earns_of_each(rt.alloc()) == Some(true), "chains");
}
