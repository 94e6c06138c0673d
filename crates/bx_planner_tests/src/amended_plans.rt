//! Plans that keep the promises of others.

use crate::rows::{Row, bookings_of};
use crate::worked_plans::are_prices;
use bx_base::{Bookings, ChannelSet, Plan};
use bx_channels::Channel;
use bx_planner::{NoAmendment, amend, plan};
use std::alloc::Global;

/// The rows of a day on channel 1, more rows, and what the plan for both accepts, pays, and charges.
struct Amended {
    name: &'static str,
    rows: &'static [Row],
    more: &'static [Row],
    accepted: &'static [bool],
    total: u64,
    prices: &'static [(u32, u64)],
}

static AMENDED: [Amended; 4] = [
    // Both promises are kept, though the dear booking alone would pay more.
    Amended {
        name: "a dear booking comes late",
        rows: &[(0, 10, 4, false), (5, 15, 6, false), (10, 20, 4, false)],
        more: &[(5, 15, 100, false)],
        accepted: &[true, false, true, false],
        total: 8,
        prices: &[(10, 100)],
    },
    // What was refused stays out, and costs of promised bookings are bounded by nothing.
    Amended {
        name: "a must booking behind the others",
        rows: &[(0, 10, 4, false), (5, 15, 6, false), (10, 20, 4, false)],
        more: &[(20, 30, 7, true)],
        accepted: &[true, false, true, true],
        total: 15,
        prices: &[(10, 6)],
    },
    // What is promised has to be held now, and costs what it displaces.
    Amended {
        name: "nothing more",
        rows: &[(0, 10, 5, false), (5, 15, 3, false)],
        more: &[],
        accepted: &[true, false],
        total: 5,
        prices: &[(5, 3)],
    },
    Amended {
        name: "nothing before",
        rows: &[],
        more: &[(0, 10, 5, false), (0, 10, 6, false)],
        accepted: &[false, true],
        total: 6,
        prices: &[(0, 5)],
    },
];

fn plan_on_one(alloc: Global, bookings: &Bookings) -> Option<Plan> {
    plan(alloc, bookings, ChannelSet::from_numbers(&[1]).ok()?).ok()
}

/// Whether just these bookings have a channel.
fn are_accepted(assigned: &[Option<Channel>], accepted: &[bool]) -> bool {
    let mut same = assigned.len() == accepted.len();
    for (channel, is_accepted) in assigned.iter().zip(accepted) {
        same &= channel.is_some() == *is_accepted;
    }
    same
}

fn is_as(found: &Plan, expected: &Amended) -> bool {
    found.total == expected.total
        && are_accepted(&found.assigned, expected.accepted)
        && are_prices(&found.prices, expected.prices)
        && found.carried()
}

/// Whether the plan of the rows, amended by more, is the expected one.
fn is_amended(alloc: Global, case: &Amended) -> Option<bool> {
    let first = plan_on_one(alloc, &bookings_of(alloc, case.rows)?)?;
    let second = amend(alloc, &first, &bookings_of(alloc, case.more)?).ok()?;
    Some(is_as(&second, case))
}

#[test]
fn promises_are_kept(rt: HostRuntime) {
    for case in &AMENDED {
        assert!(rt; is_amended(rt.alloc(), case) == Some(true), "{}", case.name);
    }
}

/// A plan that is amended twice: its first and third bookings, then the last, are promised.
fn amended_twice(alloc: Global) -> Option<Plan> {
    let rows = [(0, 10, 4, false), (5, 15, 6, false), (10, 20, 4, false)];
    let first = plan_on_one(alloc, &bookings_of(alloc, &rows)?)?;
    let second = amend(alloc, &first, &bookings_of(alloc, &[(20, 30, 1, false)])?).ok()?;
    amend(
        alloc,
        &second,
        &bookings_of(alloc, &[(15, 30, 900, false)])?,
    )
    .ok()
}

/// Whether a plan that is amended twice keeps its promises.
fn keeps_both(alloc: Global) -> Option<bool> {
    let last = amended_twice(alloc)?;
    let accepted = [true, false, true, true, false];
    Some(last.total == 9 && are_accepted(&last.assigned, &accepted))
}

#[test]
fn promises_are_kept_twice_over(rt: HostRuntime) {
    assert!(rt; keeps_both(rt.alloc()) == Some(true), "promises");
}

/// The refusal of a plan of so many bookings, one after another, by one more that must be held from 5 to 15.
fn refused(alloc: Global, count: u16) -> Option<NoAmendment> {
    let mut rows = Vec::new(alloc);
    for row in 0..count {
        let start = u32::from(row) * 10;
        rows.push((start, start + 10, 4, false)).ok()?;
    }
    let first = plan_on_one(alloc, &bookings_of(alloc, &rows)?)?;
    amend(alloc, &first, &bookings_of(alloc, &[(5, 15, 100, true)])?).err()
}

/// So many bookings, and how the refusal of one more is printed.
static REFUSALS: [(u16, &str); 2] = [(2, "K1 TooManyMust 5"), (16000, "K2 TooMany")];

fn is_refused(alloc: Global, count: u16, printed: &str) -> Option<bool> {
    let refusal = refused(alloc, count)?;
    Some(refusal.to_string(alloc).ok()?.as_str() == printed)
}

#[test]
fn refusals_of_an_amendment(rt: HostRuntime) {
    for (count, printed) in &REFUSALS {
        assert!(rt;
            is_refused(rt.alloc(), *count, printed) == Some(true),
            "{printed}"
        );
    }
}
