//! What each count of channels would earn: worked days, a search through all choices of bookings, and other prices.

use crate::proved_plans::proved;
use crate::rows::{Row, bookings_of};
use crate::sets::{best_of_all, first_above, six_rows};
use bx_base::{ChannelSet, Plan, Price};
use bx_cases::SHARE;
use bx_channels::Channel;
use bx_check::price_sum;
use bx_planner::{Earning, capacity, next_gain};
use std::alloc::Global;
use std::test::Fail;

/// A day by its name, its bookings, and what 0, 1, .. channels would earn; the last of these is for all further counts too.
type Day = (&'static str, &'static [Row], &'static [Earning]);

static DAYS: [Day; 5] = [
    ("no bookings", &[], &[Earning::Most { total: 0, next: 0 }]),
    (
        "one booking",
        &[(10, 20, 7, false)],
        &[
            Earning::Most { total: 0, next: 7 },
            Earning::Most { total: 7, next: 0 },
        ],
    ),
    (
        "a chain of three",
        &[(0, 10, 4, false), (5, 15, 6, false), (10, 20, 4, false)],
        &[
            Earning::Most { total: 0, next: 8 },
            Earning::Most { total: 8, next: 6 },
            Earning::Most { total: 14, next: 0 },
        ],
    ),
    (
        "a must booking in the chain",
        &[(0, 10, 4, false), (5, 15, 6, true), (10, 20, 4, false)],
        &[
            Earning::TooFew(5),
            Earning::Most { total: 6, next: 8 },
            Earning::Most { total: 14, next: 0 },
        ],
    ),
    (
        "two must bookings that overlap",
        &[(0, 10, 4, true), (5, 15, 6, true), (5, 20, 9, false)],
        &[
            Earning::TooFew(0),
            Earning::TooFew(5),
            Earning::Most { total: 10, next: 9 },
            Earning::Most { total: 19, next: 0 },
        ],
    ),
];

/// Whether these are the earnings of 0 to 30 channels.
fn are_earned(found: &[Earning], expected: &[Earning]) -> bool {
    let mut same = found.len() == 31;
    for (count, earning) in found.iter().enumerate() {
        same &= expected.get(count).or(expected.last()) == Some(earning);
    }
    same
}

/// Whether the day earns what it should.
fn is_earned(alloc: Global, day: &Day) -> Option<bool> {
    let earnings = capacity(alloc, &bookings_of(alloc, day.1)?).ok()?;
    Some(are_earned(&earnings, day.2))
}

#[test]
fn worked_days(rt: HostRuntime) {
    for day in &DAYS {
        assert!(rt; is_earned(rt.alloc(), day) == Some(true), "{}", day.0);
    }
}

/// What the search through all sets says of so many channels.
fn searched(rows: &[Row], count: usize) -> Option<Earning> {
    let Some(total) = best_of_all(rows, count) else {
        return first_above(rows, count).map(Earning::TooFew);
    };
    let more = best_of_all(rows, count.saturating_add(1))?;
    let next = more.checked_sub(total)?;
    Some(Earning::Most { total, next })
}

/// Whether 0 to 30 channels earn what the search says. Six carry all six rows, so more earn the same.
fn agrees(alloc: Global, rows: &[Row]) -> Option<bool> {
    let earnings = capacity(alloc, &bookings_of(alloc, rows)?).ok()?;
    let mut expected = Vec::new(alloc);
    for count in 0..7usize {
        expected.push(searched(rows, count)?).ok()?;
    }
    Some(are_earned(&earnings, &expected))
}

#[test]
fn no_choice_earns_more(rt: HostRuntime) -> Result<(), Fail> {
    for seed in 0..150 / SHARE {
        let rows = six_rows(seed.wrapping_mul(104_729), 5);
        let agrees = agrees(rt.alloc(), &rows).ok_or("memory")?;
        assert!(rt; agrees, "{seed}");
    }
    Ok(())
}

/// A plan that is proved by a price of 5, where one of 3 would do.
fn dear_plan(alloc: Global) -> Option<Plan> {
    let bookings = bookings_of(alloc, &[(0, 10, 5, false), (5, 15, 3, false)])?;
    let channels = ChannelSet::from_numbers(&[1]).ok()?;
    let mut assigned = Vec::new(alloc);
    assigned.push(Channel::new(1)).ok()?;
    assigned.push(None).ok()?;
    let mut prices = Vec::new(alloc);
    prices.push(Price::new(5, 5)?).ok()?;
    Plan::new(bookings, channels, assigned, prices, 5)
}

/// What the prices of that plan come to, and what one more channel would add.
fn dear_gains(alloc: Global) -> Option<(u64, u64)> {
    let plan = proved(dear_plan(alloc)?)?;
    let gain = next_gain(alloc, &plan).ok()?;
    Some((price_sum(&plan.prices), gain))
}

#[test]
fn prices_of_another_hand(rt: HostRuntime) {
    assert_eq!(rt; dear_gains(rt.alloc()), Some((5, 3)));
}
