//! Worked plans, with what the check says of them.

use bx_base::{Booking, Bookings, ChannelSet, Plan, Price};
use bx_channels::{Channel, Number};
use bx_check::{CheckFault, check};
use std::alloc::Global;
use std::test::Fail;

/// A row: its start, its end, its pay, and its channel or 0.
type Row = (u32, u32, u64, u8);

/// A plan: its rows, the must row or 0, its channels, its prices (moments and amounts) and its total.
type Planned = (
    &'static [Row],
    u16,
    &'static [u8],
    &'static [(u32, u64)],
    u64,
);

const THREE: &[Row] = &[(0, 10, 4, 1), (5, 15, 6, 0), (10, 20, 4, 1)];

const THIRD_LEFT_OUT: &[Row] = &[(0, 10, 4, 1), (5, 15, 6, 0), (10, 20, 4, 0)];

const SECOND: &[Row] = &[(0, 10, 4, 0), (5, 15, 6, 1), (10, 20, 4, 0)];

const FOUR: &[Row] = &[(0, 10, 3, 1), (0, 10, 2, 0), (5, 15, 4, 2), (12, 20, 1, 1)];

const FOUR_ON_ONE: &[Row] = &[(0, 10, 3, 1), (0, 10, 2, 0), (5, 15, 4, 1), (12, 20, 1, 1)];

const FOUR_OUTSIDE: &[Row] = &[(0, 10, 3, 1), (0, 10, 2, 0), (5, 15, 4, 3), (12, 20, 1, 1)];

/// A plan by its name, and what the check says of it as a plan of its own bookings and channels.
static PLANS: [(&str, Planned, &str); 21] = [
    ("one booking", (&[(0, 60, 5, 1)], 0, &[1], &[], 5), "5"),
    ("no bookings", (&[], 0, &[1, 2, 3], &[], 0), "0"),
    (
        "no channels",
        (&[(10, 20, 7, 0)], 0, &[], &[(10, 7)], 0),
        "0",
    ),
    (
        "a chain of three",
        (THREE, 0, &[1], &[(5, 2), (10, 4)], 8),
        "8",
    ),
    (
        "two that touch",
        (&[(0, 10, 3, 1), (10, 20, 3, 1)], 0, &[1], &[], 6),
        "6",
    ),
    (
        "two that overlap",
        (&[(0, 10, 5, 1), (5, 15, 3, 0)], 0, &[1], &[(5, 3)], 5),
        "5",
    ),
    (
        "two alike, on two channels",
        (&[(0, 10, 1, 15), (0, 10, 1, 17)], 0, &[15, 17], &[], 2),
        "2",
    ),
    (
        "the first of two alike",
        (&[(0, 10, 5, 1), (0, 10, 5, 0)], 0, &[1], &[(0, 5)], 5),
        "5",
    ),
    (
        "the second of two alike",
        (&[(0, 10, 5, 0), (0, 10, 5, 1)], 0, &[1], &[(0, 5)], 5),
        "5",
    ),
    (
        "a price too low",
        (THREE, 0, &[1], &[(5, 1), (10, 4)], 8),
        "C7 NotProved 9",
    ),
    (
        "a total too high",
        (THREE, 0, &[1], &[(5, 2), (10, 4)], 9),
        "C5 WrongTotal",
    ),
    (
        "a booking left out",
        (THIRD_LEFT_OUT, 0, &[1], &[(5, 2), (10, 4)], 8),
        "C5 WrongTotal",
    ),
    // A bound over the accepted rows alone would be 0, the total of these.
    (
        "no price while a channel is free",
        (&[(0, 60, 5, 0)], 0, &[1], &[], 0),
        "C7 NotProved 5",
    ),
    (
        "a price while a channel is free",
        (&[(0, 60, 5, 0)], 0, &[1], &[(0, 5)], 0),
        "C7 NotProved 5",
    ),
    (
        "a later price first",
        (THREE, 0, &[1], &[(10, 4), (5, 2)], 8),
        "C6 PricesOutOfOrder",
    ),
    (
        "two prices of one moment",
        (THREE, 0, &[1], &[(5, 2), (5, 4)], 8),
        "C6 PricesOutOfOrder",
    ),
    (
        "four on two channels",
        (FOUR, 0, &[1, 2], &[(5, 2)], 8),
        "8",
    ),
    (
        "two on one channel at once",
        (FOUR_ON_ONE, 0, &[1, 2], &[(5, 2)], 8),
        "C4 Overlap 1 3",
    ),
    (
        "a channel out of service",
        (FOUR_OUTSIDE, 0, &[1, 2], &[(5, 2)], 8),
        "C3 NotInService 3",
    ),
    (
        "a must booking in the chain",
        (SECOND, 2, &[1], &[(5, 4), (10, 4)], 6),
        "6",
    ),
    (
        "a must booking left out",
        (THREE, 2, &[1], &[(5, 4), (10, 4)], 6),
        "C8 MustLeftOut 2",
    ),
];

fn booking_of(row: &Row, is_must: bool) -> Option<Booking> {
    let booking = Booking::new(row.0, row.1, row.2, Number::new(b"1234")?)?;
    Some(if is_must { booking.as_must() } else { booking })
}

/// The bookings of these rows, of which the one named so must be held.
fn bookings_of(alloc: Global, rows: &[Row], must: u16) -> Option<Bookings> {
    let mut bookings = Bookings::new(alloc);
    for row in rows {
        let is_must = bookings.len() + 1 == must;
        bookings.push(booking_of(row, is_must)?).ok()?;
    }
    Some(bookings)
}

fn assigned_of(alloc: Global, rows: &[Row]) -> Option<Vec<Option<Channel>>> {
    let mut assigned = Vec::new(alloc);
    for row in rows {
        assigned.push(Channel::new(row.3)).ok()?;
    }
    Some(assigned)
}

fn prices_of(alloc: Global, prices: &[(u32, u64)]) -> Option<Vec<Price>> {
    let mut list = Vec::new(alloc);
    for (moment, amount) in prices {
        list.push(Price::new(*moment, *amount)?).ok()?;
    }
    Some(list)
}

fn plan_of(alloc: Global, planned: &Planned) -> Option<Plan> {
    let (rows, must, channels, prices, total) = *planned;
    Plan::new(
        bookings_of(alloc, rows, must)?,
        ChannelSet::from_numbers(channels).ok()?,
        assigned_of(alloc, rows)?,
        prices_of(alloc, prices)?,
        total,
    )
}

/// What the check says, as it is printed.
fn said(alloc: Global, planned: &Planned) -> Option<String> {
    let plan = plan_of(alloc, planned)?;
    match check(&plan.bookings, plan.channels, &plan) {
        Ok(total) => total.to_string(alloc).ok(),
        Err(fault) => fault.to_string(alloc).ok(),
    }
}

#[test]
fn worked_plans(rt: HostRuntime) -> Result<(), Fail> {
    for (name, planned, expected) in &PLANS {
        let found = said(rt.alloc(), planned).ok_or(*name)?;
        assert!(rt; found.as_str() == *expected, "{name}: {found}");
    }
    Ok(())
}

#[test]
fn plans_of_something_else(rt: HostRuntime) -> Result<(), Fail> {
    let plan = plan_of(rt.alloc(), &PLANS[3].1).ok_or("plan")?;
    let others = bookings_of(rt.alloc(), THREE, 1).ok_or("bookings")?;
    let two = ChannelSet::from_numbers(&[2])?;
    assert!(rt;
        check(&others, two, &plan) == Err(CheckFault::OtherBookings),
        "bookings"
    );
    assert!(rt;
        check(&plan.bookings, two, &plan) == Err(CheckFault::OtherChannels),
        "channels"
    );
    Ok(())
}
