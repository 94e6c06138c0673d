//! Refusals of quotes.

use crate::proved_plans::plan_of;
use crate::rows::{Row, booking_of};
use bx_planner::{NoQuote, explain, quote};
use std::alloc::Global;
use std::test::Fail;

static ROWS: [Row; 3] = [(0, 10, 4, false), (5, 15, 6, false), (20, 30, 1, true)];

/// The refusal of a row of these rows on one channel.
fn unexplained(alloc: Global, row: u16) -> Option<NoQuote> {
    explain(alloc, &plan_of(alloc, &ROWS, 1)?, row).err()
}

/// The refusal of a booking after them on so many channels.
fn unquoted(alloc: Global, count: usize, row: &Row) -> Option<NoQuote> {
    quote(alloc, &plan_of(alloc, &ROWS, count)?, &booking_of(row)?).err()
}

/// The refusal of a booking beside so many rows on one channel, of which the first has to be held, at its time.
fn beside_many(alloc: Global, count: u16) -> Option<NoQuote> {
    let mut rows = Vec::new(alloc);
    for row in 0..count {
        let start = u32::from(row) * 10;
        rows.push((start, start + 10, 4, row == 0)).ok()?;
    }
    quote(
        alloc,
        &plan_of(alloc, &rows, 1)?,
        &booking_of(&(5, 15, 100, false))?,
    )
    .err()
}

#[test]
fn rows_without_a_quote(rt: HostRuntime) -> Result<(), Fail> {
    for (row, expected) in [
        (0, "Q2 NoSuchRow"),
        (2, "Q3 Accepted 2"),
        (3, "Q3 Accepted 3"),
        (4, "Q2 NoSuchRow"),
    ] {
        let fault = unexplained(rt.alloc(), row).ok_or("a quote")?;
        let found = fault.to_string(rt.alloc())?;
        assert!(rt; found.as_str() == expected, "row {row}: {found}");
    }
    Ok(())
}

#[test]
fn bookings_without_a_channel(rt: HostRuntime) -> Result<(), Fail> {
    let within = unquoted(rt.alloc(), 1, &(15, 25, 9, false)).ok_or("a quote")?;
    assert_eq!(rt; within.to_string(rt.alloc())?.as_str(), "Q1 NoChannel 20");
    let following = unquoted(rt.alloc(), 1, &(25, 35, 9, false)).ok_or("a quote")?;
    assert_eq!(rt;
        following.to_string(rt.alloc())?.as_str(),
        "Q1 NoChannel 25"
    );
    assert!(rt;
        unquoted(rt.alloc(), 2, &(15, 25, 9, false)).is_none(),
        "two channels"
    );
    Ok(())
}

#[test]
fn the_last_row_is_kept_free(rt: HostRuntime) -> Result<(), Fail> {
    let many = beside_many(rt.alloc(), 15999).ok_or("a quote")?;
    assert_eq!(rt; many.to_string(rt.alloc())?.as_str(), "Q1 NoChannel 5");
    let full = beside_many(rt.alloc(), 16000).ok_or("a quote")?;
    assert_eq!(rt; full.to_string(rt.alloc())?.as_str(), "K2 TooMany");
    Ok(())
}
