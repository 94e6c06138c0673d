//! Texts of bookings: all columns, as many rows as fit, and days of 23 and 25 hours.

use crate::days_of_zones::EUROPE;
use crate::text_faults::is_refused;
use bx_base::{Booking, Bookings};
use bx_book::read_bookings;
use bx_calendar::Day;
use std::alloc::{AllocError, Global};
use std::test::Fail;

/// A booking of a whole day, with all columns.
static MARKED: &str =
    "start,end,number,pay,must,direction\n2026-01-05T01:00:00.000+01:00,2026-01-06T00:00:00Z,1234,5,yes,in\n";

/// The last booking, where there are so many.
pub(crate) fn last_of(bookings: &Bookings, count: u16) -> Option<Booking> {
    if bookings.len() == count {
        bookings.get(count)
    } else {
        None
    }
}

/// The last booking of a text with so many.
fn read_last(alloc: Global, text: &[u8], day: &Day, count: u16) -> Option<Booking> {
    last_of(&read_bookings(alloc, text, day).ok()?, count)
}

fn is_marked(booking: &Booking) -> bool {
    booking.start() == 0
        && booking.end() == 86_400
        && booking.pay() == 5
        && booking.is_must()
        && booking.is_inward()
}

#[test]
fn bookings_of_a_text(rt: HostRuntime) -> Result<(), Fail> {
    let day = Day::new("2026-01-05", "UTC0")?;
    let booking = read_last(rt.alloc(), MARKED.as_bytes(), &day, 1).ok_or("booking")?;
    assert!(rt; is_marked(&booking), "the booking");
    Ok(())
}

fn text_of(alloc: Global, rows: u32) -> Result<Vec<u8>, AllocError> {
    let mut text = Vec::new(alloc);
    text.extend_from_slice(b"start,end,number,pay\r\n")?;
    for _row in 0..rows {
        text.extend_from_slice(b"2026-01-05T08:00:00Z,\"2026-01-05T08:01:00Z\",1234,5\r\n")?;
    }
    Ok(text)
}

fn ends_at(alloc: Global, text: &[u8], day: &Day, count: u16, end: u32) -> bool {
    match read_last(alloc, text, day, count) {
        Some(booking) => booking.end() == end,
        None => false,
    }
}

#[test]
fn as_many_rows_as_fit(rt: HostRuntime) -> Result<(), Fail> {
    let day = Day::new("2026-01-05", "UTC0")?;
    let text = text_of(rt.alloc(), 16000)?;
    assert!(rt; ends_at(rt.alloc(), &text, &day, 16000, 28_860), "as many");
    let longer = text_of(rt.alloc(), 16001)?;
    assert!(rt;
        is_refused(rt.alloc(), &longer, &day, "B9 TooMany"),
        "one more"
    );
    Ok(())
}

#[test]
fn ends_of_odd_days(rt: HostRuntime) -> Result<(), Fail> {
    let long = Day::new("2026-10-25", EUROPE)?;
    let text =
        b"start,end,number,pay\n2026-10-25T00:00:00+02:00,2026-10-26T00:00:00+01:00,1234,5\n";
    assert!(rt; ends_at(rt.alloc(), text, &long, 1, 90_000), "long");
    let after =
        b"start,end,number,pay\n2026-10-25T00:00:00+02:00,2026-10-26T00:00:01+01:00,1234,5\n";
    assert!(rt;
        is_refused(rt.alloc(), after, &long, "B5 OutsideDay 1"),
        "after"
    );
    let short = Day::new("2026-03-29", EUROPE)?;
    let text =
        "\u{feff}start,end,number,pay\n2026-03-29T00:00:00+01:00,2026-03-29T22:00:00Z,1234,5\n";
    assert!(rt;
        ends_at(rt.alloc(), text.as_bytes(), &short, 1, 82_800),
        "short"
    );
    Ok(())
}
