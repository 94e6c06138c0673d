//! Bookings of small days, by rows.

use bx_base::{Booking, Bookings};
use bx_channels::Number;
use std::alloc::Global;

/// A start, an end, a pay, and whether each plan has to hold it.
pub(crate) type Row = (u32, u32, u64, bool);

/// The booking of this row.
pub(crate) fn booking_of(row: &Row) -> Option<Booking> {
    let booking = Booking::new(row.0, row.1, row.2, Number::new(b"1234")?)?;
    Some(if row.3 { booking.as_must() } else { booking })
}

/// The bookings of these rows, all of one number.
pub(crate) fn bookings_of(alloc: Global, rows: &[Row]) -> Option<Bookings> {
    let mut bookings = Bookings::new(alloc);
    for row in rows {
        bookings.push(booking_of(row)?).ok()?;
    }
    Some(bookings)
}

/// Limits of what is drawn: how many starts there are, lengths and pays.
pub(crate) struct Drawn {
    pub(crate) starts: u32,
    pub(crate) lengths: u32,
    pub(crate) pays: u32,
}

/// A row from these bits. One of five is a must booking.
fn random_row(bits: u32, drawn: &Drawn) -> Row {
    let start = (bits >> 8) % drawn.starts.max(1);
    let length = 1 + (bits >> 12) % drawn.lengths.max(1);
    let pay = u64::from((bits >> 16) % drawn.pays.max(1)) + 1;
    (
        start,
        start.saturating_add(length),
        pay,
        (bits >> 24) % 5 == 0,
    )
}

/// Rows from the seed on, and the next seed.
pub(crate) fn random_rows<const ROWS: usize>(first: u32, drawn: &Drawn) -> ([Row; ROWS], u32) {
    let mut seed = first;
    let mut rows = [(0, 1, 1, false); ROWS];
    for row in rows.iter_mut() {
        seed = seed.wrapping_mul(1_103_515_245).wrapping_add(12_345);
        *row = random_row(seed, drawn);
    }
    (rows, seed)
}
