//! Exchanges and far ends at the opening of their days.

use bx_base::{Booking, Bookings, ChannelSet, Plan};
use bx_channels::{Channel, Number};
use bx_day::Exchange;
use bx_far::{Far, Script};
use std::alloc::Global;

/// A booking by its start and its end in seconds, its channel (0: refused) and whether it is inward.
pub type Row = (u32, u32, u8, bool);

/// The number at this index; 1234 where there is none.
fn number_at(numbers: &[&[u8]], index: usize) -> Option<Number> {
    match numbers.get(index) {
        Some(digits) => Number::new(digits),
        None => Number::new(b"1234"),
    }
}

fn booking_of(row: &Row, number: Number) -> Option<Booking> {
    let booking = Booking::new(row.0, row.1, 5, number)?;
    Some(if row.3 { booking.as_inward() } else { booking })
}

fn bookings_of(alloc: Global, rows: &[Row], numbers: &[&[u8]]) -> Option<Bookings> {
    let mut bookings = Bookings::new(alloc);
    for (index, row) in rows.iter().enumerate() {
        let booking = booking_of(row, number_at(numbers, index)?)?;
        bookings.push(booking).ok()?;
    }
    Some(bookings)
}

fn channels_of(alloc: Global, rows: &[Row]) -> Option<Vec<Option<Channel>>> {
    let mut assigned = Vec::new(alloc);
    for row in rows {
        assigned.push(Channel::new(row.2)).ok()?;
    }
    Some(assigned)
}

/// A plan on channels 1, 2 and 3 of bookings of these numbers, those after them of 1234. Its total is not that of the
/// bookings: no day reads it.
pub fn plan_of(alloc: Global, rows: &[Row], numbers: &[&[u8]]) -> Option<Plan> {
    let channels = ChannelSet::from_numbers(&[1, 2, 3]).ok()?;
    let bookings = bookings_of(alloc, rows, numbers)?;
    let assigned = channels_of(alloc, rows)?;
    Plan::new(bookings, channels, assigned, Vec::new(alloc), 0)
}

/// The exchange at the opening of a day with bookings of these numbers, those after them of 1234; none where their
/// channels do not carry them.
pub fn exchange_of_numbers(alloc: Global, rows: &[Row], numbers: &[&[u8]]) -> Option<Exchange> {
    let plan = plan_of(alloc, rows, numbers)?;
    if !plan.carried() {
        return None;
    }
    Exchange::new(alloc, &plan).ok()
}

/// The exchange at the opening of a day with bookings of the number 1234; none where their channels do not carry them.
pub fn exchange_of(alloc: Global, rows: &[Row]) -> Option<Exchange> {
    exchange_of_numbers(alloc, rows, &[])
}

/// The exchange at the opening of a day of one booking, from 0 to 60 on channel 1.
pub fn exchange(alloc: Global) -> Option<Exchange> {
    exchange_of(alloc, &[(0, 60, 1, false)])
}

/// The far end at the opening of a day with the script of this text.
pub fn far_of(alloc: Global, script: &str) -> Option<Far> {
    Some(Far::new(Script::read(alloc, script.as_bytes()).ok()?))
}

/// The far end at the opening of a day on which it answers each call at once.
pub fn far_end(alloc: Global) -> Option<Far> {
    far_of(alloc, "number,policy,seconds\n*,answer,0\n")
}
