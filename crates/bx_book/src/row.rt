//! The booking of a row.

ghost use Rattle.std.specs.Prelude.{◌≡◌, false};
ghost use Rattle.csv.specs.Records.{fields_of};
ghost use Rattle.bx_book.specs.Rows.{span_of, must_of, inward_of};
ghost use Rattle.bx_book.specs.Inside.{IsRowRead};

use crate::fault::BookFault;
use crate::field::{inward, moment, must, pay};
use bx_base::Booking;
use bx_calendar::Day;
use bx_channels::Number;
use bx_text::field;
use csv::ByteRecord;

/// Whether a row is a must row: none is, where the header has no such field.
fn must_mark(fields: &ByteRecord, columns: usize) -> Option<bool>
    ensures { result ≡ must_of columns (fields_of fields.now) }
{
    if columns < 5 {
        return Some(false);
    }
    must(field(fields, 4))
}

/// Whether a row is called by the far end: none is, where the header has no such field.
fn direction(fields: &ByteRecord, columns: usize) -> Option<bool>
    ensures { result ≡ inward_of columns (fields_of fields.now) }
{
    if columns < 6 {
        return Some(false);
    }
    inward(field(fields, 5))
}

/// The booking with these marks.
fn marked(mut booking: Booking, is_must: bool, is_inward: bool) -> Booking
    requires { (booking.must ≡ false) × (booking.inward ≡ false) }
    ensures { result ≡ record booking { must = is_must; inward = is_inward } }
{
    if is_must {
        booking = booking.as_must();
    }
    if is_inward {
        booking = booking.as_inward();
    }
    booking
}

/// The booking of the row of this name, which has this many columns.
pub(crate) fn booking(
    fields: &ByteRecord,
    columns: usize,
    day: &Day,
    row: u16,
) -> Result<Booking, BookFault>
    ensures { IsRowRead (span_of day.now) columns row (fields_of fields.now) result }
{
    if fields.len() != columns {
        return Err(BookFault::WrongColumns(row));
    }
    let start = moment(field(fields, 0), day, row)?;
    let end = moment(field(fields, 1), day, row)?;
    if end <= start {
        return Err(BookFault::EndNotAfterStart(row));
    }
    let Some(number) = Number::new(field(fields, 2)) else {
        return Err(BookFault::BadNumber(row));
    };
    let Some(pay) = pay(field(fields, 3)) else {
        return Err(BookFault::BadPay(row));
    };
    let Some(is_must) = must_mark(fields, columns) else {
        return Err(BookFault::BadMust(row));
    };
    let Some(is_inward) = direction(fields, columns) else {
        return Err(BookFault::BadDirection(row));
    };
    match Booking::new(start, end, pay, number) {
        Some(booking) => Ok(marked(booking, is_must, is_inward)),
        None => Err(BookFault::EndNotAfterStart(row)),
    }
}
