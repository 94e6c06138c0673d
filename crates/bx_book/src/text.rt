//! The bookings of a text.

ghost use Rattle.std.specs.Prelude.{◌≡◌, IfSome, IfOk, IfErr};
ghost use Rattle.csv.specs.Reading.{reader_state, source_of, strip_bom};
ghost use Rattle.csv.specs.declared.parser.State.TheVariants as st;
ghost use Rattle.csv.specs.Records.{fields_of};
ghost use Rattle.bx_text.specs.Records.{IsReading};
ghost use Rattle.bx_book.specs.Rows.{span_of};
ghost use Rattle.bx_book.specs.Texts.{header_columns, IsBook, IsBookFault};

use crate::fault::BookFault;
use crate::row::booking;
use bx_base::{Booking, Bookings};
use bx_calendar::Day;
use bx_text::{RowForm, RowsFault, is_named, read_records, records_of};
use csv::{ByteRecord, Reader};
use std::alloc::{AllocError, Global};
use std::io::Read;

/// How many columns the rows under this header have.
fn columns_under(header: &ByteRecord) -> Option<usize>
    ensures { result ≡ header_columns (fields_of header.now) }
{
    let has_base = is_named(header, 0, "start")
        && is_named(header, 1, "end")
        && is_named(header, 2, "number")
        && is_named(header, 3, "pay");
    let has_must = has_base && is_named(header, 4, "must");
    let has_direction = has_must && is_named(header, 5, "direction");
    match header.len() {
        4 if has_base => Some(4),
        5 if has_must => Some(5),
        6 if has_direction => Some(6),
        _ => None,
    }
}

/// The rows of a booking text: bookings of its day.
#[derive(Drop)]
struct BookRows {
    day: Day,
}

impl RowForm for BookRows {
    ghost use Rattle.bx_book.specs.Rows.{span_of};
    ghost use Rattle.bx_book.specs.Texts.{book_form};

    type Row = Booking;

    type Fault = BookFault;

    type List = Bookings;

    ghost form = { λ rows. book_form (span_of rows.day) };

    ghost rows = { λ bookings. bookings };

    fn columns_under(&self, header: &ByteRecord) -> Option<usize> {
        columns_under(header)
    }

    fn read_row(
        &self,
        fields: &ByteRecord,
        columns: usize,
        number: u16,
    ) -> Result<Booking, BookFault> {
        booking(fields, columns, &self.day, number)
    }

    fn none(alloc: Global) -> Bookings {
        Bookings::new(alloc)
    }

    fn keep(bookings: &mut Bookings, booking: Booking) -> Result<(), AllocError> {
        match bookings.push(booking) {
            Ok(()) => Ok(()),
            Err(_) => Err(AllocError),
        }
    }
}

impl From<RowsFault<BookFault>> for BookFault {
    ghost use Rattle.std.specs.Prelude.{◌≡◌};
    ghost use Rattle.bx_book.specs.RowFaults.{told_as};

    ghost from_gives = { λ fault told. told ≡ told_as fault };

    fn from(fault: RowsFault<BookFault>) -> BookFault {
        match fault {
            RowsFault::BadHeader => BookFault::BadHeader,
            RowsFault::Row(fault) => fault,
            RowsFault::TooMany => BookFault::TooMany,
            RowsFault::Memory => BookFault::Memory,
        }
    }
}

/// Reads the header and the rows.
pub(crate) fn read_book<R: Read>(
    alloc: Global,
    records: &mut Reader<R>,
    day: &Day,
) -> Result<Bookings, BookFault>
    requires { IsReading records.old × (reader_state records.old ≡ st.StartRecord) }
    ensures ok { IfOk result (λ bookings. IfSome (source_of R.remaining records.old) (λ text. IsBook text (span_of day.now) bookings)) }
    ensures err { IfErr result (λ e. IfSome (source_of R.remaining records.old) (λ text. IsBookFault text (span_of day.now) e)) }
{
    let rows = BookRows { day: *day };
    Ok(read_records(alloc, &rows, records)?)
}

/// Reads the booking text of a day, RFC 4180 records as `csv` reads them: a header `start,end,number,pay`, which may
/// go on with `must`, and that with `direction`, and then at most 16,000 rows. The answer is the bookings of all
/// rows, or the first fault, as `BookFault` has them.
pub fn read_bookings(alloc: Global, bytes: &[u8], day: &Day) -> Result<Bookings, BookFault>
    ensures ok { IfOk result (IsBook (strip_bom bytes.now) (span_of day.now)) }
    ensures err { IfErr result (IsBookFault (strip_bom bytes.now) (span_of day.now)) }
{
    let mut records = records_of(alloc, bytes);
    read_book(alloc, &mut records, day)
}
