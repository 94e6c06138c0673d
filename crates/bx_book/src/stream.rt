//! The bookings of a text that a reader gives.

ghost use Rattle.std.specs.Prelude.{◌≡◌, ◌≤◌, ◌+◌, true, false, IfOk, IfErr, IfSome, MatchOption, Err};
ghost use Rattle.csv.specs.Reading.{strip_bom};
ghost use Rattle.bx_devices.specs.Devices.{reading_of};
ghost use Rattle.bx_devices.specs.Watching.{device_of, is_faulted, reads_of};
ghost use Rattle.bx_book.specs.Passed.{HasPassed, HasNoneLeft, reads_of_none};
ghost use Rattle.bx_book.specs.Rows.{span_of};
ghost use Rattle.bx_book.specs.Texts.{IsBook, IsBookFault};
ghost use Rattle.bx_book.specs.Streams.{IsBookRead, IsStreamFault};
ghost use Rattle.bx_book.specs.Told.{IsMeterFault, told_as, IsReadOut};

use crate::fault::BookFault;
use crate::metered::{Metered, Origin};
use crate::text::read_book;
use bx_base::Bookings;
use bx_calendar::Day;
use bx_devices::{MAX_OCTETS, MAX_READS, Watched};
use bx_text::records_of;
use std::alloc::Global;
use std::io::Read;
use std::marker::{Brand, PhantomData};
use thiserror::Error;

/// Why a reader gave no bookings.
#[derive(Clone, Copy, Debug, PartialEq, Eq, Error)]
pub enum StreamFault {
    /// A read failed, or 8,388,608 reads did not reach the end.
    #[error("G1 ReadFailed")]
    ReadFailed,
    /// A 4,194,305th octet came. Nothing was read after it.
    #[error("G2 TooLong")]
    TooLong,
    /// The text was read to its end, and has this first fault.
    #[error(transparent)]
    Book(BookFault),
    /// Memory ran out.
    #[error("Memory")]
    Memory,
}

/// Why less than the whole was read, if it was.
fn short_of_end<R>(reader: &Watched<R>, octets: usize, has_ended: bool) -> Option<StreamFault>
    requires { octets ≤ MAX_OCTETS + 1 }
    ensures { MatchOption result
        ((is_faulted reader.now ≡ false) × (octets ≤ MAX_OCTETS) × (reads_of reader.now ≡ MAX_READS → has_ended ≡ true))
        (IsMeterFault (is_faulted reader.now) has_ended octets (reads_of reader.now)) }
{
    if reader.faulted() {
        return Some(StreamFault::ReadFailed);
    }
    if octets > MAX_OCTETS {
        return Some(StreamFault::TooLong);
    }
    if reader.reads() == MAX_READS && !has_ended {
        return Some(StreamFault::ReadFailed);
    }
    None
}

/// A fault of the text as one of the reader. Want of memory is no fault of a text.
fn told_as(fault: BookFault) -> StreamFault
    ensures { result ≡ told_as fault }
{
    match fault {
        BookFault::Memory => StreamFault::Memory,
        fault => StreamFault::Book(fault),
    }
}

/// What came of reading records: the reader, how many octets it passed on and whether it came to the end, and the
/// bookings or the first fault.
struct Outcome<'a, R> {
    reader: &'a mut Watched<R>,
    octets: usize,
    has_ended: bool,
    bookings: Result<Bookings, BookFault>,
}

/// Reads the bookings, and after a fault on to the end.
fn read_metered<'a, R: Read, O: Origin>(
    alloc: Global,
    reader: &'a mut Watched<R>,
    day: &Day,
) -> Outcome<'a, R>
    requires same { reader.ghost_name ≡ O.name }
    requires text { R.remaining (device_of reader.now) ≡ O.text }
    requires reads { reads_of reader.now ≡ O.reads }
    ensures same_reference { result.reader.ghost_name ≡ reader.entry.ghost_name }
    ensures passed { HasPassed (R.remaining (device_of reader.old)) result.octets (R.remaining (device_of result.reader.now)) }
    ensures limit { result.octets ≤ MAX_OCTETS + 1 }
    ensures each { reads_of result.reader.now ≤ reads_of reader.old + (result.octets + reads_of_none result.has_ended (is_faulted result.reader.now)) }
    ensures ended { result.has_ended ≡ true → HasNoneLeft (R.remaining (device_of result.reader.now)) }
    ensures over { IsReadOut result.bookings result.has_ended result.octets result.reader.now }
    ensures ok { IfOk result.bookings (λ bookings. IfSome (R.remaining (device_of reader.old)) (λ text. IsBook (strip_bom text) (span_of day.now) bookings)) }
    ensures err { IfErr result.bookings (λ e. IfSome (R.remaining (device_of reader.old)) (λ text. IsBookFault (strip_bom text) (span_of day.now) e)) }
{
    let metered: Metered<'a, R, O> = Metered {
        reader,
        octets: 0,
        has_ended: false,
        origin: PhantomData,
    };
    let mut records = records_of(alloc, metered);
    let bookings = read_book(alloc, &mut records, day);
    let mut metered = records.into_inner();
    if !matches!(bookings, Err(BookFault::Memory)) {
        metered.read_on();
    }
    let Metered {
        reader,
        octets,
        has_ended,
        origin: _,
    } = metered;
    Outcome {
        reader,
        octets,
        has_ended,
        bookings,
    }
}

/// Reads a reader to its end, record by record, as `read_bookings` reads the octets: at most 4,194,304 octets in at
/// most 8,388,608 reads. After a fault of the text it reads on to the end, and where memory runs out it stops. The faults are those
/// of `StreamFault`.
pub fn read_bookings_from<R: Read>(
    alloc: Global,
    reader: &mut Watched<R>,
    day: &Day,
) -> Result<Bookings, StreamFault>
    ensures ok { IfOk result (IsBookRead (reading_of R.remaining reader.old reader.new) (span_of day.now)) }
    ensures err { IfErr result (IsStreamFault (reading_of R.remaining reader.old reader.new) (span_of day.now)) }
{
    let Outcome {
        reader,
        octets,
        has_ended,
        bookings,
    } = read_metered::<R, Brand>(alloc, reader, day);
    let short = short_of_end(reader, octets, has_ended);
    // No effect at run time. The proof reads from this use what the caller's reader holds.
    let _ = &*reader;
    match short {
        Some(fault) => Err(fault),
        None => match bookings {
            Ok(bookings) => Ok(bookings),
            Err(fault) => Err(told_as(fault)),
        },
    }
}
