//! Readers that give little, and fail at each place.

use crate::booking_texts::last_of;
use crate::printed_faults::is_read_as;
use bx_base::{Booking, Bookings};
use bx_book::{StreamFault, read_bookings_from};
use bx_calendar::Day;
use bx_cases::Failing;
use bx_devices::Watched;
use std::alloc::Global;
use std::test::Fail;

static ONE: &[u8] = b"start,end,number,pay\n2026-01-05T00:00:00Z,2026-01-05T00:01:00Z,1234,5";

const WRONG: &[u8] =
    b"start,end,number,pay\n2026-01-05T00:00:00Z,2026-01-05T00:01:00Z,12a,5\nstart\n\n";

/// A text, how many reads succeed, and how much each gives at most.
type Stream = (&'static [u8], u32, usize);

/// Readers by their names, with their fault, as it is printed.
static REFUSED_STREAMS: [(&str, Stream, &str); 6] = [
    (
        "one octet a read, and a read too few",
        (WRONG, 76, 1),
        "G1 ReadFailed",
    ),
    ("one octet a read", (WRONG, 77, 1), "B7 BadNumber 1"),
    (
        "fifty octets a read, and a read too few",
        (WRONG, 3, 50),
        "G1 ReadFailed",
    ),
    ("fifty octets a read", (WRONG, 4, 50), "B7 BadNumber 1"),
    ("no text", (b"", 1, 9), "B1 BadHeader"),
    ("no octet a read", (WRONG, 1, 0), "B1 BadHeader"),
];

/// Reads from a reader that gives at most so many octets a read, and fails after so many reads. A fault of the
/// reader that is not answered comes back as `Memory`.
fn streamed(alloc: Global, stream: Stream, day: &Day) -> Result<Bookings, StreamFault> {
    let (text, calls, most) = stream;
    let mut reader = Watched::new(Failing::new(text, calls, most));
    let read = read_bookings_from(alloc, &mut reader, day);
    if reader.faulted() {
        return match read {
            Err(StreamFault::ReadFailed) => read,
            _ => Err(StreamFault::Memory),
        };
    }
    read
}

fn is_stream_read_as(alloc: Global, stream: Stream, day: &Day, printed: &str) -> bool {
    is_read_as(alloc, &streamed(alloc, stream, day), printed)
}

fn is_one(booking: &Booking) -> bool {
    booking.start() == 0 && booking.end() == 60 && booking.pay() == 5
}

#[test]
fn streams_that_give_little(rt: HostRuntime) -> Result<(), Fail> {
    let day = Day::new("2026-01-05", "UTC0")?;
    let bookings = streamed(rt.alloc(), (ONE, 100, 1), &day)?;
    let booking = last_of(&bookings, 1).ok_or("one booking")?;
    assert!(rt; is_one(&booking), "the booking");
    for calls in 0..=ONE.len() as u32 {
        let failed = is_stream_read_as(rt.alloc(), (ONE, calls, 1), &day, "G1 ReadFailed");
        assert!(rt; failed, "{calls}");
    }
    for (name, stream, printed) in &REFUSED_STREAMS {
        assert!(rt;
            is_stream_read_as(rt.alloc(), *stream, &day, printed),
            "{name}"
        );
    }
    Ok(())
}
