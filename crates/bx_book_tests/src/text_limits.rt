//! The longest text, and the last read.

use crate::printed_faults::{is_printed, is_read_as};
use bx_book::{StreamFault, read_bookings_from};
use bx_calendar::Day;
use bx_devices::Watched;
use std::alloc::{AllocError, Global};
use std::io;
use std::io::Read;
use std::test::Fail;

/// A text by its name, how many blank lines it has and what stands before them, the answer, and how many octets are left.
type Limit = (&'static str, usize, &'static [u8], &'static str, usize);

static LIMITS: [Limit; 4] = [
    ("the longest", 4_194_284, b"start,end,number,pay", "none", 0),
    (
        "the longest with a wrong header",
        4_194_299,
        b"start",
        "B1 BadHeader",
        0,
    ),
    ("five octets too long", 4_194_304, b"start", "G2 TooLong", 4),
    (
        "an octet too long",
        4_194_285,
        b"start,end,number,pay",
        "G2 TooLong",
        0,
    ),
];

fn with_blank_lines(alloc: Global, front: &[u8], lines: usize) -> Result<Vec<u8>, AllocError> {
    let mut text = Vec::new(alloc);
    text.extend_from_slice(front)?;
    let blank = vec![in alloc; b'\n'; lines]?;
    text.extend_from_slice(&blank)?;
    Ok(text)
}

/// Whether a text at the limit is answered so, and so many octets are left.
fn is_answered(alloc: Global, limit: &Limit, day: &Day) -> Result<bool, AllocError> {
    let (_, lines, front, printed, left) = *limit;
    let text = with_blank_lines(alloc, front, lines)?;
    let mut reader = Watched::new(text.as_slice());
    let read = read_bookings_from(alloc, &mut reader, day);
    Ok(is_read_as(alloc, &read, printed) && reader.into_inner().len() == left)
}

#[test]
fn texts_at_the_limit(rt: HostRuntime) -> Result<(), Fail> {
    let day = Day::new("2026-01-05", "UTC0")?;
    for limit in &LIMITS {
        assert!(rt; is_answered(rt.alloc(), limit, &day)?, "{}", limit.0);
    }
    let mut endless = Watched::new(io::repeat(b'7'));
    let read = read_bookings_from(rt.alloc(), &mut endless, &day);
    assert!(rt; is_read_as(rt.alloc(), &read, "G2 TooLong"), "endless");
    Ok(())
}

/// Whether so many reads of no octet succeed.
fn reads_nothing(reader: &mut Watched<&[u8]>, times: u32) -> bool {
    let mut read = true;
    for _ in 0..times {
        read &= reader.read(&mut []).is_ok();
    }
    read
}

#[test]
fn readers_at_their_last_read(rt: HostRuntime) -> Result<(), Fail> {
    let day = Day::new("2026-01-05", "UTC0")?;
    let mut reader = Watched::new(b"".as_slice());
    assert!(rt; reads_nothing(&mut reader, 8_388_607), "reads");
    let last = read_bookings_from(rt.alloc(), &mut reader, &day);
    assert!(rt; is_read_as(rt.alloc(), &last, "B1 BadHeader"), "the last");
    let late = read_bookings_from(rt.alloc(), &mut reader, &day);
    assert!(rt; is_read_as(rt.alloc(), &late, "G1 ReadFailed"), "too late");
    assert!(rt; !reader.faulted(), "faulted");
    assert!(rt;
        is_printed(rt.alloc(), &StreamFault::Memory, "Memory"),
        "memory"
    );
    Ok(())
}
