//! The names of the hours, and the times of the bars, also on days on which a clock is put forward or back.

use crate::pictures::written;
use bx_calendar::Clock;
use std::alloc::Global;

/// Central Europe: an hour forward at 2:00, an hour back at 3:00.
const EUROPE: &str = "CET-1CEST,M3.5.0,M10.5.0/3";

/// Lord Howe Island: half an hour forward at 2:00.
const LORD_HOWE: &str = "<+1030>-10:30<+11>-11,M10.1.0,M4.1.0";

/// Days of a zone, what the clock shows at each hour from one midnight to the next, and from when to when it shows the accepted
/// calls to last: from 28,800 to 32,400 seconds after midnight, and from 30,600 to 35,100.
static DAYS: [(&str, &str, &str, &str); 4] = [
    (
        "2026-01-05",
        "UTC0",
        "0:00 1:00 2:00 3:00 4:00 5:00 6:00 7:00 8:00 9:00 10:00 11:00 12:00 13:00 14:00 15:00 16:00 17:00 18:00 19:00 20:00 21:00 22:00 23:00 0:00",
        "8:00:00 to 9:00:00 8:30:00 to 9:45:00",
    ),
    (
        "2026-03-29",
        EUROPE,
        "0:00 1:00 3:00 4:00 5:00 6:00 7:00 8:00 9:00 10:00 11:00 12:00 13:00 14:00 15:00 16:00 17:00 18:00 19:00 20:00 21:00 22:00 23:00 0:00",
        "9:00:00 to 10:00:00 9:30:00 to 10:45:00",
    ),
    (
        "2026-10-25",
        EUROPE,
        "0:00 1:00 2:00 2:00 3:00 4:00 5:00 6:00 7:00 8:00 9:00 10:00 11:00 12:00 13:00 14:00 15:00 16:00 17:00 18:00 19:00 20:00 21:00 22:00 23:00 0:00",
        "7:00:00 to 8:00:00 7:30:00 to 8:45:00",
    ),
    (
        "2026-10-04",
        LORD_HOWE,
        "0:00 1:00 2:30 3:30 4:30 5:30 6:30 7:30 8:30 9:30 10:30 11:30 12:30 13:30 14:30 15:30 16:30 17:30 18:30 19:30 20:30 21:30 22:30 23:30",
        "8:30:00 to 9:30:00 9:00:00 to 10:15:00",
    ),
];

/// What stands round a piece of a line: at the line's start, right before the piece, and after it up to the line's end.
type Marks = (&'static [u8], &'static [u8], &'static [u8]);

const ABOVE: Marks = (b"<text class='small middle' x='", b"' y='87'>", b"</text>");

const BELOW: Marks = (b"<text class='small middle' x='", b"' y='137'>", b"</text>");

const TIMES: Marks = (b"<rect class='", b", ", b"</title></rect>");

/// The piece of a line that stands between these marks, if the line has them.
fn piece_in<'a>(line: &'a [u8], marks: Marks) -> Option<&'a [u8]> {
    let (start, before, end) = marks;
    let rest = line.strip_prefix(start)?;
    let first = *before.first()?;
    let at = rest.iter().position(|octet| *octet == first)?;
    rest[at..].strip_prefix(before)?.strip_suffix(end)
}

/// The pieces of a text between these marks, with a space between them.
fn pieces_in(alloc: Global, text: &[u8], marks: Marks) -> Option<Vec<u8>> {
    let mut pieces = Vec::new(alloc);
    for line in text.split(|octet| *octet == b'\n') {
        if let Some(piece) = piece_in(line, marks) {
            if !pieces.is_empty() {
                pieces.push(b' ').ok()?;
            }
            pieces.extend_from_slice(piece).ok()?;
        }
    }
    Some(pieces)
}

/// Whether these are the pieces of a text.
fn has_just(alloc: Global, text: &[u8], marks: Marks, pieces: &[u8]) -> bool {
    match pieces_in(alloc, text, marks) {
        Some(found) => found.as_slice() == pieces,
        None => false,
    }
}

/// Whether a picture of that day names these hours, above the lanes and below them, and has these times.
fn is_shown(alloc: Global, date: &str, zone: &str, hours: &[u8], times: &[u8]) -> Option<bool> {
    let clock = Clock::new(date, zone).ok()?;
    let (text, fault) = written(alloc, Some(&clock), 100_000)?;
    let named = has_just(alloc, &text, ABOVE, hours) && has_just(alloc, &text, BELOW, hours);
    Some(fault.is_none() && named && has_just(alloc, &text, TIMES, times))
}

#[test]
fn times_as_the_clock_shows(rt: HostRuntime) {
    for (date, zone, hours, times) in &DAYS {
        let shown = is_shown(rt.alloc(), date, zone, hours.as_bytes(), times.as_bytes());
        assert!(rt; shown == Some(true), "{date}");
    }
}
