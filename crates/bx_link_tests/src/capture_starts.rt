//! Days whose seconds a capture can name, and days whose it cannot.

use bx_calendar::Day;
use bx_capture::first_second;

/// A date and a zone, and the first second of the day, where a capture can name all.
static CASES: [(&str, &str, Option<u32>); 7] = [
    ("1970-01-01", "UTC0", Some(0)),
    ("1970-01-01", "CET-1", None),
    ("1969-12-31", "EST5", None),
    ("1970-01-01", "EST5", Some(18_000)),
    (
        "2026-03-29",
        "CET-1CEST,M3.5.0,M10.5.0/3",
        Some(1_774_738_800),
    ),
    ("2106-02-03", "UTC0", Some(4_294_598_400)),
    ("2106-02-04", "UTC0", None),
];

fn first_of(date: &str, zone: &str) -> Option<u32> {
    let day = Day::new(date, zone).ok()?;
    first_second(&day).ok()
}

#[test]
fn first_seconds(rt: HostRuntime) {
    for (date, zone, first) in &CASES {
        assert!(rt; first_of(date, zone) == *first, "{date} {zone}");
    }
}
