//! Days of a time zone, and what is no day.

use crate::printed_faults::is_printed;
use bx_calendar::{Day, DayFault};

pub(crate) const EUROPE: &str = "CET-1CEST,M3.5.0,M10.5.0/3";

const HALIFAX: &str = "AST4ADT,M3.2.0/0,M11.1.0/1";

/// Days of a zone, with the second at which they begin and their length.
static DAYS: [(&str, &str, i64, u32); 5] = [
    ("2026-01-05", "UTC0", 1_767_571_200, 86_400),
    ("2026-10-25", EUROPE, 1_792_879_200, 90_000),
    ("2026-03-29", EUROPE, 1_774_738_800, 82_800),
    ("2026-03-08", HALIFAX, 1_772_942_400, 82_800),
    ("2026-11-01", HALIFAX, 1_793_502_000, 90_000),
];

/// No days, with their fault as it is printed.
static REFUSED_DAYS: [(&str, &str, DayFault, &str); 5] = [
    ("2026-02-29", "x", DayFault::BadDate, "A1 BadDate"),
    ("", "UTC0", DayFault::BadDate, "A1 BadDate"),
    ("9999-12-31", "x", DayFault::BadZone, "A2 BadZone"),
    ("2026-01-05", "", DayFault::BadZone, "A2 BadZone"),
    ("9999-12-31", "UTC0", DayFault::OutOfRange, "A3 OutOfRange"),
];

fn day_is(date: &str, zone: &str, start: i64, length: u32) -> bool {
    match Day::new(date, zone) {
        Ok(day) => day.start() == start && day.length() == length,
        Err(_) => false,
    }
}

#[test]
fn days_and_their_lengths(rt: HostRuntime) {
    for (date, zone, start, length) in &DAYS {
        assert!(rt; day_is(date, zone, *start, *length), "{date} {zone}");
    }
}

fn day_fault(date: &str, zone: &str, fault: DayFault) -> bool {
    match Day::new(date, zone) {
        Ok(_) => false,
        Err(found) => found == fault,
    }
}

#[test]
fn refused_days(rt: HostRuntime) {
    for (date, zone, fault, printed) in &REFUSED_DAYS {
        let refused = day_fault(date, zone, *fault) && is_printed(rt.alloc(), fault, printed);
        assert!(rt; refused, "{date} {zone}");
    }
    assert!(rt;
        is_printed(rt.alloc(), &DayFault::OddDay, "A4 OddDay"),
        "odd"
    );
}
