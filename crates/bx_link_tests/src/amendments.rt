//! What amends the plan, as it is logged.

use bx_events::{Amendment, LiveEvent};
use bx_journal::MemoryDisk;
use bx_live::Log;
use std::alloc::Global;

/// By its name an amendment, and the line that is logged for it, where it may be logged.
struct Row {
    name: &'static str,
    kind: Amendment,
    text: &'static [u8],
    line: Option<&'static [u8]>,
}

static ROWS: [Row; 6] = [
    Row {
        name: "a booking is sold",
        kind: Amendment::Sold,
        text: b"70 80 5 1234 - out",
        line: Some(b"sold 70 80 5 1234 - out\n"),
    },
    Row {
        name: "a booking is given up",
        kind: Amendment::Cancelled,
        text: b"12",
        line: Some(b"cancelled 12\n"),
    },
    Row {
        name: "a booking is changed",
        kind: Amendment::Changed,
        text: b"12 60 90 5 1234 - in",
        line: Some(b"changed 12 60 90 5 1234 - in\n"),
    },
    Row {
        name: "a second line",
        kind: Amendment::Cancelled,
        text: b"12\ncancelled 13",
        line: None,
    },
    Row {
        name: "an octet above those that are printed",
        kind: Amendment::Changed,
        text: b"12 60 90 5 1234 - in\x7F",
        line: None,
    },
    Row {
        name: "201 octets",
        kind: Amendment::Changed,
        text: &[b'1'; 201],
        line: None,
    },
];

/// Whether a row holds, if memory did not run out.
fn is_logged(alloc: Global, row: &Row) -> Option<bool> {
    let mut log = Log {
        disk: Some(MemoryDisk::new(alloc, Vec::new(alloc))),
    };
    let is_done = log.log(LiveEvent::Amended(row.kind, row.text)).is_ok();
    let disk = log.disk?;
    Some(is_done == row.line.is_some() && disk.octets() == row.line.unwrap_or(b""))
}

#[test]
fn amendments_are_logged(rt: HostRuntime) {
    for row in &ROWS {
        assert!(rt; is_logged(rt.alloc(), row) == Some(true), "{}", row.name);
    }
}
