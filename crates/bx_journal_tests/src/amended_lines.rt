//! Lines that amend the plan, as they are read and written.

use crate::readings::is_same;
use crate::told::reading;
use crate::worked::{HEAD, OLDER, PLAN, TEXT, UNDATED};
use arrayvec::ArrayVec;
use bx_journal::{
    Amendment, JournalFault, LiveEvent, MemoryDisk, Wanted, are_printable, begin, log_event,
};
use std::alloc::Global;
use std::test::Fail;

/// By its name a line, and what is told of it in a journal of this program, and in one of the older rules, where it is right there.
struct Row {
    name: &'static str,
    line: &'static [u8],
    told: Option<&'static [u8]>,
    older: Option<&'static [u8]>,
}

static ROWS: [Row; 22] = [
    Row {
        name: "a booking is sold",
        line: b"sold 60 90 5 1234 - in",
        told: Some(b"s60 90 5 1234 - in."),
        older: Some(b"r60 90 5 1234 - in."),
    },
    Row {
        name: "a booking is given up",
        line: b"cancelled 12",
        told: Some(b"x12."),
        older: None,
    },
    Row {
        name: "a booking is changed",
        line: b"changed 12 60 90 5 1234 - in",
        told: Some(b"c12 60 90 5 1234 - in."),
        older: None,
    },
    Row {
        name: "a booking waits",
        line: b"delayed 12 60 90 5 1234 - in",
        told: Some(b"w12 60 90 5 1234 - in."),
        older: None,
    },
    Row {
        name: "a booking is dropped",
        line: b"dropped 7",
        told: Some(b"g7."),
        older: None,
    },
    Row {
        name: "a channel is out",
        line: b"out 4",
        told: Some(b"l4."),
        older: None,
    },
    Row {
        name: "nothing behind the word",
        line: b"cancelled ",
        told: Some(b"x."),
        older: None,
    },
    Row {
        name: "nothing is sold",
        line: b"sold ",
        told: Some(b"s."),
        older: Some(b"r."),
    },
    Row {
        name: "nothing behind the shortest word",
        line: b"out ",
        told: Some(b"l."),
        older: None,
    },
    Row {
        name: "a sale of another word",
        line: b"sold out 4",
        told: Some(b"sout 4."),
        older: Some(b"rout 4."),
    },
    Row {
        name: "two words",
        line: b"changed cancelled sold ",
        told: Some(b"ccancelled sold ."),
        older: None,
    },
    Row {
        name: "no space behind the first word",
        line: b"cancelled",
        told: None,
        older: None,
    },
    Row {
        name: "no space behind the second word",
        line: b"changed12",
        told: None,
        older: None,
    },
    Row {
        name: "no space behind the word of a sale",
        line: b"sold",
        told: None,
        older: None,
    },
    Row {
        name: "no space behind the shortest word",
        line: b"out4",
        told: None,
        older: None,
    },
    Row {
        name: "less than a word",
        line: b"drop 7",
        told: None,
        older: None,
    },
    Row {
        name: "more than a word",
        line: b"outer 4",
        told: None,
        older: None,
    },
    Row {
        name: "a capital letter",
        line: b"Cancelled 12",
        told: None,
        older: None,
    },
    Row {
        name: "a space before the word",
        line: b" changed 12 60 90 5 1234 - in",
        told: None,
        older: None,
    },
    Row {
        name: "an octet below those that are printed",
        line: b"cancelled 12\t",
        told: None,
        older: None,
    },
    Row {
        name: "an octet above those that are printed",
        line: b"changed 12 60 90 5 1234 - in\x7F",
        told: None,
        older: None,
    },
    Row {
        name: "an octet above them in a sale",
        line: b"sold 60 90 5 1234 - in\x7F",
        told: None,
        older: None,
    },
];

/// A head, a line, and its LF.
fn with_line(head: &[u8], line: &[u8]) -> ArrayVec<u8, 200> {
    let mut text = ArrayVec::new();
    let _ = text.try_extend_from_slice(head);
    let _ = text.try_extend_from_slice(line);
    let _ = text.try_extend_from_slice(b"\n");
    text
}

/// Whether this is told of a line behind a head, or the line is named as a bad one where nothing is told of it.
fn is_told(head: &[u8], line: &[u8], wanted: &Wanted, told: Option<&[u8]>, number: u64) -> bool {
    let text = with_line(head, line);
    let read = reading(text.as_slice(), wanted);
    let is_answered = match told {
        Some(_) => read.answer == Ok(text.len() as u64),
        None => read.answer == Err(JournalFault::BadLine(number)),
    };
    is_answered && read.marks.as_slice() == told.unwrap_or(b"") && is_same(&text)
}

/// Whether a row holds in a journal of each version that is read.
fn is_row(row: &Row) -> bool {
    let any = Wanted::of_any_day(&PLAN);
    is_told(&TEXT[..114], row.line, &HEAD.wanted(), row.told, 4)
        && is_told(&TEXT[..114], row.line, &any, row.told, 4)
        && is_told(&OLDER[..114], row.line, &any, row.older, 4)
        && is_told(&UNDATED[..83], row.line, &any, row.older, 3)
}

#[test]
fn each_line_is_read(rt: HostRuntime) -> Result<(), Fail> {
    for row in &ROWS {
        assert!(rt; is_row(row), "{}", row.name);
    }
    Ok(())
}

/// By its name an amendment, and its line.
static WRITTEN: [(&'static str, Amendment, &'static [u8], &'static [u8]); 7] = [
    (
        "a booking is sold",
        Amendment::Sold,
        b"60 90 5 1234 - in",
        b"sold 60 90 5 1234 - in",
    ),
    (
        "a booking is given up",
        Amendment::Cancelled,
        b"12",
        b"cancelled 12",
    ),
    (
        "a booking is changed",
        Amendment::Changed,
        b"12 60 90 5 1234 - in",
        b"changed 12 60 90 5 1234 - in",
    ),
    (
        "a booking waits",
        Amendment::Delayed,
        b"12 60 90 5 1234 - in",
        b"delayed 12 60 90 5 1234 - in",
    ),
    (
        "a booking is dropped",
        Amendment::Dropped,
        b"7",
        b"dropped 7",
    ),
    ("a channel is out", Amendment::Out, b"4", b"out 4"),
    ("nothing is told", Amendment::Changed, b"", b"changed "),
];

/// The journal of one amendment by these rules, if memory did not run out.
fn logged(alloc: Global, kind: Amendment, text: &[u8]) -> Option<MemoryDisk> {
    if matches!(kind, Amendment::SoldByRulesTwo) || text.len() > 200 || !are_printable(text) {
        return None;
    }
    let mut disk = MemoryDisk::new(alloc, Vec::new(alloc));
    begin(&mut disk, &HEAD).ok()?;
    log_event(&mut disk, LiveEvent::Amended(kind, text)).ok()?;
    Some(disk)
}

/// Whether it is the head and this line.
fn is_written(alloc: Global, kind: Amendment, text: &[u8], line: &[u8]) -> bool {
    match logged(alloc, kind, text) {
        Some(disk) => disk.octets() == with_line(&TEXT[..114], line).as_slice(),
        None => false,
    }
}

#[test]
fn each_amendment_is_written(rt: HostRuntime) -> Result<(), Fail> {
    for (name, kind, text, line) in &WRITTEN {
        assert!(rt; is_written(rt.alloc(), *kind, text, line), "{name}");
    }
    Ok(())
}
