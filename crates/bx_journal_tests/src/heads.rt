//! What is read of a head, and which of its faults is answered.

use crate::told::reading;
use crate::worked::{HEAD, OLDER, PLAN, UNDATED};
use arrayvec::ArrayVec;
use bx_journal::{JournalFault, Wanted};
use std::test::Fail;

/// A line of a head, its fault where the day of the worked journal is wanted, and where no day is.
type Row = (&'static [u8], Option<JournalFault>, Option<JournalFault>);

/// First lines.
static FIRST: [Row; 12] = [
    (b"bx-journal 2 rules 3", None, None),
    (
        b"bx-journal 2 rules 2",
        Some(JournalFault::OtherRules),
        None,
    ),
    (
        b"bx-journal 2 rules 0",
        Some(JournalFault::OtherRules),
        Some(JournalFault::OtherRules),
    ),
    (
        b"bx-journal 2 rules 1",
        Some(JournalFault::OtherRules),
        Some(JournalFault::OtherRules),
    ),
    (
        b"bx-journal 2 rules 4",
        Some(JournalFault::OtherRules),
        Some(JournalFault::OtherRules),
    ),
    (
        b"bx-journal 2 rules 4294967295",
        Some(JournalFault::OtherRules),
        Some(JournalFault::OtherRules),
    ),
    (
        b"bx-journal 2 rules 4294967296",
        Some(JournalFault::BadLine(1)),
        Some(JournalFault::BadLine(1)),
    ),
    (
        b"bx-journal 2 rules 03",
        Some(JournalFault::BadLine(1)),
        Some(JournalFault::BadLine(1)),
    ),
    (
        b"bx-journal 2 rules ",
        Some(JournalFault::BadLine(1)),
        Some(JournalFault::BadLine(1)),
    ),
    (
        b"bx-journal 2 rules 3 ",
        Some(JournalFault::BadLine(1)),
        Some(JournalFault::BadLine(1)),
    ),
    (
        b"bx-journal 3 rules 1",
        Some(JournalFault::BadLine(1)),
        Some(JournalFault::BadLine(1)),
    ),
    (b"bx-journal 1", Some(JournalFault::OtherRules), None),
];

/// Third lines.
static THIRD: [Row; 14] = [
    (b"day live 1767222000 60", None, None),
    (b"day rehearsed", Some(JournalFault::OtherDay), None),
    (
        b"day live 1767222000 61",
        Some(JournalFault::OtherDay),
        None,
    ),
    (
        b"day live 1767222001 60",
        Some(JournalFault::OtherDay),
        None,
    ),
    (b"day live 0 1", Some(JournalFault::OtherDay), None),
    (
        b"day live 4294967295 4294967295",
        Some(JournalFault::OtherDay),
        None,
    ),
    (
        b"day live 4294967296 1",
        Some(JournalFault::BadLine(3)),
        Some(JournalFault::BadLine(3)),
    ),
    (
        b"day live 1767222000 0",
        Some(JournalFault::BadLine(3)),
        Some(JournalFault::BadLine(3)),
    ),
    (
        b"day live 01767222000 60",
        Some(JournalFault::BadLine(3)),
        Some(JournalFault::BadLine(3)),
    ),
    (
        b"day live 1767222000",
        Some(JournalFault::BadLine(3)),
        Some(JournalFault::BadLine(3)),
    ),
    (
        b"day live 1767222000 60 1",
        Some(JournalFault::BadLine(3)),
        Some(JournalFault::BadLine(3)),
    ),
    (
        b"day live  1767222000 60",
        Some(JournalFault::BadLine(3)),
        Some(JournalFault::BadLine(3)),
    ),
    (
        b"day",
        Some(JournalFault::BadLine(3)),
        Some(JournalFault::BadLine(3)),
    ),
    (
        b"tick",
        Some(JournalFault::BadLine(3)),
        Some(JournalFault::BadLine(3)),
    ),
];

/// A text of these octets, a line, and its LF.
fn with_line(prefix: &[u8], line: &[u8]) -> ArrayVec<u8, 200> {
    let mut text = ArrayVec::new();
    let _ = text.try_extend_from_slice(prefix);
    let _ = text.try_extend_from_slice(line);
    let _ = text.try_extend_from_slice(b"\n");
    text
}

/// Whether a text has this fault, or, where it has none, is read so.
fn is_said(
    text: &[u8],
    wanted: &Wanted,
    fault: Option<JournalFault>,
    right: Result<u64, JournalFault>,
) -> bool {
    let expected = match fault {
        Some(fault) => Err(fault),
        None => right,
    };
    reading(text, wanted).answer == expected
}

#[test]
fn each_first_line_has_its_fault(rt: HostRuntime) -> Result<(), Fail> {
    let any = Wanted::of_any_day(&PLAN);
    let mut all = true;
    for row in &FIRST {
        let text = with_line(b"", row.0);
        let none = Err(JournalFault::NotBegun);
        all = all && is_said(&text, &HEAD.wanted(), row.1, none);
        all = all && is_said(&text, &any, row.2, none);
    }
    assert!(rt; all);
    Ok(())
}

#[test]
fn each_third_line_has_its_fault(rt: HostRuntime) -> Result<(), Fail> {
    let prefix =
        b"bx-journal 2 rules 3\nplan abababababababababababababababababababababababababababababababab\n";
    let older =
        b"bx-journal 2 rules 2\nplan abababababababababababababababababababababababababababababababab\n";
    let any = Wanted::of_any_day(&PLAN);
    let mut all = true;
    for row in &THIRD {
        let text = with_line(prefix, row.0);
        let whole = Ok(text.len() as u64);
        all = all && is_said(&text, &HEAD.wanted(), row.1, whole);
        all = all && is_said(&text, &any, row.2, whole);
        all = all && is_said(&with_line(older, row.0), &any, row.2, whole);
    }
    assert!(rt; all);
    Ok(())
}

#[test]
fn the_first_fault_of_a_head_is_answered(rt: HostRuntime) -> Result<(), Fail> {
    let rules_and_plan = b"bx-journal 2 rules 2\nplan ab\nday live 1 1\n".as_slice();
    let plan_and_day =
        b"bx-journal 2 rules 3\nplan 0bababababababababababababababababababababababababababababababab\nday live 1 1\n".as_slice();
    assert!(rt; reading(rules_and_plan, &HEAD.wanted()).answer == Err(JournalFault::OtherRules));
    assert!(rt; reading(plan_and_day, &HEAD.wanted()).answer == Err(JournalFault::OtherPlan));
    Ok(())
}

/// Whether a journal is read to this octet where no day is wanted, with what happened told as by the older rules, and is refused where
/// one is.
fn is_older(text: &[u8], whole: u64) -> bool {
    let told = b"to\x08\x02\x01\x00\x75.eto.r60 90 5 1234 in.".as_slice();
    let read = reading(text, &Wanted::of_any_day(&PLAN));
    let refused = reading(text, &HEAD.wanted());
    read.answer == Ok(whole)
        && read.marks.as_slice() == told
        && refused.answer == Err(JournalFault::OtherRules)
        && refused.marks.is_empty()
}

#[test]
fn older_rules_are_read_where_no_day_is_wanted(rt: HostRuntime) -> Result<(), Fail> {
    assert!(rt; is_older(OLDER, 174));
    assert!(rt; is_older(UNDATED, 143));
    Ok(())
}
