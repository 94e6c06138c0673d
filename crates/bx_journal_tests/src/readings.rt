//! What is read of a journal, whatever has become of its text.

use crate::plain_reading::plain_reading;
use crate::told::reading;
use crate::worked::{AMENDED, HEAD, LOST, OLDER, PLAN, REHEARSED, TEXT, UNDATED};
use arrayvec::ArrayVec;
use bx_cases::Failing;
use bx_journal::{JournalFault, Wanted, plan_digest};
use std::alloc::Global;
use std::test::Fail;

/// Whether both readers say the same of a text, where the day of the worked journal is wanted, or any.
fn is_same_for(text: &[u8], wants_day: bool) -> bool {
    let wanted = if wants_day {
        HEAD.wanted()
    } else {
        Wanted::of_any_day(&PLAN)
    };
    let read = reading(text, &wanted);
    let plain = plain_reading(text, wants_day);
    read.answer == plain.answer && read.marks.as_slice() == plain.marks.as_slice()
}

/// Whether they do for both.
pub fn is_same(text: &[u8]) -> bool {
    is_same_for(text, true) && is_same_for(text, false)
}

/// Whether both say the same where one octet is another one.
fn is_same_turned(text: &[u8], at: usize, value: u8) -> bool {
    let mut turned = ArrayVec::<u8, 200>::new();
    for (place, octet) in text.iter().enumerate() {
        let _ = turned.try_push(if place == at { value } else { *octet });
    }
    is_same(&turned)
}

/// Whether both say the same where any one octet of a text, from this place on, is any other one.
fn is_same_beside(text: &[u8], from: usize) -> bool {
    let mut same = true;
    for at in from..text.len() {
        for value in 0..=255u8 {
            same = same && is_same_turned(text, at, value);
        }
    }
    same
}

/// Whether they do of each prefix of a text.
fn is_same_ahead(text: &[u8]) -> bool {
    let mut same = true;
    for len in 0..=text.len() {
        same = same && is_same(&text[..len]);
    }
    same
}

#[test]
fn the_worked_journal_is_read(rt: HostRuntime) -> Result<(), Fail> {
    let read = reading(TEXT, &HEAD.wanted());
    assert!(rt; read.answer == Ok(174));
    assert_eq!(rt;
        read.marks.as_slice(),
        b"th\x08\x02\x01\x00\x75.dth.s60 90 5 1234 in.".as_slice()
    );
    Ok(())
}

#[test]
fn each_prefix_is_read(rt: HostRuntime) -> Result<(), Fail> {
    assert!(rt; is_same_ahead(TEXT));
    assert!(rt; is_same_ahead(REHEARSED));
    assert!(rt; is_same_ahead(OLDER));
    assert!(rt; is_same_ahead(UNDATED));
    assert!(rt; is_same_ahead(AMENDED));
    assert!(rt; is_same_ahead(LOST));
    Ok(())
}

#[test]
fn each_octet_may_be_another(rt: HostRuntime) -> Result<(), Fail> {
    assert!(rt; is_same_beside(TEXT, 0));
    Ok(())
}

#[test]
fn each_octet_of_an_amendment_may_be_another(rt: HostRuntime) -> Result<(), Fail> {
    assert!(rt; is_same_beside(AMENDED, 114));
    assert!(rt; is_same_beside(LOST, 114));
    Ok(())
}

/// Whether a failed read after so many octets leaves the events of the whole lines before it.
fn is_cut_off(reads: u32) -> bool {
    let read = reading(Failing::new(TEXT, reads, 1), &HEAD.wanted());
    let plain = plain_reading(&TEXT[..(reads as usize).min(TEXT.len())], true);
    read.answer == Err(JournalFault::ReadFailed) && read.marks.as_slice() == plain.marks.as_slice()
}

#[test]
fn each_read_may_fail(rt: HostRuntime) -> Result<(), Fail> {
    let mut same = true;
    for reads in 0..=174u32 {
        same = same && is_cut_off(reads);
    }
    assert!(rt; same);
    let whole = reading(Failing::new(TEXT, 175, 1), &HEAD.wanted());
    assert!(rt; whole.answer == Ok(174));
    Ok(())
}

#[test]
fn another_plan_is_named(rt: HostRuntime) -> Result<(), Fail> {
    // The digest of FIPS 180-4's one-block message.
    let other = plan_digest(b"abc");
    let read = reading(TEXT, &Wanted::of_any_day(&other));
    assert!(rt; read.answer == Err(JournalFault::OtherPlan));
    assert_eq!(rt; read.marks.as_slice(), b"".as_slice());
    Ok(())
}

/// What is read of the head and so many digits after a word, with an end of the line or without.
fn digits_after(
    alloc: Global,
    word: &[u8],
    digits: u32,
    end: &[u8],
) -> Option<Result<u64, JournalFault>> {
    let mut text = TEXT[..114].to_vec(alloc).ok()?;
    text.extend_from_slice(word).ok()?;
    for _ in 0..digits {
        text.push(b'0').ok()?;
    }
    text.extend_from_slice(end).ok()?;
    Some(reading(text.as_slice(), &HEAD.wanted()).answer)
}

#[test]
fn no_line_is_longer_than_that_of_the_longest_message(rt: HostRuntime) -> Result<(), Fail> {
    let alloc = rt.alloc();
    let bad = Some(Err(JournalFault::BadLine(4)));
    assert!(rt; digits_after(alloc, b"heard ", 520, b"\n") == Some(Ok(641)));
    assert!(rt; digits_after(alloc, b"heard ", 522, b"\n") == bad);
    assert!(rt; digits_after(alloc, b"heard ", 20_000, b"\n") == bad);
    assert!(rt; digits_after(alloc, b"heard ", 20_000, b"") == Some(Ok(114)));
    Ok(())
}

#[test]
fn no_amendment_is_longer_than_its_line(rt: HostRuntime) -> Result<(), Fail> {
    let alloc = rt.alloc();
    let bad = Some(Err(JournalFault::BadLine(4)));
    assert!(rt; digits_after(alloc, b"sold ", 200, b"\n") == Some(Ok(320)));
    assert!(rt; digits_after(alloc, b"sold ", 201, b"\n") == bad);
    assert!(rt; digits_after(alloc, b"cancelled ", 200, b"\n") == Some(Ok(325)));
    assert!(rt; digits_after(alloc, b"cancelled ", 201, b"\n") == bad);
    assert!(rt; digits_after(alloc, b"changed ", 200, b"\n") == Some(Ok(323)));
    assert!(rt; digits_after(alloc, b"changed ", 201, b"\n") == bad);
    assert!(rt; digits_after(alloc, b"delayed ", 200, b"\n") == Some(Ok(323)));
    assert!(rt; digits_after(alloc, b"delayed ", 201, b"\n") == bad);
    assert!(rt; digits_after(alloc, b"dropped ", 200, b"\n") == Some(Ok(323)));
    assert!(rt; digits_after(alloc, b"dropped ", 201, b"\n") == bad);
    assert!(rt; digits_after(alloc, b"out ", 200, b"\n") == Some(Ok(319)));
    assert!(rt; digits_after(alloc, b"out ", 201, b"\n") == bad);
    Ok(())
}
