//! A journal on a disk in memory.

use crate::told::reading;
use crate::worked::{DOWN, ENQUIRY, HEAD, SOLD, TEXT, TICK};
use bx_journal::{
    Event, Head, JournalDay, LiveEvent, MemoryDisk, begin, log_event, log_events, plan_digest,
    resume,
};
use std::alloc::Global;
use std::test::Fail;

/// A disk with the worked journal, if memory did not run out.
fn logged(alloc: Global) -> Option<MemoryDisk> {
    let mut disk = MemoryDisk::new(alloc, Vec::new(alloc));
    begin(&mut disk, &HEAD).ok()?;
    log_event(&mut disk, TICK).ok()?;
    log_event(&mut disk, LiveEvent::OnLink(Event::Receive(&ENQUIRY))).ok()?;
    log_events(&mut disk, &[DOWN, TICK]).ok()?;
    log_event(&mut disk, LiveEvent::OnLink(Event::Receive(&[]))).ok()?;
    log_event(&mut disk, SOLD).ok()?;
    Some(disk)
}

#[test]
fn each_event_is_a_line(rt: HostRuntime) -> Result<(), Fail> {
    let alloc = rt.alloc();
    let disk = logged(alloc).expect(&rt, "no growth was refused");
    assert_eq!(rt; disk.octets(), TEXT);
    Ok(())
}

#[test]
fn the_head_names_the_plan_and_the_day(rt: HostRuntime) -> Result<(), Fail> {
    let alloc = rt.alloc();
    let mut disk = MemoryDisk::new(alloc, Vec::new(alloc));
    // The digest of FIPS 180-4's one-block message.
    let head = Head {
        plan: plan_digest(b"abc"),
        day: JournalDay::Rehearsed,
    };
    let begun = begin(&mut disk, &head);
    assert!(rt; begun.is_ok());
    let head =
        b"bx-journal 2 rules 3\nplan ba7816bf8f01cfea414140de5dae2223b00361a396177a9cb410ff61f20015ad\nday rehearsed\n";
    assert_eq!(rt; disk.octets(), head.as_slice());
    Ok(())
}

/// The text after a journal whose end is torn went on by a tick.
fn went_on(alloc: Global) -> Option<Vec<u8>> {
    let torn = TEXT[..135].to_vec(alloc).ok()?;
    let whole = reading(torn.as_slice(), &HEAD.wanted()).answer.ok()?;
    let mut disk = MemoryDisk::new(alloc, torn);
    resume(&mut disk, whole).ok()?;
    log_event(&mut disk, TICK).ok()?;
    disk.octets().to_vec(alloc).ok()
}

#[test]
fn a_journal_in_memory_goes_on(rt: HostRuntime) -> Result<(), Fail> {
    let alloc = rt.alloc();
    let text = went_on(alloc).expect(&rt, "no growth was refused");
    assert!(rt; text.as_slice().strip_prefix(&TEXT[..119]) == Some(b"tick\n".as_slice()));
    Ok(())
}
