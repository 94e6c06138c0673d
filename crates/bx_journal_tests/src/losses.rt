//! What a crash leaves of events that are logged.

use crate::losing_disk::{LosingDisk, events_read};
use crate::told::reading;
use crate::worked::{DOWN, ENDS, ENQUIRY, HEAD, SOLD, TEXT, TICK};
use arrayvec::ArrayVec;
use bx_journal::{
    Event, JournalFault, LiveEvent, begin, commit, log_event, log_events, resume, write_event,
};
use std::test::Fail;

/// Puts the events of the worked journal in the journal, and answers for how many that was done before a call failed.
fn logged(disk: &mut LosingDisk) -> u64 {
    if begin(disk, &HEAD).is_err() || log_event(disk, TICK).is_err() {
        return 0;
    }
    if log_event(disk, LiveEvent::OnLink(Event::Receive(&ENQUIRY))).is_err() {
        return 1;
    }
    if log_events(disk, &[DOWN, TICK]).is_err() {
        return 2;
    }
    let nothing = LiveEvent::OnLink(Event::Receive(&[]));
    if write_event(disk, nothing).is_err() || commit(disk).is_err() {
        return 4;
    }
    if log_event(disk, SOLD).is_err() {
        return 5;
    }
    6
}

/// Whether what a crash left is a prefix of the worked journal, with so many events at least.
fn is_prefix(left: &[u8], least: u64) -> bool {
    if !TEXT.starts_with(left) {
        return false;
    }
    let read = reading(left, &HEAD.wanted());
    match read.answer {
        Ok(_) => events_read(&read) >= least,
        Err(fault) => fault == JournalFault::NotBegun && least == 0,
    }
}

/// Whether each crash after so many calls leaves a prefix.
fn are_prefixes(calls: u32) -> bool {
    let mut disk = LosingDisk::new(ArrayVec::new(), calls);
    let done = logged(&mut disk);
    let len = disk.octets.len();
    let mut prefixes = true;
    for kept in disk.synced..len + 1 {
        prefixes = prefixes
            && kept <= len
            && is_prefix(&disk.octets.as_slice()[..kept.min(len)], done);
    }
    prefixes
}

#[test]
fn what_a_crash_leaves_is_a_prefix(rt: HostRuntime) -> Result<(), Fail> {
    let mut prefixes = true;
    for calls in 0..14u32 {
        prefixes = prefixes && are_prefixes(calls);
    }
    assert!(rt; prefixes);
    let mut disk = LosingDisk::new(ArrayVec::new(), 14);
    assert_eq!(rt; logged(&mut disk), 6);
    assert_eq!(rt; disk.octets.as_slice(), TEXT);
    assert_eq!(rt; disk.synced, 174);
    Ok(())
}

/// Whether a journal of which so many octets are left goes on after its last whole line.
fn goes_on(len: usize) -> bool {
    let left = &TEXT[..len.min(TEXT.len())];
    let Ok(whole) = reading(left, &HEAD.wanted()).answer else {
        return false;
    };
    let Ok(octets) = ArrayVec::try_from(left) else {
        return false;
    };
    let mut disk = LosingDisk::new(octets, 100);
    if resume(&mut disk, whole).is_err() || log_event(&mut disk, DOWN).is_err() {
        return false;
    }
    let rest = disk.octets.as_slice();
    let prefix = (whole as usize).min(TEXT.len());
    ENDS.contains(&whole) && rest.strip_prefix(&TEXT[..prefix]) == Some(b"down\n".as_slice())
}

#[test]
fn a_torn_line_is_cut_off(rt: HostRuntime) -> Result<(), Fail> {
    let mut all = true;
    for len in 114..=TEXT.len() {
        all = all && goes_on(len);
    }
    assert!(rt; all);
    assert!(rt; !goes_on(113));
    Ok(())
}
