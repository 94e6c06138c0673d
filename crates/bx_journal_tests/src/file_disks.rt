//! One disk over memory, and over memory through a buffer.

use crate::worked::{ENQUIRY, HEAD, TEXT, TICK};
use bx_journal::{Disk, DiskFile, Event, FileDisk, LiveEvent, begin, log_event, resume};
use std::alloc::Global;
use std::io::BufWriter;
use std::test::Fail;

/// What a file holds after two events, and a line that was torn and cut off.
fn went_on<F: DiskFile + Drop>(file: F) -> Option<F> {
    let mut disk = FileDisk::new(file);
    begin(&mut disk, &HEAD).ok()?;
    log_event(&mut disk, TICK).ok()?;
    disk.append(b"hear").ok()?;
    resume(&mut disk, 119).ok()?;
    log_event(&mut disk, LiveEvent::OnLink(Event::Receive(&ENQUIRY))).ok()?;
    Some(disk.into_file())
}

/// The same through a buffer.
fn went_on_buffered(alloc: Global) -> Option<Vec<u8>> {
    let file = went_on(BufWriter::new(alloc, Vec::new(alloc)).ok()?)?;
    file.into_inner().ok()
}

#[test]
fn what_was_appended_is_held(rt: HostRuntime) -> Result<(), Fail> {
    let alloc = rt.alloc();
    let text = went_on(Vec::new(alloc)).expect(&rt, "no growth was refused");
    assert_eq!(rt; text.as_slice(), &TEXT[..136]);
    let text = went_on_buffered(alloc).expect(&rt, "no growth was refused");
    assert_eq!(rt; text.as_slice(), &TEXT[..136]);
    Ok(())
}
