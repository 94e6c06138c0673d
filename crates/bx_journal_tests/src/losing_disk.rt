//! A disk that may lose what was not synced, and refuses a call.

use crate::told::{WasRead, mark};
use arrayvec::ArrayVec;
use bx_journal::{Disk, DiskFailed};

/// Octets, of which a prefix is synced, and how many calls are done before one fails. Nothing is claimed of it.
#[derive(Drop)]
pub struct LosingDisk {
    pub octets: ArrayVec<u8, 256>,
    pub synced: usize,
    pub calls: u32,
    has_failed: bool,
}

impl LosingDisk {
    pub fn new(octets: ArrayVec<u8, 256>, calls: u32) -> Self {
        let synced = octets.len();
        LosingDisk {
            octets,
            synced,
            calls,
            has_failed: false,
        }
    }
}

/// Whether one call more is done. One that fails may have done what it was to do in part.
fn next_call(calls: &mut u32) -> bool {
    if *calls == 0 {
        return false;
    }
    *calls -= 1;
    true
}

impl Disk for LosingDisk {
    ghost holds = { λ disk text. ⊥ };

    ghost may_leave = { λ disk c. ⊥ };

    ghost moment = { λ disk. 0 };

    ghost left_since = { λ disk t c. ⊥ };

    ghost has_failed = { λ disk. disk.has_failed };

    ghost has_synced = { λ disk. Unit {0} };

    ghost counts_now = { λ disk t c le now. now };

    ghost only_now = { λ disk c left. left };

    fn append(&mut self, octets: &[u8]) -> Result<(), DiskFailed> {
        mark(&mut self.octets, octets);
        if !next_call(&mut self.calls) {
            self.has_failed = true;
            return Err(DiskFailed);
        }
        Ok(())
    }

    fn cut(&mut self, len: u64) -> Result<(), DiskFailed> {
        if !next_call(&mut self.calls) {
            self.has_failed = true;
            return Err(DiskFailed);
        }
        if len < self.octets.len() as u64 {
            self.octets.truncate(len as usize);
        }
        Ok(())
    }

    fn sync(&mut self) -> Result<(), DiskFailed> {
        if !next_call(&mut self.calls) {
            self.has_failed = true;
            return Err(DiskFailed);
        }
        self.synced = self.octets.len();
        Ok(())
    }
}

/// How many events were read, where they were.
pub fn events_read(read: &WasRead) -> u64 {
    let mut count = 0u64;
    for mark in &read.marks {
        if *mark == b't' || *mark == b'd' || *mark == b'.' {
            count = count.saturating_add(1);
        }
    }
    count
}
