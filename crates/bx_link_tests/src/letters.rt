//! A disk that keeps the first octet of each line, and refuses calls from some call on.

use arrayvec::ArrayVec;
use bx_journal::{Disk, DiskFailed};

/// The first octets of the lines, how many of them are synced, and how many calls are done before one fails. Nothing is claimed of it.
#[derive(Drop)]
pub struct LetterDisk {
    pub letters: ArrayVec<u8, 256>,
    pub synced: usize,
    pub calls: u32,
    has_failed: bool,
}

impl LetterDisk {
    ghost use Rattle.std.specs.Prelude.{◌≡◌};

    pub fn new(calls: u32) -> Self {
        LetterDisk {
            letters: ArrayVec::new(),
            synced: 0,
            calls,
            has_failed: false,
        }
    }

    /// Whether one call more is done.
    fn next_call(&mut self) -> bool
        ensures { self.new.has_failed ≡ self.old.has_failed }
    {
        if self.calls == 0 {
            return false;
        }
        self.calls -= 1;
        true
    }
}

impl Disk for LetterDisk {
    ghost holds = { λ disk text. ⊥ };

    ghost may_leave = { λ disk c. ⊥ };

    ghost moment = { λ disk. 0 };

    ghost left_since = { λ disk t c. ⊥ };

    ghost has_failed = { λ disk. disk.has_failed };

    ghost has_synced = { λ disk. Unit {0} };

    ghost counts_now = { λ disk t c le now. now };

    ghost only_now = { λ disk c left. left };

    fn append(&mut self, octets: &[u8]) -> Result<(), DiskFailed> {
        if !self.next_call() || octets.is_empty() || self.letters.is_full() {
            self.has_failed = true;
            return Err(DiskFailed);
        }
        self.letters.push(octets[0]);
        Ok(())
    }

    fn cut(&mut self, _len: u64) -> Result<(), DiskFailed> {
        self.has_failed = true;
        Err(DiskFailed)
    }

    fn sync(&mut self) -> Result<(), DiskFailed> {
        if !self.next_call() {
            self.has_failed = true;
            return Err(DiskFailed);
        }
        self.synced = self.letters.len();
        Ok(())
    }
}
