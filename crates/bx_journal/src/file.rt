//! A file as a disk.

ghost use Rattle.std.specs.Prelude.{◌≡◌, Bool, true, false, ℕ, List, Some, OnOk};
ghost use Rattle.bx_journal.specs.declared.file.FileDisk.{FileDisk as PlainFileDisk};
ghost use Rattle.bx_journal.specs.Disk.{IsCutTo};

use crate::disk::{Disk, DiskFailed};
use std::io;
use std::io::Write;

/// What a disk writes into, at its end: a file of the system, or memory.
pub trait DiskFile: Write {
    /// Whether it tells what it holds, as memory does and a file of the system does not.
    ghost is_told: { Bool };

    /// It has said that what was written outlasts a crash.
    ghost has_synced: { Self → Type 0 };

    /// Cuts what it holds to so many octets.
    fn cut(&mut self, len: u64) -> io::Result<()>
        ensures { OnOk result (IsCutTo Self.contents len self.old self.new) };

    /// Brings what was written to where it outlasts a crash. No contract can say that it did: of a file of the system that is the
    /// system's word.
    fn sync(&mut self) -> io::Result<()>
        ensures kept { (text : List ℕ) → Self.contents self.old ≡ Some text → Self.contents self.new ≡ Some text }
        ensures synced { OnOk result (has_synced self.new) };

    ghost told: { (file : Self) (text : List ℕ) → Self.Write.contents file ≡ Some text → is_told ≡ true };
}

/// A file that is open to append to it, as a disk. It holds what the file tells of its octets: of memory that is all, and of a file of
/// the system nothing, but the code is the same. Of a crash it says what is known of it: memory leaves no text at all, and a file
/// may leave anything. So the laws of a disk say what was written here, and what a crash leaves of it is the operating system's word.
#[derive(Drop)]
pub struct FileDisk<F> {
    file: F,
    has_failed: bool,
}

impl<F> FileDisk<F> {
    /// A disk on this file, on which no call has failed.
    pub fn new(file: F) -> Self
        ensures file { result.file ≡ file }
        ensures unfailed { result.has_failed ≡ false }
    {
        FileDisk {
            file,
            has_failed: false,
        }
    }

    /// The file.
    pub fn into_file(self) -> F
        ensures { result ≡ self.file }
    {
        let FileDisk {
            file,
            has_failed: _,
        } = self;
        file
    }
}

impl<F: DiskFile> Disk for FileDisk<F> {
    ghost holds = { λ disk text. F.contents disk.file ≡ Some text };

    ghost may_leave = { λ disk c. F.is_told ≡ false };

    ghost moment = { λ disk. 0 };

    ghost left_since = { λ disk t c. F.is_told ≡ false };

    ghost has_failed = { λ disk. disk.has_failed };

    ghost has_synced = { λ disk. F.has_synced disk.file };

    ghost counts_now = { λ disk t c le now. now };

    ghost only_now = { λ disk c left. left };

    fn append(&mut self, octets: &[u8]) -> Result<(), DiskFailed> {
        if self.file.write_all(octets).is_err() {
            self.has_failed = true;
            return Err(DiskFailed);
        }
        Ok(())
    }

    fn cut(&mut self, len: u64) -> Result<(), DiskFailed> {
        if self.file.cut(len).is_err() {
            self.has_failed = true;
            return Err(DiskFailed);
        }
        Ok(())
    }

    fn sync(&mut self) -> Result<(), DiskFailed> {
        if self.file.sync().is_err() {
            self.has_failed = true;
            return Err(DiskFailed);
        }
        Ok(())
    }
}
