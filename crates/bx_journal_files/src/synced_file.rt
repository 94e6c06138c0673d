//! The file of a rehearsal's journal.

ghost use Rattle.std.specs.Prelude.{◌≡◌, OnOk, is_some, false};
ghost use Rattle.std.specs.Io.{WritesAtMost};
ghost use Rattle.std.specs.Io.KnownBytes.{WriteAppends};

use bx_journal::DiskFile;
use std::fs::OpenFile;
use std::io;
use std::io::Write;

/// A file whose system brings to the disk what was written to it: one call of its own.
pub trait Syncs {
    /// The system has said that what was written to it is on the disk.
    ghost is_synced: { Self → Type 0 };

    /// Brings what was written to it to the disk.
    fn sync_written(&self) -> io::Result<()>
        ensures { OnOk result (is_synced self.now) };
}

impl<F: OpenFile> Syncs for F {
    ghost is_synced = { λ file. Unit {0} };

    fn sync_written(&self) -> io::Result<()> {
        self.sync_data()
    }
}

/// A file that is open to append to it. Nothing is known of what a cut of it does, so it tells nothing of what it holds; each write is
/// passed on as it is, and a sync is done only where the system has said that it is.
#[derive(Drop)]
pub struct SyncedFile<F> {
    file: F,
}

impl<F> SyncedFile<F> {
    /// A file that is open to append to it.
    pub fn new(file: F) -> Self
        ensures { result.file ≡ file }
    {
        SyncedFile { file }
    }
}

impl<F: Write> Write for SyncedFile<F> {
    /// Passes the write on.
    fn write(&mut self, buf: &[u8]) -> io::Result<usize>
        ensures bound { WritesAtMost result buf.now }
        ensures passed { WriteAppends (F.contents self.old.file) (F.contents self.new.file) result buf.now }
    {
        self.file.write(buf)
    }

    /// Passes the flush on.
    fn flush(&mut self) -> io::Result<()> {
        self.file.flush()
    }
}

impl<F: Write + OpenFile + Syncs> DiskFile for SyncedFile<F> {
    ghost use Rattle.std.proofs.Common.{ap};

    ghost is_told = { false };

    ghost has_synced = { λ s. F.is_synced s.file };

    ghost told = { λ file text e. ap is_some e };

    fn cut(&mut self, len: u64) -> io::Result<()> {
        self.file.set_len(len)
    }

    fn sync(&mut self) -> io::Result<()> {
        self.file.sync_written()
    }
}
