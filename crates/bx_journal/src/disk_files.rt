//! What a disk may write into: memory, a file of the system, and either through a buffer.

ghost use Rattle.std.specs.Prelude.{◌≡◌, is_some, false, true};
ghost use Rattle.std.specs.Io.{WritesAtMost};
ghost use Rattle.std.specs.Io.KnownBytes.{WriteAppends};

use crate::file::DiskFile;
use std::fs::OpenFile;
use std::io;
use std::io::{BufWriter, Read, Write};

impl DiskFile for Vec<u8> {
    ghost use Rattle.std.proofs.Common.{refl};

    ghost is_told = { true };

    ghost has_synced = { λ file. Unit {0} };

    ghost told = { λ file text e. refl };

    fn cut(&mut self, len: u64) -> io::Result<()> {
        if len < self.len() as u64 {
            self.truncate(len as usize);
        }
        Ok(())
    }

    fn sync(&mut self) -> io::Result<()> {
        Ok(())
    }
}

/// A file of the system. Nothing is known of what a cut or a sync of one does, so it tells nothing of what it holds; each write is
/// passed on as it is.
#[derive(Drop)]
pub struct SystemFile<F> {
    file: F,
}

impl<F> SystemFile<F> {
    /// A file that is open to append to it.
    pub fn new(file: F) -> Self
        ensures { result.file ≡ file }
    {
        SystemFile { file }
    }
}

impl<F: Write> Write for SystemFile<F> {
    ghost use Rattle.bx_journal.specs.Files.{file_inside};

    /// Passes the write on.
    fn write(&mut self, buf: &[u8]) -> io::Result<usize>
        ensures bound { WritesAtMost result buf.now }
        ensures passed { WriteAppends (F.contents (file_inside self.old)) (F.contents (file_inside self.new)) result buf.now }
    {
        self.file.write(buf)
    }

    /// Passes the flush on.
    fn flush(&mut self) -> io::Result<()> {
        self.file.flush()
    }
}

impl<F: Read> Read for SystemFile<F> {
    ghost use Rattle.bx_journal.specs.Files.{file_inside};

    ghost remaining = { λ s. F.remaining (file_inside s) };

    /// Passes the read on.
    fn read(&mut self, buf: &mut [u8]) -> io::Result<usize> {
        self.file.read(buf)
    }
}

impl<F: Write + OpenFile> DiskFile for SystemFile<F> {
    ghost use Rattle.std.proofs.Common.{ap};

    ghost is_told = { false };

    ghost has_synced = { λ file. Unit {0} };

    ghost told = { λ file text e. ap is_some e };

    fn cut(&mut self, len: u64) -> io::Result<()> {
        self.file.set_len(len)
    }

    fn sync(&mut self) -> io::Result<()> {
        self.file.sync_data()
    }
}

/// What is in the buffer is written at the next cut or sync, or where the file is let go.
impl<F: DiskFile + Drop> DiskFile for BufWriter<F> {
    ghost use Rattle.std.specs.Io.Buffered.{writer_inner};
    ghost use Rattle.bx_journal.specs.Files.{told_inside};

    ghost is_told = { F.is_told };

    ghost has_synced = { λ file. F.has_synced (writer_inner file) };

    ghost told = { λ file text e. told_inside F.contents F.is_told F.told file text e };

    fn cut(&mut self, len: u64) -> io::Result<()> {
        self.flush()?;
        self.get_mut().cut(len)
    }

    fn sync(&mut self) -> io::Result<()> {
        self.flush()?;
        self.get_mut().sync()
    }
}
