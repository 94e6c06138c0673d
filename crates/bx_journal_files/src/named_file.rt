//! The file of a journal, under its name.

ghost use Rattle.std.specs.Prelude.{◌≡◌, ◌+◌, ◌≤◌, ◌<◌, OnOk, IfOk, is_some, false};
ghost use Rattle.std.specs.Io.{WritesAtMost};
ghost use Rattle.bx_journal_files.specs.Stands.{Stands};

use crate::file_stats::FileStats;
use bx_check_commands::tell_cause;
use bx_journal::DiskFile;
use std::fs::{Files, OpenFile};
use std::io;
use std::io::{ErrorKind, Read, Write};

/// A file of the system that is open to append to it, with the name by which it was opened and how many octets it has. A sync of it, and each
/// 60th write since it was last seen, also sees that it stands there and has just these: what goes into a file that was removed, renamed or
/// cut is lost. Nothing is known of what a cut or a sync of it does, so it tells nothing of what it holds. Why a call failed is told on
/// standard error.
#[derive(Drop)]
pub struct NamedFile<'a, H, F> {
    rt: &'a H,
    name: &'a str,
    file: F,
    len: u64,
    /// How often it was written to since a write saw that it stands.
    unseen: u8,
    is_shown: bool,
}

impl<'a, H: Eprint, F> NamedFile<'a, H, F> {
    /// A file that was opened by this name, and has so many octets; whether a moment is shown on standard error, which a cause then
    /// overwrites.
    pub fn new(rt: &'a H, name: &'a str, file: F, len: u64, is_shown: bool) -> Self
        ensures file { result.file ≡ file }
        ensures name { result.name ≡ name.entry }
        ensures length { result.len ≡ len }
    {
        NamedFile {
            rt,
            name,
            file,
            len,
            unseen: 0,
            is_shown,
        }
    }

    /// What a call answered, the cause of its failure told. One that was interrupted is made again.
    fn told<T>(&self, answer: io::Result<T>) -> io::Result<T>
        ensures { result ≡ answer }
    {
        if let Err(cause) = &answer
            && cause.kind() != ErrorKind::Interrupted
        {
            if self.is_shown {
                let _ = eprint!(self.rt; "\r");
            }
            tell_cause(self.rt, &self.name, cause);
        }
        answer
    }
}

/// What is wrong where a file does not stand under its name.
fn misplaced() -> io::Error {
    io::Error::other("not the file that was opened, or not as long as what was written")
}

impl<'a, H: FileStats> NamedFile<'a, H, H::File> {
    /// The file stands under its name, and has as many octets as were written.
    fn see(&self) -> io::Result<()>
        ensures { OnOk result (Stands (H.lies self.now.rt.now self.now.file) (H.names self.now.rt.now self.now.name.now) self.now.len) }
    {
        let open = self.rt.stat(&self.file)?;
        let named = self.rt.stat_named(self.name)?;
        if open.is_same_file(named) && named.len == self.len {
            return Ok(());
        }
        Err(misplaced())
    }

    /// Sees at each 60th call that it stands: a second of a day writes a line at least, so that is once in a minute.
    fn watch(&mut self) -> io::Result<()>
        ensures seen { OnOk result
            (60 ≤ self.old.unseen + 1 → Stands (H.lies self.new.rt.now self.new.file) (H.names self.new.rt.now self.new.name.now) self.new.len) }
        ensures counted { OnOk result (self.old.unseen + 1 < 60 → self.new.unseen ≡ self.old.unseen + 1) }
    {
        if self.unseen < 59 {
            self.unseen += 1;
            return Ok(());
        }
        self.unseen = 0;
        self.see()
    }

    /// What was written is on the disk, under the name of the file, and is all that stands there.
    fn settle(&self) -> io::Result<()>
        ensures synced { OnOk result (H.synced self.now.rt.now self.now.file) }
        ensures stands { OnOk result (Stands (H.lies self.now.rt.now self.now.file) (H.names self.now.rt.now self.now.name.now) self.now.len) }
    {
        self.rt.sync(&self.file)?;
        self.see()
    }
}

impl<'a, H: Files + Eprint> NamedFile<'a, H, H::File> {
    /// Writes at its end, and counts what was written.
    fn put(&mut self, buf: &[u8]) -> io::Result<usize>
        ensures bound { WritesAtMost result buf.now }
        ensures counted { IfOk result (λ count. self.old.len + count ≤ 18446744073709551615 → self.new.len ≡ self.old.len + count) }
    {
        let written = self.file.write(buf);
        if let Ok(count) = written {
            self.len = self.len.saturating_add(count as u64);
        }
        self.told(written)
    }

    /// Cuts it to so many octets, which it has then.
    fn cut_to(&mut self, len: u64) -> io::Result<()>
        ensures counted { OnOk result (self.new.len ≡ len) }
    {
        let cut = self.file.set_len(len);
        if cut.is_ok() {
            self.len = len;
        }
        self.told(cut)
    }
}

impl<'a, H: FileStats + Eprint> Write for NamedFile<'a, H, H::File> {
    fn write(&mut self, buf: &[u8]) -> io::Result<usize> {
        let count = self.put(buf)?;
        let watched = self.watch();
        self.told(watched)?;
        Ok(count)
    }

    fn flush(&mut self) -> io::Result<()> {
        let flushed = self.file.flush();
        self.told(flushed)
    }
}

impl<'a, H: FileStats + Eprint> Read for NamedFile<'a, H, H::File> {
    fn read(&mut self, buf: &mut [u8]) -> io::Result<usize> {
        let read = self.file.read(buf);
        self.told(read)
    }
}

impl<'a, H: FileStats + Eprint> DiskFile for NamedFile<'a, H, H::File> {
    ghost use Rattle.std.proofs.Common.{ap};
    ghost use Rattle.bx_journal_files.specs.Stands.{Stands};

    ghost is_told = { false };

    ghost has_synced = { λ s. H.synced s.rt.now s.file × Stands (H.lies s.rt.now s.file) (H.names s.rt.now s.name.now) s.len };

    ghost told = { λ file text e. ap is_some e };

    fn cut(&mut self, len: u64) -> io::Result<()> {
        self.cut_to(len)
    }

    fn sync(&mut self) -> io::Result<()> {
        let settled = self.settle();
        self.told(settled)
    }
}
