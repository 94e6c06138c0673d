//! What a system says of a file that is open, and of its name.

ghost use Rattle.std.specs.Prelude.{◌≡◌, ℕ, List, IfOk, OnOk};
ghost use Rattle.bx_journal_files.specs.Stands.{is_same_file};
ghost use Rattle.bx_journal_files.specs.declared.file_stats.FileStat.{FileStat};

use std::fs::{File, Files, Metadata, OpenFile};
use std::os::unix::fs::MetadataExt;
use std::{fs, io};

/// Where a file lies, by its device and its inode, and how many octets it has.
#[derive(Clone, Copy)]
pub struct FileStat {
    pub device: u64,
    pub inode: u64,
    pub len: u64,
}

impl FileStat {
    /// By what the system says of it.
    fn of(metadata: &Metadata) -> FileStat {
        FileStat {
            device: metadata.dev(),
            inode: metadata.ino(),
            len: metadata.len(),
        }
    }

    /// Whether this is the same file.
    pub(crate) fn is_same_file(self, other: FileStat) -> bool
        ensures { result ≡ is_same_file self other }
    {
        self.device == other.device && self.inode == other.inode
    }
}

/// A system that opens its files to append to them, says where they lie, and brings to the disk what was written to them: each call is one of
/// its own, and the order of them stands in what is proved of `NamedFile`.
pub trait FileStats: Files {
    /// It has opened this file by this name, to read it and to write at its end.
    ghost appends_to: { Self → List ℕ → Self.File → Type 0 };

    /// It has said this of a file that is open.
    ghost lies: { Self → Self.File → FileStat → Type 0 };

    /// It has said this of the file that has this name.
    ghost names: { Self → List ℕ → FileStat → Type 0 };

    /// It has said that what was written to this file is on the disk.
    ghost synced: { Self → Self.File → Type 0 };

    /// It was asked, while this file was open, to bring to the disk what stands in the folder of this name.
    ghost entered: { Self → List ℕ → Self.File → Type 0 };

    /// The file of this name, to read it and to write at its end. It is made where it is not there.
    fn open_to_append(&self, name: &str) -> io::Result<Self::File>
        ensures { IfOk result (λ file. appends_to self.now name.now file) };

    /// What it says of a file that is open.
    fn stat(&self, file: &Self::File) -> io::Result<FileStat>
        ensures { IfOk result (λ stat. lies self.now file.now stat) };

    /// What it says of the file that has this name.
    fn stat_named(&self, name: &str) -> io::Result<FileStat>
        ensures { IfOk result (λ stat. names self.now name.now stat) };

    /// Brings what was written to a file to the disk.
    fn sync(&self, file: &Self::File) -> io::Result<()>
        ensures { OnOk result (synced self.now file.now) };

    /// Brings what stands in a folder to the disk, with the entry of a file that is open. A folder that cannot be opened to read, or that
    /// its system cannot sync, is let be: some have no such thing.
    fn sync_folder(&self, folder: &str, file: &Self::File)
        ensures { entered self.now folder.now file.now };
}

impl<H: Files<File = File>> FileStats for H {
    ghost appends_to = { λ system name file. Unit {0} };

    ghost lies = { λ system file stat. Unit {0} };

    ghost names = { λ system name stat. Unit {0} };

    ghost synced = { λ system file. Unit {0} };

    ghost entered = { λ system folder file. Unit {0} };

    fn open_to_append(&self, name: &str) -> io::Result<File> {
        File::options()
            .read(true)
            .append(true)
            .create(true)
            .open(self, name)
    }

    fn stat(&self, file: &File) -> io::Result<FileStat> {
        Ok(FileStat::of(&file.metadata()?))
    }

    fn stat_named(&self, name: &str) -> io::Result<FileStat> {
        Ok(FileStat::of(&fs::metadata(self, name)?))
    }

    fn sync(&self, file: &File) -> io::Result<()> {
        file.sync_data()
    }

    fn sync_folder(&self, folder: &str, _file: &File) {
        if let Ok(folder) = File::open(self, folder) {
            let _ = folder.sync_all();
        }
    }
}
