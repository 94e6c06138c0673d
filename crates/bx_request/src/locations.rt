//! Where the files of names stand.

ghost use Rattle.std.specs.Prelude.{◌↔◌, ℕ, List, Option, IsTrue};
ghost use Rattle.bx_request.specs.Locations.{IsOneLocation};

use std::fs;
use std::fs::{File, Files};
use std::io::ErrorKind;
use std::os::unix::fs::MetadataExt;

/// Where a file stands: its device, and its number there. Where none is there yet they are those of its folder, with its name in that.
#[derive(Clone, Copy)]
pub struct Location<'a> {
    pub device: u64,
    pub inode: u64,
    /// The name of a file that is not there yet, in its folder; else empty.
    pub rest: &'a str,
}

impl<'a> Location<'a> {
    /// Whether both are of one file.
    pub fn is(self, other: Location<'a>) -> bool
        ensures { IsTrue result ↔ IsOneLocation self.entry other.entry }
    {
        self.device == other.device && self.inode == other.inode && self.rest == other.rest
    }
}

/// A system that tells where the files of names stand.
pub trait Locates: Files {
    ghost use Rattle.bx_request.specs.declared.locations.Location.{Location as PlainLocation};

    /// It has told this of a name.
    ghost tells: { Self → List ℕ → Option PlainLocation → Type 0 };

    /// Where the file of this name stands, or would. None where that cannot be known, and where what stands there is no plain file: a
    /// device or a pipe holds nothing that a second use of it destroys.
    fn location<'a>(&self, name: &'a str) -> Option<Location<'a>>
        ensures { tells self.now name.now result };
}

/// A name in two: that of its folder, and the rest.
fn parted(name: &str) -> (&str, &str) {
    match name.rsplit_once('/') {
        Some((folder, rest)) if folder.is_empty() => ("/", rest),
        Some(parts) => parts,
        None => (".", name),
    }
}

impl<H: Files<File = File>> Locates for H {
    ghost tells = { λ system name location. Unit {0} };

    fn location<'a>(&self, name: &'a str) -> Option<Location<'a>> {
        match fs::metadata(self, name) {
            Ok(file) if file.is_file() => Some(Location {
                device: file.dev(),
                inode: file.ino(),
                rest: "",
            }),
            Err(fault) if fault.kind() == ErrorKind::NotFound => {
                let (folder, rest) = parted(name);
                let folder = fs::metadata(self, folder).ok()?;
                Some(Location {
                    device: folder.dev(),
                    inode: folder.ino(),
                    rest,
                })
            }
            _ => None,
        }
    }
}
