//! Files that a command would destroy, since they are named twice.

ghost use Rattle.std.specs.Prelude.{◌≡◌, ◌⊎◌, None, Some, All, IfSome, IsTrue, true, false};
ghost use Rattle.bx_request.specs.Locations.{AreApart, HaveMet, IsApart, IsMet, Meets, MeetsAny, NoFileMeets};

use crate::locations::Locates;
use crate::request::Request;
use crate::uses::{FileUse, named_files};
use std::fmt;
use std::fmt::{Display, Formatter};

/// The file of this name is to be written, and it is read too, or written twice.
#[derive(Clone, Copy)]
pub struct SameFile<'a>(pub &'a str);

impl<'a> Display for SameFile<'a> {
    fn fmt<W: fmt::Write>(&self, f: &mut Formatter<W>) -> fmt::Result {
        write!(f, "F6 SameFile {}", self.0)
    }
}

/// Whether the file of this name, which is written or not, is another one, and one of the two is written.
fn meets<'a, H: Locates>(rt: &H, name: &str, is_written: bool, other: FileUse<'a>) -> bool
    ensures meets { result ≡ true → Meets (H.tells rt.now) name.now is_written other.entry }
    ensures apart { result ≡ false → IsApart (H.tells rt.now) name.now is_written (Some other.entry) }
{
    if !is_written && !other.is_written {
        return false;
    }
    let one = rt.location(name);
    let two = rt.location(other.name);
    match (one, two) {
        (Some(one), Some(two)) => one.is(two),
        _ => false,
    }
}

/// The first of these files that this one meets.
fn met_by<'a, H: Locates>(
    rt: &H,
    name: &str,
    is_written: bool,
    files: &[Option<FileUse<'a>>],
) -> Option<&'a str>
    ensures met { IfSome result (λ met. MeetsAny (H.tells rt.now) name.now is_written files.now met.now) }
    ensures apart { result ≡ None → All (IsApart (H.tells rt.now) name.now is_written) files.now }
{
    for file in files {
        if let Some(file) = *file {
            if meets(rt, name, is_written, file) {
                return Some(file.name);
            }
        }
    }
    None
}

/// The first of these files that one before it meets.
fn met_among<'a, H: Locates>(rt: &H, files: &[Option<FileUse<'a>>]) -> Option<&'a str>
    ensures met { IfSome result (λ met. HaveMet (H.tells rt.now) files.now met.now) }
    ensures apart { result ≡ None → AreApart (H.tells rt.now) files.now }
{
    for (place, file) in files.iter().enumerate() {
        if let Some(file) = *file {
            if let Some(met) = met_by(rt, file.name, file.is_written, &files[place + 1..]) {
                return Some(met);
            }
        }
    }
    None
}

/// A file that a command is to write and that it also reads, or is to write twice, by its name in the words; those that standard input
/// comes from and standard output goes to count. None is opened to find that.
pub fn met_file<'a, H: Locates>(rt: &H, request: &Request<'a>) -> Option<&'a str>
    ensures met { IfSome result (λ met. IsMet (H.tells rt.now) request.now met.now) }
    ensures apart { result ≡ None → NoFileMeets (H.tells rt.now) request.now }
{
    let files = named_files(request);
    if let Some(met) = met_by(rt, "/dev/stdin", false, &files) {
        return Some(met);
    }
    if let Some(met) = met_by(rt, "/dev/stdout", true, &files) {
        return Some(met);
    }
    met_among(rt, &files)
}
