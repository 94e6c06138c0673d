//! The folder in which a journal stands.

ghost use Rattle.std.specs.Prelude.{◌≡◌};
ghost use Rattle.bx_journal_files.specs.Folders.{folder_of};

use crate::file_stats::FileStats;
use std::path::Path;

/// The folder of the file of this name.
fn folder_of(name: &str) -> &str
    ensures { result.now ≡ folder_of name.now }
{
    match Path::new(name).parent() {
        Some(folder) if !folder.as_os_str().is_empty() => folder.as_os_str(),
        _ => ".",
    }
}

/// Brings the entry of an open file of this name in its folder to the disk, since a file that a crash leaves without a name is lost.
pub fn sync_entry<H: FileStats>(rt: &H, name: &str, file: &H::File)
    ensures { H.entered rt.now (folder_of name.now) file.now }
{
    rt.sync_folder(folder_of(name), file);
}
