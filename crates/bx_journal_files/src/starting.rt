//! A journal that is to be new.

ghost use Rattle.std.specs.Prelude.{◌≡◌, is_some, Ok, OnOk, IfOk, IfErr};
ghost use Rattle.bx_journal_files.specs.JournalDisks.{file_under};
ghost use Rattle.bx_journal_files.specs.NewJournals.{HasNoNewJournal, IsOnNewFile};
ghost use Rattle.bx_journal_files.specs.NewJournalsInside.{IsNotNew, IsNoNewJournal};

use crate::fault::LiveFault;
use crate::file_stats::FileStats;
use crate::folder::sync_entry;
use crate::locks::Locks;
use crate::resuming::{journal_file, length_of};
use crate::synced_file::SyncedFile;
use bx_check_commands::CommandFault;
use bx_day_openings::DayCommandFault;
use bx_journal::FileDisk;
use std::alloc::Global;
use std::fs::{Files, OpenFile};
use std::io;
use std::io::{BufWriter, Write};

/// The disk of the journal of a rehearsal: what is written waits in a buffer.
pub type JournalDisk<F> = FileDisk<BufWriter<SyncedFile<F>>>;

/// Whether a file of this length holds nothing yet.
fn judged<'a>(name: &'a str, length: io::Result<u64>) -> Result<(), LiveFault<'a>>
    ensures new { OnOk result (length ≡ Ok 0) }
    ensures refused { IfErr result (IsNotNew name.now length) }
{
    match length {
        Ok(0) => Ok(()),
        Ok(_) => Err(LiveFault::NotEmpty(name)),
        Err(_) => Err(LiveFault::CannotRecord(name)),
    }
}

/// The journal in a file of this length, which may hold nothing yet.
fn journal_in<'a, F: Write + OpenFile + Drop>(
    alloc: Global,
    name: &'a str,
    file: F,
    length: io::Result<u64>,
) -> Result<JournalDisk<F>, LiveFault<'a>>
    ensures inside { IfOk result (λ disk. file_under disk ≡ file) }
    ensures new { IfOk result (λ disk. length ≡ Ok 0) }
    ensures refused { IfErr result (IsNoNewJournal name.now length) }
{
    judged(name, length)?;
    match BufWriter::new(alloc, SyncedFile::new(file)) {
        Ok(file) => Ok(FileDisk::new(file)),
        Err(_) => Err(LiveFault::Day(DayCommandFault::Command(CommandFault::Memory))),
    }
}

/// The journal in the file of this name, where one is named. It is made where it is not there; one that holds something is left as it
/// is. `CannotRecord` where it cannot be opened or locked, or its length is not told, `NotAFile` where it is no plain file, `InUse` where another
/// program writes it, `NotEmpty` where it holds something; `Day`, as `Command` (`Memory`), where memory runs out.
pub fn new_journal<'a, H: Files + Locks + FileStats + Eprint>(
    rt: &H,
    alloc: Global,
    name: Option<&'a str>,
) -> Result<Option<JournalDisk<H::File>>, LiveFault<'a>>
    ensures named { IfOk result (λ disk. is_some disk ≡ is_some name.entry) }
    ensures new { IfOk result (IsOnNewFile (H.appends_to rt.now) (H.locked rt.now) (H.lies rt.now) (H.entered rt.now) name.entry) }
    ensures refused { IfErr result (HasNoNewJournal name.entry) }
{
    let Some(name) = name else {
        return Ok(None);
    };
    let file = journal_file(rt, name)?;
    let length = length_of(rt, &file);
    sync_entry(rt, name, &file);
    let disk = journal_in(alloc, name, file, length)?;
    Ok(Some(disk))
}
