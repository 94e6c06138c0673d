//! A day that goes on by its journal.

ghost use Rattle.std.specs.Prelude.{◌≡◌, IfOk, IfErr, OnOk};
ghost use Rattle.bx_check_commands.specs.declared.fault.CommandFault.TheVariants.{Memory};
ghost use Rattle.bx_day_openings.specs.declared.fault.DayCommandFault.TheVariants.{Command};
ghost use Rattle.bx_sales.specs.GivenUps.{none_given_up};
ghost use Rattle.bx_journal_files.specs.declared.fault.LiveFault.TheVariants.{Day as OfDay};
ghost use Rattle.bx_journal_files.specs.Readying.{IsReady};
ghost use Rattle.bx_journal_files.specs.NewJournalsInside.{HasLength, IsUnopenedJournal};
ghost use Rattle.bx_journal_files.specs.Resuming.{GoesOn, GoesOnBy, IsKeptOn, IsKeptBy, IsTaggedOn, IsTaggedBy, IsNotedOn, IsNotedBy, IsTakenBy, IsNotResumed, IsNoLog};

use crate::fault::LiveFault;
use crate::file_stats::FileStats;
use crate::folder::sync_entry;
use crate::locks::Locks;
use crate::named_file::NamedFile;
use bx_check_commands::{CommandFault, tell_cause};
use bx_day::{Exchange, GivenUp};
use bx_day_openings::{DayCommandFault, DayOpening, replay_journal};
use bx_devices::Watched;
use bx_journal::{Disk, DiskFailed, DiskFile, FileDisk, Head, JournalFault, begin, resume};
use bx_live::Log;
use bx_sales::{Tag, none_given_up};
use std::alloc::Global;
use std::fs::{Files, OpenFile};
use std::io;
use std::io::Read;

/// An exchange whose day goes on, of each sale in its journal under which key it was asked for, or none, how bookings were given up by it, by their rows,
/// and what it logs.
#[derive(Drop)]
pub struct Resumed<D: Disk> {
    pub exchange: Exchange,
    pub tags: Vec<Option<Tag>>,
    pub given_up: Vec<Option<GivenUp>>,
    pub log: Log<D>,
}

/// Makes a journal that was read so ready to go on: what is torn is cut off, and one that was not begun begins.
fn make_ready<D: Disk>(
    disk: &mut D,
    head: &Head,
    whole: Result<u64, JournalFault>,
) -> Result<(), DiskFailed>
    ensures { OnOk result (IsReady D.holds D.may_leave head.now whole disk.old disk.new) }
{
    match whole {
        Ok(whole) => resume(disk, whole),
        Err(_) => {
            disk.cut(0)?;
            begin(disk, head)
        }
    }
}

/// Lets the events happen to the exchange that the journal in a file of this name has, sells again what it says was sold, and makes it ready for
/// what comes. A journal that was not begun has none, and begins. `LiveFault::Day` where it is not read to its end: as `Amendment`, as `Journal`,
/// as `BadLine`, `OtherPlan`, `OtherDay` or `OtherRules`, or as `Command`, as `CannotRead` or `Memory`; `CannotRecord` where it cannot be made ready.
pub fn resume_on<'a, F: Read + DiskFile + Drop>(
    alloc: Global,
    name: &'a str,
    file: F,
    head: &Head,
    opening: DayOpening,
) -> Result<Resumed<FileDisk<F>>, LiveFault<'a>>
    ensures resumed { IfOk result (λ resumed. GoesOn head.now opening.channels (F.remaining file) opening.exchange resumed.exchange) }
    // What happens from then on is logged after what was read.
    ensures kept { IfOk result (λ resumed.
        IsKeptOn F.contents F.is_told head.now opening.channels (F.remaining file) opening.exchange resumed.exchange resumed.log) }
    ensures tagged { IfOk result (λ resumed. IsTaggedOn head.now (F.remaining file) resumed.tags.items) }
    // It is noted of the events that happened to the exchange.
    ensures noted { IfOk result (λ resumed.
        IsNotedOn head.now opening.channels (F.remaining file) opening.exchange resumed.exchange resumed.given_up.items) }
    ensures refused { IfErr result (IsNotResumed name.now head.now opening.channels opening.exchange) }
{
    let mut journal = Watched::new(file);
    let DayOpening {
        exchange,
        channels,
        ..
    } = opening;
    let wanted = head.wanted();
    let replayed = replay_journal(alloc, name, &mut journal, &wanted, channels, exchange)?;
    let mut disk = FileDisk::new(journal.into_inner());
    match make_ready(&mut disk, head, replayed.whole) {
        Ok(()) => Ok(Resumed {
            exchange: replayed.exchange,
            tags: replayed.tags,
            given_up: replayed.given_up,
            log: Log { disk: Some(disk) },
        }),
        Err(_) => Err(LiveFault::CannotRecord(name)),
    }
}

/// `CannotRecord`, its cause told.
fn unwritten<'a, H: Eprint>(rt: &H, name: &'a str, cause: &io::Error) -> LiveFault<'a>
    ensures { result ≡ LiveFault.CannotRecord name.entry }
{
    tell_cause(rt, &name, cause);
    LiveFault::CannotRecord(name)
}

/// How many octets a file has, as the system says.
pub(crate) fn length_of<H: FileStats>(rt: &H, file: &H::File) -> io::Result<u64>
    ensures { IfOk result (HasLength (H.lies rt.now file.now)) }
{
    Ok(rt.stat(file)?.len)
}

/// The same of the file of a journal; `CannotRecord` where the system does not tell that.
fn measured<'a, H: FileStats + Eprint>(
    rt: &H,
    name: &'a str,
    file: &H::File,
) -> Result<u64, LiveFault<'a>>
    ensures length { IfOk result (HasLength (H.lies rt.now file.now)) }
    ensures refused { IfErr result (IsUnopenedJournal name.entry) }
{
    match length_of(rt, file) {
        Ok(length) => Ok(length),
        Err(cause) => Err(unwritten(rt, name, &cause)),
    }
}

/// The file of a journal, opened to write it, and made where it is not there. It is locked for as long as it is open. `CannotRecord`
/// where it cannot be opened or locked, `NotAFile` where it is no plain file, `InUse` where another program holds it; nothing of it is
/// read or changed then.
pub(crate) fn journal_file<'a, H: Locks + FileStats + Eprint>(
    rt: &H,
    name: &'a str,
) -> Result<H::File, LiveFault<'a>>
    ensures named { IfOk result (λ file. H.appends_to rt.now name.now file) }
    ensures locked { IfOk result (λ file. H.locked rt.now file) }
    ensures refused { IfErr result (IsUnopenedJournal name.entry) }
{
    let file = match rt.open_to_append(name) {
        Ok(file) => file,
        Err(cause) => return Err(unwritten(rt, name, &cause)),
    };
    match file.metadata() {
        Ok(metadata) if metadata.is_file() => {}
        Ok(_) => return Err(LiveFault::NotAFile(name)),
        Err(cause) => return Err(unwritten(rt, name, &cause)),
    }
    match rt.try_lock(&file) {
        Ok(true) => Ok(file),
        Ok(false) => Err(LiveFault::InUse(name)),
        Err(cause) => Err(unwritten(rt, name, &cause)),
    }
}

/// The list of a day without a journal, of which nothing was given up yet.
fn none_yet<'a>(alloc: Global) -> Result<Vec<Option<GivenUp>>, LiveFault<'a>>
    ensures list { IfOk result (λ v. v.items ≡ none_given_up) }
    ensures refused { IfErr result (λ fault. fault ≡ OfDay (Command Memory)) }
{
    match none_given_up(alloc) {
        Ok(given_up) => Ok(given_up),
        Err(_) => Err(LiveFault::Day(DayCommandFault::Command(CommandFault::Memory))),
    }
}

/// The exchange after the events and sales of the journal in the file of this name, if there is to be one. A file that is not there is made.
/// The faults are those of `new_journal` for a file that takes no journal, and else of `resume_on`; without one it is `LiveFault::Day`, as `Command`, as
/// `Memory`, where memory runs out.
pub fn resume_named<'a, H: Files + Locks + FileStats + AllocGlobal + Eprint>(
    rt: &'a H,
    name: Option<&'a str>,
    head: &Head,
    opening: DayOpening,
    is_shown: bool,
) -> Result<Resumed<FileDisk<NamedFile<'a, H, H::File>>>, LiveFault<'a>>
    ensures resumed { IfOk result (λ resumed. GoesOnBy head.now opening.channels name.entry opening.exchange resumed.exchange) }
    ensures kept { IfOk result (λ resumed. IsKeptBy head.now opening.channels name.entry opening.exchange resumed.exchange resumed.log) }
    ensures tagged { IfOk result (λ resumed. IsTaggedBy head.now name.entry resumed.tags.items) }
    ensures noted { IfOk result (λ resumed.
        IsNotedBy head.now opening.channels name.entry opening.exchange resumed.exchange resumed.given_up.items) }
    ensures taken { OnOk result (IsTakenBy (H.appends_to rt.now) (H.locked rt.now) (H.entered rt.now) name.entry) }
    ensures refused { IfErr result (IsNoLog name.entry head.now opening.channels opening.exchange) }
{
    let Some(name) = name else {
        let DayOpening { exchange, .. } = opening;
        return Ok(Resumed {
            exchange,
            tags: Vec::new(rt.alloc()),
            given_up: none_yet(rt.alloc())?,
            log: Log { disk: None },
        });
    };
    let file = journal_file(rt, name)?;
    sync_entry(rt, name, &file);
    let length = measured(rt, name, &file)?;
    let file = NamedFile::new(rt, name, file, length, is_shown);
    resume_on(rt.alloc(), name, file, head, opening)
}
