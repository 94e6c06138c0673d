//! A day that is opened, rehearsed: as fast as its peer goes.

ghost use Rattle.std.specs.Prelude.{◌≡◌, ◌≤◌, true, is_some, IfOk, IfSome, OnErr};
ghost use Rattle.bx_capture.specs.declared.start.TheConstants.{LAST_START};
ghost use Rattle.bx_rehearsal_commands.specs.RehearsalsInside.{IsPutAway};
ghost use Rattle.bx_rehearsal_commands.specs.Rehearsals.{RehearsesTowards};
ghost use Rattle.bx_rehearsal_commands.specs.WaitingDisks.{HasBegun};

use crate::running::{Ran, View, run_in};
use crate::waiting::WaitingDisk;
use bx_day::Exchange;
use bx_frames::LinkFault;
use bx_journal::{Disk, Head, begin};
use bx_live::{CannotLog, Log};
use bx_world::{Peer, Rehearsal};
use std::io::Write;
use std::rt::Clock;

/// A day before its rehearsal: the exchange at its opening, what its journal is of, how many turns it is to have, and the disk on
/// which its journal is to begin, where one is to be kept.
#[derive(Drop)]
pub struct Opened<D> {
    pub exchange: Exchange,
    pub head: Head,
    pub turns: u32,
    pub disk: Option<D>,
}

/// A day after its rehearsal, with the disk on which its journal is, where one was kept.
#[derive(Drop)]
pub struct Rehearsed<D> {
    pub exchange: Exchange,
    pub disk: Option<D>,
    /// The fault of the link that ended the day, where one did.
    pub lost: Option<LinkFault>,
    /// Whether all that was to be captured was.
    pub is_whole: bool,
}

/// Begins a journal on an empty disk, where there is one. It is synced once it is put away.
fn begun<D: Disk + Drop>(disk: Option<D>, head: &Head) -> Result<Log<WaitingDisk<D>>, CannotLog>
    ensures begun { IfOk result (λ kept. HasBegun D.holds head.now disk kept.disk) }
    ensures failed { OnErr result (is_some disk ≡ true) }
{
    let Some(disk) = disk else {
        return Ok(Log { disk: None });
    };
    let mut waiting = WaitingDisk::new(disk);
    match begin(&mut waiting, head) {
        Ok(()) => Ok(Log {
            disk: Some(waiting),
        }),
        Err(_) => Err(CannotLog),
    }
}

/// The disk of a journal, with all that is logged, where one was kept.
fn put_away<D: Disk + Drop>(kept: Log<WaitingDisk<D>>) -> Result<Option<D>, CannotLog>
    ensures away { IfOk result (IsPutAway D.holds D.may_leave kept.disk) }
    ensures synced { IfOk result (λ disk. IfSome disk D.has_synced) }
    ensures failed { OnErr result (is_some kept.disk ≡ true) }
{
    let Some(waiting) = kept.disk else {
        return Ok(None);
    };
    match waiting.put_away() {
        Ok(disk) => Ok(Some(disk)),
        Err(_) => Err(CannotLog),
    }
}

/// Rehearses a day towards a peer. Where a journal is kept, each event is logged before it happens, and all of it is on the disk at
/// the end, also where a fault of the link has ended the day; where something cannot be logged there, nothing more is done, and
/// `CannotLog` is answered. The first second of the view is at most `LAST_START`.
pub fn rehearse<'h, H: Clock + Eprint, P: Peer + Drop, D: Disk + Drop, F: Write + Drop>(
    rt: &'h H,
    opened: Opened<D>,
    peer: P,
    view: View<F>,
) -> Result<Rehearsed<D>, CannotLog>
    requires { view.first ≤ LAST_START }
    ensures failed { OnErr result (is_some opened.disk ≡ true) }
    ensures ran { IfOk result
        (RehearsesTowards P.wrote P.gave P.parted D.holds D.may_leave D.has_failed F.contents opened peer view.file view.first) }
    // What the disk is written into has said that all of the journal outlasts a crash.
    ensures synced { IfOk result (λ rehearsed. IfSome rehearsed.disk D.has_synced) }
{
    let Opened {
        mut exchange,
        head,
        turns,
        disk,
    } = opened;
    let kept = begun(disk, &head)?;
    let rehearsal = Rehearsal {
        peer,
        log: kept,
        lost: None,
    };
    let Ran {
        world,
        done,
        is_whole,
    } = run_in(rt, &mut exchange, rehearsal, turns, view);
    done?;
    let Rehearsal {
        peer: _,
        log: kept,
        lost,
    } = world;
    let disk = put_away(kept)?;
    Ok(Rehearsed {
        exchange,
        disk,
        lost,
        is_whole,
    })
}
