//! The command that rehearses a day.

ghost use Rattle.std.specs.Prelude.{◌≡◌, ◌≤◌, ◌&&◌, not, is_some, Ok, IfOk, IfErr, OnOk};
ghost use Rattle.bx_capture.specs.declared.start.TheConstants.{LAST_START};
ghost use Rattle.bx_day_openings.specs.CaptureOpenings.{IsFirstOf};
ghost use Rattle.bx_day_openings.specs.Recording.{IsRecordsClock, IsRecordsFileFor, IsMade};
ghost use Rattle.bx_journal.specs.Files.{holds_unknown, may_leave_any, has_failed_in};
ghost use Rattle.bx_journal_files.specs.OpeningFaults.{IsUnlogged};
ghost use Rattle.bx_day_openings.specs.OpeningRefusals.{IsUnheard};
ghost use Rattle.bx_rehearsal_commands.specs.Rehearsals.{RehearsesTowards};
ghost use Rattle.bx_rehearsal_commands.specs.ReadyInside.{IsReadied, IsNotReadied, IsEnded, IsLostBy};
ghost use Rattle.bx_rehearsal_commands.specs.RehearsedDays.{IsRehearsedDay, IsRehearsalDone, RanBoth, RanWith};
ghost use Rattle.bx_rehearsal_commands.specs.RehearsalRefusals.{IsUnseen, StopsRehearsal, IsRehearsalRefusal};
ghost use Rattle.bx_rehearsal_commands.specs.PeersInside.{IsRehearsedFrom, IsUnmetHere, StopsMeeting, StopsAtPeerByClock, StopsAfterPeerByClock};
ghost use Rattle.bx_devices.specs.Devices.{writing_of};

use crate::rehearsing::{Opened, Rehearsed, rehearse};
use crate::running::View;
use crate::telling::{Ended, tell};
use bx_calendar::Clock;
use bx_check_commands::Inputs;
use bx_day_openings::{
    DayCommandFault, Opening, RecordsFile, accepted, accepted_at, connected_ends, far_end_of,
    file_of, first_of, records_clock_of, records_file_of, tied_opening,
};
use bx_devices::Watched;
use bx_far::Far;
use bx_journal::{Head, JournalDay};
use bx_journal_files::{Host, JournalDisk, LiveFault, new_journal, unlogged};
use bx_link::Connection;
use bx_request::{Peer as Asked, Place, RehearsalRequest};
use bx_world::{BothEnds, Peer};
use std::io::{Read, Write};
use std::net::TcpStream;

/// What the words of a rehearsal say of its time and of what is seen: the second that moment 0 has in a capture, the clock of the
/// records, and whether the moment is shown.
#[derive(Clone, Copy)]
struct Seen {
    first: u32,
    clock: Option<Clock>,
    is_shown: bool,
}

/// What a rehearsal runs over: its day with the disk of its journal, where one is kept, what is seen of it, and the file for its records.
#[derive(Drop)]
struct Ready<'a, F: Write + Drop> {
    opened: Opened<JournalDisk<F>>,
    view: View<F>,
    records: Option<RecordsFile<'a, F>>,
}

/// Opens the journal of a day that is opened, where one is to be kept, and the files of its capture and its records.
fn readied<'a, H: Host>(
    rt: &H,
    request: RehearsalRequest<'a>,
    opening: Opening,
    seen: Seen,
) -> Result<Ready<'a, H::File>, LiveFault<'a>>
    ensures readied { IfOk result (λ ready.
        IsReadied H.File.contents request.entry opening seen.first ready.opened ready.view.file ready.view.first seen.clock ready.records) }
    ensures refused { IfErr result (IsNotReadied H.File.contents request.entry) }
{
    let disk = new_journal(rt, rt.alloc(), request.journal)?;
    let file = file_of(rt, request.sight.capture)?;
    let records = records_file_of(rt, request.records, seen.clock)?;
    let Opening {
        exchange,
        digest,
        turns,
    } = opening;
    let opened = Opened {
        exchange,
        head: Head {
            plan: digest,
            day: JournalDay::Rehearsed,
        },
        turns,
        disk,
    };
    let view = View {
        file,
        first: seen.first,
        is_shown: seen.is_shown,
    };
    Ok(Ready {
        opened,
        view,
        records,
    })
}

/// The two directions of a stream.
fn connection<R: Read, W: Write>(reader: R, writer: W) -> Connection<R, W> {
    Connection {
        reader: Watched::new(reader),
        writer: Watched::new(writer),
    }
}

/// A day after its rehearsal, with the file for its records.
#[derive(Drop)]
struct Run<'a, F: Write + Drop> {
    rehearsed: Rehearsed<JournalDisk<F>>,
    records: Option<RecordsFile<'a, F>>,
}

/// Rehearses a day towards a peer. What cannot be logged is a fault of the journal that is named.
fn rehearse_named<'a, 'h, H: Host, P: Peer + Drop>(
    rt: &'h H,
    opened: Opened<JournalDisk<H::File>>,
    peer: P,
    view: View<H::File>,
    journal: Option<&'a str>,
) -> Result<Rehearsed<JournalDisk<H::File>>, LiveFault<'a>>
    requires limit { view.first ≤ LAST_START }
    requires kept { is_some opened.disk ≡ is_some journal }
    ensures ran { IfOk result
        (RehearsesTowards P.wrote P.gave P.parted holds_unknown may_leave_any has_failed_in H.File.contents opened peer view.file view.first) }
    ensures stopped { IfErr result (IsUnlogged journal.entry) }
{
    match rehearse(rt, opened, peer, view) {
        Ok(rehearsed) => Ok(rehearsed),
        Err(_) => Err(unlogged(journal)),
    }
}

/// Rehearses a day with a far end, over one TCP connection between both.
fn rehearse_both<'a, 'h, H: Host>(
    rt: &'h H,
    opened: Opened<JournalDisk<H::File>>,
    far: Far,
    view: View<H::File>,
    journal: Option<&'a str>,
) -> Result<Rehearsed<JournalDisk<H::File>>, LiveFault<'a>>
    requires limit { view.first ≤ LAST_START }
    requires kept { is_some opened.disk ≡ is_some journal }
    ensures ran { IfOk result (RanBoth TcpStream H.File.contents far opened view.file view.first) }
    ensures stopped { IfErr result (StopsMeeting IsUnmetHere journal.entry) }
{
    let (near, distant) = connected_ends(rt)?;
    let both = BothEnds::new(
        connection(&near, &near),
        far,
        connection(&distant, &distant),
    );
    rehearse_named(rt, opened, both, view, journal)
}

/// Rehearses a day towards the first peer that connects to a port or a socket.
fn rehearse_first<'a, 'h, H: Host>(
    rt: &'h H,
    place: Place<'a>,
    opened: Opened<JournalDisk<H::File>>,
    view: View<H::File>,
    journal: Option<&'a str>,
) -> Result<Rehearsed<JournalDisk<H::File>>, LiveFault<'a>>
    requires limit { view.first ≤ LAST_START }
    requires kept { is_some opened.disk ≡ is_some journal }
    ensures ran { IfOk result (RanWith H.File.contents (Asked.At place.entry) opened view.file view.first) }
    ensures stopped { IfErr result (StopsMeeting IsUnheard journal.entry) }
{
    match place {
        Place::Port(port) => {
            let peer = accepted(rt, port, view.is_shown)?;
            rehearse_named(rt, opened, connection(&peer, &peer), view, journal)
        }
        Place::Socket(path) => {
            let peer = accepted_at(rt, path, view.is_shown)?;
            rehearse_named(rt, opened, connection(&peer, &peer), view, journal)
        }
    }
}

/// Rehearses an opened day with the far end of a script.
fn rehearse_script<'a, H: Host, I: Inputs>(
    rt: &H,
    inputs: &mut I,
    script: &'a str,
    request: RehearsalRequest<'a>,
    opening: Opening,
    seen: Seen,
) -> Result<Run<'a, H::File>, LiveFault<'a>>
    requires { seen.first ≤ LAST_START }
    ensures ran { IfOk result (λ run. IsRehearsedFrom H.File.contents (Asked.Script script.entry) request.entry seen.first opening run.rehearsed) }
    ensures records { IfOk result (λ run. IsRecordsFileFor request.entry.records seen.clock run.records) }
    ensures stopped { IfErr result (λ fault. StopsAtPeerByClock H.File.contents (Asked.Script script.entry) request.entry seen.clock fault) }
{
    let far = far_end_of(rt.alloc(), inputs, script)?;
    let ready = readied(rt, request, opening, seen)?;
    let Ready {
        opened,
        view,
        records,
    } = ready;
    let rehearsed = rehearse_both(rt, opened, far, view, request.journal)?;
    Ok(Run { rehearsed, records })
}

/// Rehearses an opened day towards the first peer that connects to a port or a socket.
fn rehearse_at<'a, H: Host>(
    rt: &H,
    place: Place<'a>,
    request: RehearsalRequest<'a>,
    opening: Opening,
    seen: Seen,
) -> Result<Run<'a, H::File>, LiveFault<'a>>
    requires { seen.first ≤ LAST_START }
    ensures ran { IfOk result (λ run. IsRehearsedFrom H.File.contents (Asked.At place.entry) request.entry seen.first opening run.rehearsed) }
    ensures records { IfOk result (λ run. IsRecordsFileFor request.entry.records seen.clock run.records) }
    ensures stopped { IfErr result (λ fault. StopsAfterPeerByClock H.File.contents (Asked.At place.entry) request.entry seen.clock fault) }
{
    let ready = readied(rt, request, opening, seen)?;
    let Ready {
        opened,
        view,
        records,
    } = ready;
    let rehearsed = rehearse_first(rt, place, opened, view, request.journal)?;
    Ok(Run { rehearsed, records })
}

/// Rehearses an opened day with the peer that is asked for.
fn rehearse_with_peer<'a, H: Host, I: Inputs>(
    rt: &H,
    inputs: &mut I,
    request: RehearsalRequest<'a>,
    opening: Opening,
    seen: Seen,
) -> Result<Run<'a, H::File>, LiveFault<'a>>
    requires { seen.first ≤ LAST_START }
    ensures ran { IfOk result (λ run. IsRehearsedFrom H.File.contents request.entry.peer request.entry seen.first opening run.rehearsed) }
    ensures records { IfOk result (λ run. IsRecordsFileFor request.entry.records seen.clock run.records) }
    ensures stopped { IfErr result (λ fault. StopsAtPeerByClock H.File.contents request.entry.peer request.entry seen.clock fault) }
{
    match request.peer {
        Asked::Script(script) => rehearse_script(rt, inputs, script, request, opening, seen),
        Asked::At(place) => rehearse_at(rt, place, request, opening, seen),
    }
}

/// A day after its rehearsal, up to its end; or the fault of the link that ended it before.
fn ended<'a, F: Write + Drop>(run: Run<'a, F>) -> Result<Ended<'a, F>, LiveFault<'a>>
    ensures ended { IfOk result (IsEnded run.entry.rehearsed run.entry.records) }
    ensures lost { IfErr result (IsLostBy run.entry.rehearsed.lost) }
{
    let Run { rehearsed, records } = run;
    match rehearsed.lost {
        None => Ok(Ended {
            exchange: rehearsed.exchange,
            is_whole: rehearsed.is_whole,
            records,
        }),
        Some(fault) => Err(LiveFault::Day(DayCommandFault::Link(fault))),
    }
}

/// What the words of a rehearsal say of its time and of what is seen.
fn seen_of<'a>(
    request: RehearsalRequest<'a>,
    is_terminal: bool,
) -> Result<Seen, DayCommandFault<'a>>
    ensures first { IfOk result (λ seen. IsFirstOf request.entry.sight.capture seen.first) }
    ensures limit { IfOk result (λ seen. seen.first ≤ LAST_START) }
    ensures clock { IfOk result (λ seen. IsRecordsClock request.entry.records seen.clock) }
    ensures shown { IfOk result (λ seen. seen.is_shown ≡ (is_terminal && not request.entry.sight.is_quiet)) }
    ensures refused { IfErr result (IsUnseen request.entry) }
{
    let first = first_of(request.sight.capture)?;
    let clock = records_clock_of(request.records)?;
    Ok(Seen {
        first,
        clock,
        is_shown: is_terminal && !request.sight.is_quiet,
    })
}

/// The exchange at the end of a day that was rehearsed, with the file that was made for its records.
fn run_rehearsal<'a, H: Host, I: Inputs>(
    rt: &H,
    inputs: &mut I,
    request: RehearsalRequest<'a>,
    is_terminal: bool,
) -> Result<Ended<'a, H::File>, LiveFault<'a>>
    ensures ran { IfOk result (λ ended. IsRehearsedDay H.File.contents request.entry ended.exchange ended.is_whole) }
    ensures records { IfOk result (λ ended. IsMade request.entry.records ended.records) }
    ensures stopped { IfErr result (StopsRehearsal H.File.contents request.entry) }
{
    let seen = seen_of(request, is_terminal)?;
    let opening = tied_opening(rt.alloc(), inputs, request.plan, request.turns)?;
    let run = rehearse_with_peer(rt, inputs, request, opening, seen)?;
    ended(run)
}

/// Rehearses the day of a plan with the far end of a script, or towards the first peer that connects, as fast as they go, and with what
/// happens logged in a new journal, where one is named; shows its moment on a terminal alone, writes what became of each booking, and
/// its records into their file, where they are to be written. A journal that holds something is left as it is. At a fault of the link, and
/// at an event that cannot be logged, the day is over; the journal has what happened until then. A capture or records that were not written whole
/// are a refusal, after all that was told; at any other refusal nothing was written, except that where the output failed a prefix of
/// what was to be told was, and the records as if it had not.
///
/// What the day needs is opened in this order, and the first fault of it is answered, as `LiveFault::Day` but for `NotEmpty` and
/// `CannotRecord`: `Day` or `Capture` for the date and the zone of the capture; `Day` for those of the records; `Command` for the
/// plan; `Command` or `Script` for the script; `CannotRecord`, `NotAFile`, `InUse`, `NotEmpty` or `Command`, as `Memory`, for a journal that is named;
/// `CannotWriteFile` for the file of the capture, and then for that of the records; `CannotListen` or `CannotConnect` for the
/// connection. `CannotRecord` is also answered where an event cannot be logged, and `Link` is the fault of the link that
/// ended the day. At the end `Command`, as `CannotWrite`, is the fault of the output; `CannotWriteFile` that of the capture; and
/// `CannotWriteFile`, `Day`, as `OutOfRange`, or `Command`, as `Memory`, that of the records.
pub fn rehearse_on_files<'a, H: Host, I: Inputs, W: Write>(
    rt: &H,
    inputs: &mut I,
    request: RehearsalRequest<'a>,
    output: &mut Watched<W>,
    is_terminal: bool,
) -> Result<(), LiveFault<'a>>
    ensures done { OnOk result (IsRehearsalDone H.File.contents request.entry (writing_of W.contents output.old output.new)) }
    ensures refused { IfErr result (IsRehearsalRefusal H.File.contents request.entry W.contents output.old output.new) }
{
    let ended = run_rehearsal(rt, inputs, request, is_terminal)?;
    tell(rt.alloc(), ended, request.sight.capture, output)
}
