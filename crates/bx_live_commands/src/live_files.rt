//! The command that runs a day by the clock, over a data link.

ghost use Rattle.std.specs.Prelude.{◌≡◌, true, is_some, IfOk, IfErr, OnOk, OnErr};
ghost use Rattle.bx_devices.specs.Watching.{device_of};
ghost use Rattle.bx_live_commands.specs.LiveDays.{IsLiveDay, IsLiveTold};
ghost use Rattle.bx_live_commands.specs.LiveInside.{IsLiveRun, StopsRun, RunsWith, StopsWith};
ghost use Rattle.bx_live_commands.specs.LiveRefusals.{StopsLive, IsLiveRefusal};

use crate::by_line::{Told, run_by_clock};
use crate::by_office::{Premises, run_with_office};
use crate::live_end::LiveEnd;
use crate::office::{live_turns, premises_of};
use crate::plan_file::PlanFile;
use bx_base::ChannelSet;
use bx_check_commands::{CommandFault, Inputs};
use bx_day_openings::{DayCommandFault, DayOpening, Hours, day_opening, hours_of, line_between};
use bx_devices::Watched;
use bx_journal::{Disk, Head, JournalDay};
use bx_journal_files::{Host, LiveFault, Resumed, resume_named, unlogged};
use bx_line_world::{UdpWire, Wire};
use bx_live::{CannotLog, Schedule, has_call};
use bx_office_door::{Lends, SharedDoor};
use bx_request::LiveRequest;
use std::fs::Files;
use std::io::Write;
use std::net::UdpSocket;
use std::rt::Clock;

/// What is told of a live day of this plan while it runs, its moment on a terminal alone.
fn told_of<'a>(request: LiveRequest<'a>, plan: PlanFile<'a>, is_terminal: bool) -> Told<'a> {
    Told {
        day: (request.hours.date, request.hours.zone),
        plan,
        is_shown: is_terminal && !request.is_quiet,
    }
}

/// Runs the rest of a day over a wire, on these channels, with an office beside it where one is opened.
fn run_rest<
    'a,
    'h,
    H: Clock + Files + Eprint + AllocGlobal,
    W: Wire + Drop,
    D: Disk + Drop,
    S: Lends + Drop,
>(
    rt: &'h H,
    resumed: Resumed<D>,
    wire: W,
    schedule: Schedule,
    channels: ChannelSet,
    turns: u32,
    told: Told<'a>,
    premises: Option<Premises<S>>,
) -> Result<LiveEnd, CannotLog>
    ensures failed { OnErr result (is_some resumed.log.disk ≡ true) }
    ensures stopped { OnErr result
        (StopsWith premises W.did S.lent D.holds D.may_leave D.moment D.left_since D.has_failed wire schedule resumed.log channels turns resumed.exchange) }
    ensures ran { IfOk result
        (λ end. RunsWith premises W.did S.lent D.holds D.may_leave D.moment D.left_since D.has_failed wire schedule resumed.log channels turns
        resumed.exchange end.exchange resumed.given_up.items end.given_up.items) }
{
    match premises {
        None => run_by_clock(rt, resumed, wire, schedule, channels, turns, told),
        Some(premises) => run_with_office(rt, resumed, wire, schedule, turns, told, premises),
    }
}

/// Runs an opened day over a socket, from where its journal has left it.
fn run_on_socket<'a, H: Host>(
    rt: &'a H,
    request: LiveRequest<'a>,
    hours: Hours,
    opening: DayOpening,
    socket: UdpSocket,
    premises: Option<Premises<SharedDoor>>,
    told: Told<'a>,
) -> Result<LiveEnd, LiveFault<'a>>
    ensures ran { IfOk result (IsLiveRun H H.File.contents request.entry hours opening premises) }
    ensures stopped { IfErr result (StopsRun H H.File request.entry hours opening premises) }
{
    let digest = opening.digest;
    let channels = opening.channels;
    let head = Head {
        plan: digest,
        day: JournalDay::Live {
            first: hours.first,
            pace: hours.pace,
        },
    };
    let resumed = resume_named(rt, request.journal, &head, opening, told.is_shown)?;
    let is_open = premises.is_some();
    let turns = live_turns(&resumed.exchange, &hours.day, request.turns, is_open);
    let wire = UdpWire::new(rt, socket);
    match run_rest(
        rt,
        resumed,
        wire,
        hours.schedule,
        channels,
        turns,
        told,
        premises,
    ) {
        Ok(end) => Ok(end),
        Err(_) => Err(unlogged(request.journal)),
    }
}

/// The exchange at the end of a live day, and how its bookings were given up.
fn run_live_day<'a, H: Host, I: Inputs>(
    rt: &'a H,
    inputs: &mut I,
    request: LiveRequest<'a>,
    is_terminal: bool,
) -> Result<LiveEnd, LiveFault<'a>>
    ensures ran { IfOk result (λ end. IsLiveDay H H.File.contents request.entry end.exchange end.given_up.items) }
    ensures stopped { IfErr result (StopsLive H H.File request.entry) }
{
    let hours = hours_of(request.hours)?;
    let told = told_of(request, PlanFile::seen(rt, request.plan), is_terminal);
    let opening = day_opening(rt.alloc(), inputs, request.plan)?;
    let socket = line_between(rt, request.line)?;
    let premises = premises_of(rt, request, opening.channels, hours)?;
    run_on_socket(rt, request, hours, opening, socket, premises, told)
}

/// Runs the exchange's end of the day of a plan by the clock, as the network's end of a data link over UDP, from where its journal has
/// left it, with a booking office beside it where one is asked for; tells each fault of the link and each late second on standard error,
/// and its moment on a terminal alone; and writes what became of each booking. What a capture and records are made of stands in the
/// journal.
///
/// What the day needs is opened in this order, and the first fault of it is answered: `Day` or `Capture` for the date and the zone;
/// `Command` for the plan; `CannotListen` or `CannotConnect` for the line, `CannotListen` for the office, all of these as
/// `LiveFault::Day`; for the journal `CannotRecord` where it cannot be opened, `NotAFile` where it is no plain file, `InUse` where another program writes it, `LiveFault::Day`, as `Amendment`, `Journal`
/// (`BadLine`, `OtherPlan`, `OtherDay` or `OtherRules`) or `Command` (`CannotRead`), where it is none of this day, and `CannotRecord` where
/// it cannot be made ready. `CannotRecord` is also answered where an event cannot be logged. At each of these nothing was written.
/// `LiveFault::Day`, as `Command` (`CannotWrite`), is the fault of the output, of which a prefix was written then. `StillUp` where the day
/// has no more seconds, and a call is up: all of it was written then.
pub fn live_on_files<'a, H: Host, I: Inputs, W: Write>(
    rt: &'a H,
    inputs: &mut I,
    request: LiveRequest<'a>,
    output: &mut Watched<W>,
    is_terminal: bool,
) -> Result<(), LiveFault<'a>>
    ensures done { OnOk result (IsLiveTold H H.File.contents request.entry (W.contents (device_of output.old)) (W.contents (device_of output.new))) }
    ensures refused { IfErr result (IsLiveRefusal H H.File.contents request.entry W.contents output.old output.new) }
{
    let end = run_live_day(rt, inputs, request, is_terminal)?;
    match end.exchange.write_outcomes(&end.given_up, output) {
        Ok(()) => {}
        Err(_) => return Err(LiveFault::Day(DayCommandFault::Command(CommandFault::CannotWrite))),
    }
    if has_call(&end.exchange) {
        return Err(LiveFault::StillUp);
    }
    Ok(())
}
