//! The far end of a day over a data link, by the files that it is asked for.

ghost use Rattle.std.specs.Prelude.{◌≡◌, ◌&&◌, not, true, IfOk, IfErr, OnOk};
ghost use Rattle.bx_devices.specs.Watching.{device_of};
ghost use Rattle.bx_far_commands.specs.LineDays.{IsFarLineDay, IsFarLineDone, capture_of, asked_turns};
ghost use Rattle.bx_far_commands.specs.LineRefusals.{StopsFarLine, IsFarLineNotDone, IsFarLineRefusal};

use crate::by_line::{LineView, run_over_wire};
use crate::far_files::write_ended;
use bx_calendar::Clock as DayClock;
use bx_check_commands::Inputs;
use bx_day_openings::{DayCommandFault, captured, far_end_of, file_of, hours_of, line_between};
use bx_devices::Watched;
use bx_line_world::UdpWire;
use bx_request::{CaptureWords, FarLineRequest};
use std::fs::Files;
use std::io::Write;
use std::net::Net;
use std::rt::Clock;

/// How many turns a day has where none are asked for: the longest day of a calendar has 25 hours, and a call can outlive its booking by
/// 38 seconds.
pub(crate) const WHOLE_DAY: u32 = 90_038;

/// How many turns the day is to have.
fn turns_asked(turns: Option<u32>) -> u32
    ensures { result ≡ asked_turns turns }
{
    turns.unwrap_or(WHOLE_DAY)
}

/// The file of the capture, with the day of the hours.
fn capture_asked<'a>(request: FarLineRequest<'a>) -> Option<CaptureWords<'a>>
    ensures { result ≡ capture_of request.entry }
{
    match request.capture {
        Some(file) => Some(CaptureWords {
            file,
            day: Some((request.hours.date, request.hours.zone)),
        }),
        None => None,
    }
}

/// The moment at which the day of a script ended, and whether all that was to be captured was.
fn run_script_by_line<'a, H: Files + AllocGlobal + Clock + Eprint + Net, I: Inputs>(
    rt: &H,
    inputs: &mut I,
    request: FarLineRequest<'a>,
    is_shown: bool,
) -> Result<(u32, bool), DayCommandFault<'a>>
    ensures ran { IfOk result (λ ran. IsFarLineDay H H.File.contents request.entry ran.0 ran.1) }
    ensures stopped { IfErr result (StopsFarLine H.File.contents request.entry) }
{
    let hours = hours_of(request.hours)?;
    let far = far_end_of(rt.alloc(), inputs, request.script)?;
    let file = file_of(rt, capture_asked(request))?;
    let socket = line_between(rt, request.line)?;
    let view = LineView {
        file,
        first: hours.first,
        clock: DayClock::new(request.hours.date, request.hours.zone).ok(),
        is_shown,
    };
    let wire = UdpWire::new(rt, socket);
    Ok(run_over_wire(
        rt,
        far,
        wire,
        hours.schedule,
        turns_asked(request.turns),
        view,
    ))
}

/// Runs the far end of a day by a script, and writes the moment at which the day ended. Answers whether all that was to be captured
/// was.
fn far_line_files<'a, H: Files + AllocGlobal + Clock + Eprint + Net, I: Inputs, W: Write>(
    rt: &H,
    inputs: &mut I,
    request: FarLineRequest<'a>,
    output: &mut Watched<W>,
    is_shown: bool,
) -> Result<bool, DayCommandFault<'a>>
    ensures told { IfOk result (IsFarLineDone H H.File.contents request.entry (W.contents (device_of output.old)) (W.contents (device_of output.new))) }
    ensures refused { IfErr result (IsFarLineNotDone H H.File.contents request.entry W.contents output.old output.new) }
{
    let (moment, is_whole) = run_script_by_line(rt, inputs, request, is_shown)?;
    write_ended(output, moment)?;
    Ok(is_whole)
}

/// Whether the moment is shown: on a terminal alone, and where it is wanted.
fn is_shown_by(request: FarLineRequest<'_>, is_terminal: bool) -> bool
    ensures { result ≡ (is_terminal && not request.entry.is_quiet) }
{
    is_terminal && !request.is_quiet
}

/// Runs the far end of a day by the script that is asked for, by the clock, as the user's end of a data link over UDP, up to the turn
/// that is asked for, or else to turn 90,038, but to 300,000 at the most, whatever the line does; and writes the moment at which the day
/// ended. Each fault of the link and each late second is told on standard error, and the moment on a terminal alone. A capture that was
/// not written whole is a refusal, after all that was told; at any other refusal nothing was written, except that where the output
/// failed a prefix of that line was.
///
/// What the day needs is opened in this order, and the first fault of it is answered: `Day` or `Capture` for the date and the zone;
/// `Command` or `Script` for the script; `CannotWriteFile` for the file of the capture; `CannotListen` or `CannotConnect` for the line.
/// `Command`, as `CannotWrite`, is the fault of the output; and `CannotWriteFile` that of a capture that was not written whole.
pub fn far_by_line<'a, H: Files + AllocGlobal + Clock + Eprint + Net, I: Inputs, W: Write>(
    rt: &H,
    inputs: &mut I,
    request: FarLineRequest<'a>,
    output: &mut Watched<W>,
    is_terminal: bool,
) -> Result<(), DayCommandFault<'a>>
    ensures done { OnOk result (IsFarLineDone H H.File.contents request.entry (W.contents (device_of output.old)) (W.contents (device_of output.new)) true) }
    ensures refused { IfErr result (IsFarLineRefusal H H.File.contents request.entry W.contents output.old output.new) }
{
    let is_shown = is_shown_by(request, is_terminal);
    let is_whole = far_line_files(rt, inputs, request, output, is_shown)?;
    captured(capture_asked(request), is_whole)
}
