//! The far end of a day, by the files that it is asked for.

ghost use Rattle.std.specs.Prelude.{◌≡◌, ◌&&◌, not, true, IfOk, IfErr, OnOk, OnErr};
ghost use Rattle.std.specs.Io.KnownBytes.{Appends};
ghost use Rattle.bx_devices.specs.Octets.{AppendsPrefix};
ghost use Rattle.bx_devices.specs.Watching.{device_of, is_faulted};
ghost use Rattle.bx_far_commands.specs.CapturedDays.{IsFarDone, IsFarDoneWhole};
ghost use Rattle.bx_far_commands.specs.Days.{ended_line};
ghost use Rattle.bx_far_commands.specs.FarRefusals.{StopsFarEnd, IsFarNotDone, IsFarRefusal};
ghost use Rattle.bx_far_commands.specs.Kept.{IsFarCaptured};
ghost use Rattle.bx_devices.specs.Devices.{writing_of};

use crate::running::run_connected;
use bx_capture::is_whole;
use bx_check_commands::Inputs;
use bx_day_openings::{DayCommandFault, System, captured, far_end_of, file_of, first_of};
use bx_devices::{Watched, WriteFailed, write_octets};
use bx_request::{FarRequest, Sight};
use bx_text::named_line;
use std::io::Write;

/// Writes `ended at `, the moment and LF. `WriteFailed` where a write failed, or took nothing: then the output is faulted, and a
/// prefix of the line was written.
pub fn write_ended<W: Write>(output: &mut Watched<W>, moment: u32) -> Result<(), WriteFailed>
    ensures told { OnOk result (Appends (W.contents (device_of output.old)) (W.contents (device_of output.new)) (ended_line moment)) }
    ensures cut { OnErr result (AppendsPrefix (W.contents (device_of output.old)) (W.contents (device_of output.new)) (ended_line moment)) }
    ensures refused { OnErr result (is_faulted output.new ≡ true) }
{
    write_octets(output, &named_line(b"ended at", u64::from(moment)))
}

/// The moment at which the day of a script ended, and whether all that was to be captured was.
fn run_script<'a, H: System, I: Inputs>(
    rt: &H,
    inputs: &mut I,
    request: FarRequest<'a>,
    is_shown: bool,
) -> Result<(u32, bool), DayCommandFault<'a>>
    ensures ran { IfOk result (λ ran. IsFarCaptured H.File.contents request.entry.sight.capture ran.0 ran.1) }
    ensures stopped { IfErr result (StopsFarEnd H.File.contents request.entry) }
{
    let FarRequest {
        script,
        place,
        sight,
    } = request;
    let first = first_of(sight.capture)?;
    let far = far_end_of(rt.alloc(), inputs, script)?;
    let mut file = file_of(rt, sight.capture)?;
    let moment = run_connected(rt, place, far, &mut file, first, is_shown)?;
    Ok((moment, is_whole(&file)))
}

/// Runs the far end of a day by a script, and writes the moment at which the day ended. Answers whether all that was to be captured
/// was.
fn far_files<'a, H: System, I: Inputs, W: Write>(
    rt: &H,
    inputs: &mut I,
    request: FarRequest<'a>,
    output: &mut Watched<W>,
    is_shown: bool,
) -> Result<bool, DayCommandFault<'a>>
    ensures told { IfOk result (IsFarDone H.File.contents request.entry.sight.capture (W.contents (device_of output.old)) (W.contents (device_of output.new))) }
    ensures refused { IfErr result (IsFarNotDone H.File.contents request.entry W.contents output.old output.new) }
{
    let (moment, is_whole) = run_script(rt, inputs, request, is_shown)?;
    write_ended(output, moment)?;
    Ok(is_whole)
}

/// Whether the moment is shown: on a terminal alone, and where it is wanted.
fn is_shown(sight: Sight<'_>, is_terminal: bool) -> bool
    ensures { result ≡ (is_terminal && not sight.entry.is_quiet) }
{
    is_terminal && !sight.is_quiet
}

/// Runs the far end of a day by the script that is asked for, towards the exchange that serves at the port or the socket, and writes
/// the moment at which the day ended. The moment is shown while the day runs, on a terminal alone. A capture that was not written whole
/// is a refusal, after all that was told; at any other refusal nothing was written, except that where the output failed a prefix of
/// that line was.
///
/// What the day needs is opened in this order, and the first fault of it is answered: `Day` or `Capture` for the date and the
/// zone of the capture; `Command` or `Script` for the script; `CannotWriteFile` for the file of the capture; `CannotConnect` for the
/// connection. `Link` is the fault of a session that ended before its day; `Command`, as `CannotWrite`, that of the output; and
/// `CannotWriteFile` that of a capture that was not written whole.
pub fn far_on_files<'a, H: System, I: Inputs, W: Write>(
    rt: &H,
    inputs: &mut I,
    request: FarRequest<'a>,
    output: &mut Watched<W>,
    is_terminal: bool,
) -> Result<(), DayCommandFault<'a>>
    ensures done { OnOk result (IsFarDoneWhole H.File.contents request.entry.sight.capture (writing_of W.contents output.old output.new)) }
    ensures refused { IfErr result (IsFarRefusal H.File.contents request.entry W.contents output.old output.new) }
{
    let is_shown = is_shown(request.sight, is_terminal);
    let is_whole = far_files(rt, inputs, request, output, is_shown)?;
    captured(request.sight.capture, is_whole)
}
