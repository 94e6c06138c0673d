//! The file of a capture.

ghost use Rattle.std.specs.Prelude.{◌≡◌, ◌≤◌, ◌⊎◌, true, false, None, IfOk, IfErr, OnOk};
ghost use Rattle.std.specs.Io.KnownBytes.{Appends};
ghost use Rattle.bx_capture.specs.Packets.{file_header};
ghost use Rattle.bx_capture.specs.declared.start.TheConstants.{LAST_START};
ghost use Rattle.bx_devices.specs.Watching.{device_of, is_faulted};
ghost use Rattle.bx_day_openings.specs.CaptureOpenings.{IsFirstOf, IsFileFor};
ghost use Rattle.bx_day_openings.specs.OpeningRefusals.{IsNoFirst, IsNoFile};

use crate::fault::DayCommandFault;
use bx_calendar::Day;
use bx_capture::{first_second, write_file_header};
use bx_check_commands::tell_cause;
use bx_devices::{Watched, WriteFailed};
use bx_request::CaptureWords;
use std::fs;
use std::fs::Files;
use std::io::Write;

/// The second that moment 0 has in a capture: that of the day's start where the words name a day, else 0. `Day` where the date and
/// the zone that they name are no day, `Capture` where a capture cannot name the seconds of that day.
pub fn first_of<'a>(capture: Option<CaptureWords<'a>>) -> Result<u32, DayCommandFault<'a>>
    ensures first { IfOk result (IsFirstOf capture.entry) }
    ensures limit { IfOk result (λ first. first ≤ LAST_START) }
    ensures refused { IfErr result (IsNoFirst capture.entry) }
{
    let Some(CaptureWords { file: _, day }) = capture else {
        return Ok(0);
    };
    let Some((date, zone)) = day else {
        return Ok(0);
    };
    let day = Day::new(date, zone)?;
    Ok(first_second(&day)?)
}

/// The file, with the header of a capture after what stands in it, written once.
fn headed<F: Write + Drop>(file: F) -> Result<Watched<F>, WriteFailed>
    ensures header { IfOk result (λ watched. Appends (F.contents file) (F.contents (device_of watched)) file_header) }
    ensures unfaulted { IfOk result (λ watched. is_faulted watched ≡ false) }
{
    let mut watched = Watched::new(file);
    write_file_header(&mut watched)?;
    Ok(watched)
}

/// The file of a capture, with its header, where one is to be kept. `CannotWriteFile` where it cannot be created, or a write of
/// the header failed.
pub fn file_of<'a, H: Files + Eprint>(
    rt: &H,
    capture: Option<CaptureWords<'a>>,
) -> Result<Option<Watched<H::File>>, DayCommandFault<'a>>
    ensures opened { IfOk result (IsFileFor H.File.contents capture.entry) }
    ensures refused { IfErr result (IsNoFile capture.entry) }
{
    let Some(CaptureWords { file: name, day: _ }) = capture else {
        return Ok(None);
    };
    let file = match fs::create(rt, name) {
        Ok(file) => file,
        Err(cause) => {
            tell_cause(rt, &name, &cause);
            return Err(DayCommandFault::CannotWriteFile(name));
        }
    };
    match headed(file) {
        Ok(file) => Ok(Some(file)),
        Err(_) => Err(DayCommandFault::CannotWriteFile(name)),
    }
}

/// What is told of a day that is done: nothing, or that its capture is not whole, as `CannotWriteFile`.
pub fn captured<'a>(
    capture: Option<CaptureWords<'a>>,
    is_whole: bool,
) -> Result<(), DayCommandFault<'a>>
    ensures whole { OnOk result ((is_whole ≡ true) ⊎ (capture.entry ≡ None)) }
    ensures cut { IfErr result (λ fault. IsNoFile capture.entry fault × (is_whole ≡ false)) }
{
    match capture {
        Some(capture) if !is_whole => Err(DayCommandFault::CannotWriteFile(capture.file)),
        _ => Ok(()),
    }
}
