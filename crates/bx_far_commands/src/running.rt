//! The day of a far end, run over a connection.

ghost use Rattle.std.specs.Prelude.{◌≡◌, ◌≤◌, IfOk, IfErr};
ghost use Rattle.bx_capture.specs.declared.start.TheConstants.{LAST_START};
ghost use Rattle.bx_far_commands.specs.FarRefusals.{IsUnjoined, IsSessionFault};
ghost use Rattle.bx_day_openings.specs.Openings.{IsFarOpening};
ghost use Rattle.bx_far_commands.specs.Kept.{IsFarKept, IsFarKeptSoFar};

use bx_capture::Captured;
use bx_day_openings::{DayCommandFault, Shown, System, connected, connected_at};
use bx_devices::Watched;
use bx_far::Far;
use bx_frames::End;
use bx_link::run_far_day;
use bx_request::Place;
use std::io::{Read, Write};
use std::rt::Clock;

/// The end after its day, and the file of its capture.
fn parted<E, H, W: Write>(end: Captured<Shown<'_, E, H>, W>) -> (E, Option<Watched<W>>)
    ensures end { result.0 ≡ end.entry.end.end }
    ensures file { result.1 ≡ end.entry.file }
{
    let Captured {
        end,
        file,
        first: _,
    } = end;
    (end.into_end(), file)
}

/// The moment at which the day of a far end ended, which was run over a connection to an exchange. What is to be captured of it goes
/// into the file; moment 0 is the first second.
fn run_with_exchange<'a, H: Clock + Eprint, R: Read + Drop, S: Write + Drop, W: Write + Drop>(
    rt: &H,
    from_exchange: R,
    to_exchange: S,
    far: Far,
    file: &mut Option<Watched<W>>,
    first: u32,
    is_shown: bool,
) -> Result<u32, DayCommandFault<'a>>
    requires { first ≤ LAST_START }
    ensures ran { IfOk result (λ moment. IsFarOpening far → IsFarKept W.contents file.old file.new first moment) }
    ensures stopped { IfErr result (λ fault. IsSessionFault fault × IsFarKeptSoFar W.contents file.old file.new first far) }
{
    let mut from_exchange = Watched::new(from_exchange);
    let mut to_exchange = Watched::new(to_exchange);
    let mut end = Captured::new(Shown::new(rt, far, is_shown), file.take(), first);
    let done = run_far_day(&mut end, &mut from_exchange, &mut to_exchange);
    end.end.clear();
    let (far, kept) = parted(end);
    *file = kept;
    match done {
        Ok(()) => Ok(far.reached()),
        Err(fault) => Err(DayCommandFault::Link(fault)),
    }
}

/// The moment at which the day of a far end ended, which was run towards the exchange that serves at the place. What is to be
/// captured of it goes into the file; moment 0 is the first second.
pub(crate) fn run_connected<'a, H: System, W: Write + Drop>(
    rt: &H,
    place: Place<'a>,
    far: Far,
    file: &mut Option<Watched<W>>,
    first: u32,
    is_shown: bool,
) -> Result<u32, DayCommandFault<'a>>
    requires { first ≤ LAST_START }
    ensures ran { IfOk result (λ moment. IsFarOpening far → IsFarKept W.contents file.old file.new first moment) }
    ensures stopped { IfErr result (IsUnjoined (IsFarKeptSoFar W.contents file.old file.new first far)) }
{
    match place {
        Place::Port(port) => {
            let peer = connected(rt, port)?;
            run_with_exchange(rt, &peer, &peer, far, file, first, is_shown)
        }
        Place::Socket(path) => {
            let peer = connected_at(rt, path)?;
            run_with_exchange(rt, &peer, &peer, far, file, first, is_shown)
        }
    }
}
