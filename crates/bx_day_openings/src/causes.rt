//! Why a connection was not had.

ghost use Rattle.bx_day_openings.specs.OpeningRefusals.{IsUnheard, IsUnconnected};

use crate::fault::DayCommandFault;
use bx_check_commands::tell_cause;
use std::fmt::Display;
use std::io;

/// `CannotListen`, its cause told.
pub fn unheard<'a, H: Eprint, P: Display>(
    rt: &H,
    place: &P,
    cause: &io::Error,
) -> DayCommandFault<'a>
    ensures { IsUnheard result }
{
    tell_cause(rt, place, cause);
    DayCommandFault::CannotListen
}

/// `CannotConnect`, its cause told.
pub(crate) fn unconnected<'a, H: Eprint, P: Display>(
    rt: &H,
    place: &P,
    cause: &io::Error,
) -> DayCommandFault<'a>
    ensures { IsUnconnected result }
{
    tell_cause(rt, place, cause);
    DayCommandFault::CannotConnect
}
