//! The second at which a captured day begins.

ghost use Rattle.std.specs.Prelude.{◌≡◌, ◌≤◌, pos, IfOk, IsErr};
ghost use Rattle.bx_calendar.specs.DayParts.{start_of};
ghost use Rattle.bx_capture.specs.Starts.{IsNameable};
ghost use Rattle.bx_capture.specs.declared.start.TheConstants.{LAST_START};

use crate::fault::BeyondCapture;
use bx_calendar::Day;

/// The last second from which a packet can name each of the 300,000 seconds after it.
pub const LAST_START: u32 = 4_294_667_295;

/// The second at which the day begins, counted from 1970-01-01T00:00:00Z, where packets can name each second from it to
/// 300,000 after it; else `BeyondCapture`.
pub fn first_second(day: &Day) -> Result<u32, BeyondCapture>
    ensures first { IfOk result (λ s. (pos s ≡ start_of day.now) × (s ≤ LAST_START)) }
    ensures refused { IsErr result → ¬ IsNameable (start_of day.now) }
{
    let start = day.start();
    if start < 0 || start > i64::from(LAST_START) {
        return Err(BeyondCapture);
    }
    Ok(start as u32)
}
