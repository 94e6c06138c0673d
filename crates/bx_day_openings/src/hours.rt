//! When a day is that goes by the clock.

ghost use Rattle.std.specs.Prelude.{◌≡◌, ◌≤◌, pos, IfOk, IfErr};
ghost use Rattle.bx_capture.specs.declared.start.TheConstants.{LAST_START};
ghost use Rattle.bx_day_openings.specs.Hours.{AreHours, IsNoHours};
ghost use Rattle.bx_day_openings.specs.HoursInside.{IsBegunAt, IsUnnamed};

use crate::fault::DayCommandFault;
use bx_calendar::Day;
use bx_capture::first_second;
use bx_live::Schedule;
use bx_request::DayHours;

/// When the seconds of a day begin by the clock.
#[derive(Clone, Copy)]
pub struct Hours {
    pub schedule: Schedule,
    /// The second of the clock at which moment 0 is, counted from 1970-01-01T00:00:00Z.
    pub first: u32,
    /// How many seconds of the day go by in one of the clock.
    pub pace: u32,
    /// The day itself.
    pub day: Day,
}

/// The second of the clock at which a day begins.
fn beginning_of<'a>(day: &Day) -> Result<u32, DayCommandFault<'a>>
    ensures first { IfOk result (λ first. IsBegunAt day.now first) }
    ensures limit { IfOk result (λ first. first ≤ LAST_START) }
    ensures refused { IfErr result (IsUnnamed day.now) }
{
    Ok(first_second(day)?)
}

/// When the seconds of the day of these words begin; a pace of 0 is 1. `Day` where the date and the zone are no day, `Capture` where it
/// begins before 1970-01-01T00:00:00Z, or so late that 32 bits do not number its seconds.
pub fn hours_of<'a>(hours: DayHours<'a>) -> Result<Hours, DayCommandFault<'a>>
    ensures hours { IfOk result (AreHours hours.entry) }
    ensures limit { IfOk result (λ hours. hours.first ≤ LAST_START) }
    ensures refused { IfErr result (IsNoHours hours.entry) }
{
    let day = Day::new(hours.date, hours.zone)?;
    let first = beginning_of(&day)?;
    let pace = hours.pace.max(1);
    Ok(Hours {
        schedule: Schedule::new(u64::from(first), pace),
        first,
        pace,
        day,
    })
}
