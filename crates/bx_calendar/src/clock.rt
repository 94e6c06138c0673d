//! A day with the clock of its zone.

ghost use Rattle.std.specs.Prelude.{◌≡◌, ◌<◌, ◌+ℤ◌, ◌*ℤ◌, ◌↔◌, pos, IfOk, IfSome, IfNone, Err};
ghost use Rattle.jiff.specs.Words.{IsTimestampNanos};
ghost use Rattle.bx_calendar.specs.Clocks.{whole_minutes};

use crate::day::{Day, DayFault};
use arrayvec::ArrayString;
use jiff::Timestamp;
use jiff::tz::{Offset, TimeZone};

/// A day, and the clock of the zone in which it lies.
#[derive(Clone, Copy)]
pub struct Clock {
    day: Day,
    zone: TimeZone<'static>,
}

impl Clock {
    ghost use Rattle.bx_calendar.specs.Clocks.{IsClock, IsLocalTime, Shows, clock_day, clock_start, clock_zone, second_shown_by, shown_by};
    ghost use Rattle.bx_calendar.specs.Dates.{IsDateText, day_number};
    ghost use Rattle.bx_calendar.specs.Days.{IsOut, IsOdd, InZone, IsNoZone};

    /// The clock of a date under a POSIX zone rule (IEEE Std 1003.1, `TZ`), with the faults of `Day::new`: `BadDate`, `BadZone`,
    /// `OutOfRange` and `OddDay`.
    pub fn new(date: &str, zone: &str) -> Result<Clock, DayFault>
        ensures clock { IfOk result (IsClock date.now zone.now) }
        ensures bad_date { (result ≡ Err DayFault.BadDate) ↔ ¬ IsDateText date.now }
        ensures bad_zone { result ≡ Err DayFault.BadZone → IsDateText date.now × IsNoZone zone.now }
        ensures out { result ≡ Err DayFault.OutOfRange → IsDateText date.now × InZone zone.now (λ z. IsOut z (day_number date.now)) }
        ensures odd { result ≡ Err DayFault.OddDay → IsDateText date.now × InZone zone.now (λ z. IsOdd z (day_number date.now)) }
    {
        let day = Day::new(date, zone)?;
        match TimeZone::posix(zone) {
            Ok(zone) => Ok(Clock { day, zone }),
            Err(_) => Err(DayFault::BadZone),
        }
    }

    /// The day.
    pub fn day(&self) -> &Day
        ensures { result.now ≡ clock_day self.now }
    {
        &self.day
    }

    /// The hour and the minute that the clock shows so many seconds after the day's start; none where that is outside
    /// the range of `jiff`.
    pub fn shown(&self, moment: u32) -> Option<(u8, u8)>
        ensures some { IfSome result (λ shown. Shows (clock_zone self.now) (clock_start self.now +ℤ pos moment) shown.0 shown.1) }
        ensures none { IfNone result (¬ IsTimestampNanos ((clock_start self.now +ℤ pos moment) *ℤ pos 1_000_000_000)) }
        ensures value { result ≡ shown_by self.now moment }
    {
        let shown = self.zone.to_datetime(self.instant(moment)?);
        Some((shown.hour().unsigned_abs(), shown.minute().unsigned_abs()))
    }

    /// How many seconds from midnight on the clock shows so many seconds after the day's start, below 86,400; none where that
    /// is outside the range of `jiff`.
    pub fn second_shown(&self, moment: u32) -> Option<u32>
        ensures value { result ≡ second_shown_by self.now moment }
        ensures limit { IfSome result (λ second. second < 86400) }
    {
        let shown = self.zone.to_datetime(self.instant(moment)?);
        let minutes = u32::from(shown.hour().unsigned_abs()) * 60
            + u32::from(shown.minute().unsigned_abs());
        Some(minutes * 60 + u32::from(shown.second().unsigned_abs()))
    }

    /// What the clock shows so many seconds after the day's start, as `2026-03-30T12:00:00+02:00`; none where that is outside
    /// the range of `jiff`.
    pub fn local_time(&self, moment: u32) -> Option<ArrayString<38>>
        ensures some { IfSome result (λ text. IsLocalTime self.now moment text.bytes) }
        ensures none { IfNone result (¬ IsTimestampNanos ((clock_start self.now +ℤ pos moment) *ℤ pos 1_000_000_000)) }
    {
        let at = self.instant(moment)?;
        Some(at.display_with_offset(in_minutes(self.zone.to_offset(at))))
    }

    /// The instant so many seconds after the day's start.
    fn instant(&self, moment: u32) -> Option<Timestamp>
        ensures some { IfSome result (λ at. at.nanosecond ≡ (clock_start self.now +ℤ pos moment) *ℤ pos 1_000_000_000) }
        ensures none { IfNone result (¬ IsTimestampNanos ((clock_start self.now +ℤ pos moment) *ℤ pos 1_000_000_000)) }
    {
        let second = self.day.start() + i64::from(moment);
        Timestamp::from_second(second).ok()
    }
}

/// The offset without the seconds that a text of a time has no place for (RFC 3339).
fn in_minutes(offset: Offset) -> Offset
    ensures { result.seconds ≡ whole_minutes offset.seconds }
{
    let seconds = offset.seconds();
    match Offset::from_seconds(seconds - seconds % 60) {
        Ok(whole) => whole,
        Err(_) => unreachable!(),
    }
}
