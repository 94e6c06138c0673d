//! A day, from one local midnight to the next.

ghost use Rattle.std.specs.Prelude.{◌≡◌, ◌≢◌, ◌*◌, ◌<◌, ◌≤◌, ◌+ℤ◌, ◌-ℤ◌, ◌<ℤ◌, ◌≤ℤ◌, ◌⊎◌, ◌↔◌, ℕ, ℤ, pos, neg_ℤ, IfOk, IfSome, IfNone, Err};
ghost use Rattle.jiff.specs.Words.{epoch_day, IsTimestampNanos, plain_zone};
ghost use Rattle.bx_calendar.specs.Dates.{IsDateText, day_number};
ghost use Rattle.bx_calendar.specs.Days.{IsMidnight, NoMidnight, IsDay, IsOut, IsOdd, InZone, IsNoZone, seconds_of};
ghost use Rattle.bx_base.specs.declared.booking.TheConstants.{MAX_MOMENT};

use crate::place::first_date;
use jiff::civil::Date;
use jiff::tz::TimeZone;
use thiserror::Error;

/// The longest day, in seconds.
pub const MAX_DAY: i64 = 200_000;

/// Why there is no such day.
#[derive(Clone, Copy, Debug, PartialEq, Eq, Error)]
pub enum DayFault {
    /// The text is not a date of the calendar, as `YYYY-MM-DD` in ASCII digits.
    #[error("A1 BadDate")]
    BadDate,
    /// The zone is not a POSIX rule that `jiff` reads.
    #[error("A2 BadZone")]
    BadZone,
    /// The next date or one of the two midnights is outside the range of `jiff`.
    #[error("A3 OutOfRange")]
    OutOfRange,
    /// The day is shorter than one second, or longer than 200,000.
    #[error("A4 OddDay")]
    OddDay,
}

/// A day: the second at which it begins, and how many seconds it lasts.
#[derive(Clone, Copy, Debug, PartialEq, Eq)]
pub struct Day {
    start: i64,
    length: u32,
    ghost limits: { (1 ≤ length) × (length ≤ MAX_MOMENT) × (neg_ℤ (pos 400_000_000_000) ≤ℤ start) × (start ≤ℤ pos 400_000_000_000) },
}

/// The second at which the date begins on the zone's clock.
fn midnight(date: Date, zone: TimeZone<'static>) -> Option<i64>
    ensures some { IfSome result (λ s. (n : ℤ) × IsMidnight (plain_zone zone.entry) (epoch_day date) n × IsTimestampNanos n × (s ≡ seconds_of n)) }
    ensures range { IfSome result (λ s. (neg_ℤ (pos 400_000_000_000) ≤ℤ s) × (s ≤ℤ pos 400_000_000_000)) }
    ensures none { IfNone result (NoMidnight (plain_zone zone.entry) (epoch_day date)) }
{
    match date.to_zoned(zone) {
        Ok(zoned) => Some(zoned.timestamp().as_second()),
        Err(_) => None,
    }
}

/// The seconds between, if a day may be that long.
fn length_between(start: i64, end: i64) -> Option<u32>
    requires { (neg_ℤ (pos 400_000_000_000) ≤ℤ start) × (start ≤ℤ pos 400_000_000_000) × (neg_ℤ (pos 400_000_000_000) ≤ℤ end) × (end ≤ℤ pos 400_000_000_000) }
    ensures some { IfSome result (λ n. (pos n ≡ (end -ℤ start)) × (1 ≤ n) × (n ≤ 200_000)) }
    ensures none { IfNone result (((end -ℤ start) <ℤ pos 1) ⊎ (pos 200_000 <ℤ (end -ℤ start))) }
{
    let length = end - start;
    if length < 1 {
        return None;
    }
    if length > MAX_DAY {
        return None;
    }
    Some(length as u32)
}

impl Day {
    ghost use Rattle.bx_calendar.specs.DayParts.{start_of, length_of};

    /// The day of this date in this zone.
    fn in_zone(date: Date, zone: TimeZone<'static>) -> Result<Day, DayFault>
        ensures day { IfOk result (λ d. IsDay (plain_zone zone.entry) (epoch_day date) (start_of d) (pos (length_of d))) }
        ensures out { result ≡ Err DayFault.OutOfRange → IsOut (plain_zone zone.entry) (epoch_day date) }
        ensures zone_read { (result ≢ Err DayFault.BadZone) × (result ≢ Err DayFault.BadDate) }
        ensures odd { result ≡ Err DayFault.OddDay → IsOdd (plain_zone zone.entry) (epoch_day date) }
    {
        let Ok(next) = date.tomorrow() else {
            return Err(DayFault::OutOfRange);
        };
        let Some(start) = midnight(date, zone) else {
            return Err(DayFault::OutOfRange);
        };
        let Some(end) = midnight(next, zone) else {
            return Err(DayFault::OutOfRange);
        };
        match length_between(start, end) {
            Some(length) => Ok(Day { start, length }),
            None => Err(DayFault::OddDay),
        }
    }

    /// The day of a date `YYYY-MM-DD` under a POSIX zone rule (IEEE Std 1003.1, `TZ`), as `jiff` converts its
    /// midnight and the next. The faults of `DayFault` are tested in the order in which they are named there.
    pub fn new(date: &str, zone: &str) -> Result<Day, DayFault>
        ensures day { IfOk result (λ d. IsDateText date.now × InZone zone.now (λ z. IsDay z (day_number date.now) (start_of d) (pos (length_of d)))) }
        ensures bad_date { (result ≡ Err DayFault.BadDate) ↔ ¬ IsDateText date.now }
        ensures bad_zone { result ≡ Err DayFault.BadZone → IsDateText date.now × IsNoZone zone.now }
        ensures out { result ≡ Err DayFault.OutOfRange → IsDateText date.now × InZone zone.now (λ z. IsOut z (day_number date.now)) }
        ensures odd { result ≡ Err DayFault.OddDay → IsDateText date.now × InZone zone.now (λ z. IsOdd z (day_number date.now)) }
    {
        if date.len() != 10 {
            return Err(DayFault::BadDate);
        }
        let Some(date) = first_date(date.as_bytes()) else {
            return Err(DayFault::BadDate);
        };
        let Ok(zone) = TimeZone::posix(zone) else {
            return Err(DayFault::BadZone);
        };
        Day::in_zone(date, zone)
    }

    /// How many seconds it lasts: 1 to 200,000.
    pub fn length(&self) -> u32
        ensures value { result ≡ length_of self.now }
        ensures limits { (1 ≤ result) × (result ≤ MAX_MOMENT) }
    {
        self.length
    }

    /// The second at which it begins, counted from 1970-01-01T00:00:00Z.
    pub fn start(&self) -> i64
        ensures value { result ≡ start_of self.now }
        ensures limits { (neg_ℤ (pos 400_000_000_000) ≤ℤ result) × (result ≤ℤ pos 400_000_000_000) }
    {
        self.start
    }
}
