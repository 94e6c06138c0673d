//! Times, as RFC 3339 writes them.

ghost use Rattle.std.specs.Prelude.{◌≡◌, ◌+◌, ◌<◌, ◌≤◌, ◌||◌, ◌+ℤ◌, ◌-ℤ◌, ◌*ℤ◌, ◌≤ℤ◌, if◌then◌else◌, MatchOption, IfSome, position, true, false, length, pos, neg_ℤ};
ghost use Rattle.jiff.specs.Words.{epoch_day};
ghost use Rattle.bx_calendar.specs.Times.{HasClock, clock_seconds, is_no_digit, digits_in, fraction_size, is_whole, offset_size, is_utc, is_signed, IsTime, IsTail, IsInstant};
ghost use Rattle.bx_calendar.specs.Inside.{IsOffset, IsOffsetAfter};

use crate::place::{after, first_date, octet_at, two_digits_below};
use jiff::civil::{Date, date};

/// The instant that a text names: the second in which it lies, counted from 1970-01-01T00:00:00Z, and whether it
/// is just that second.
#[derive(Clone, Copy)]
pub struct Instant {
    pub second: i64,
    pub is_whole: bool,
}

/// The second at which a date begins in UTC.
fn first_second(day: Date) -> i64
    ensures value { result ≡ epoch_day day *ℤ pos 86_400 }
    ensures range { (neg_ℤ (pos 400_000_000_000) ≤ℤ result) × (result ≤ℤ pos 400_000_000_000) }
{
    day.duration_since(date(1970, 1, 1)).as_secs()
}

/// The seconds that the clock `Thh:mm:ss` after a date shows.
fn clock(octets: &[u8]) -> Option<u32>
    ensures { MatchOption result (¬ HasClock octets.now) (λ n. HasClock octets.now × (n ≡ clock_seconds octets.now) × (n < 86400)) }
{
    if octet_at(octets, 10) != b'T'
        || octet_at(octets, 13) != b':'
        || octet_at(octets, 16) != b':'
    {
        return None;
    }
    let hours = two_digits_below(octets, 11, 24)?;
    let minutes = two_digits_below(octets, 14, 60)?;
    let seconds = two_digits_below(octets, 17, 60)?;
    Some(u32::from(hours) * 3600 + u32::from(minutes) * 60 + u32::from(seconds))
}

/// The place of the first octet that is no digit.
fn digits_end(octets: &[u8]) -> Option<usize>
    ensures value { result ≡ position is_no_digit octets.now }
    ensures within { IfSome result (λ k. k < length octets.now) }
{
    octets.iter().position(|octet| !octet.is_ascii_digit())
}

/// How many digits a text begins with.
fn digits_in(octets: &[u8]) -> usize
    ensures value { result ≡ digits_in octets.now }
    ensures within { result ≤ length octets.now }
{
    digits_end(octets).unwrap_or(octets.len())
}

/// How many octets a dot and the digits after it take: none where there is no dot.
fn fraction_size(rest: &[u8]) -> usize
    ensures value { result ≡ fraction_size rest.now }
    ensures within { result ≤ length rest.now }
{
    if octet_at(rest, 0) != b'.' {
        return 0;
    }
    1 + digits_in(&rest[1..])
}

/// Whether every digit of the fraction is 0.
fn is_whole(rest: &[u8]) -> bool
    ensures { result ≡ is_whole rest.now }
{
    let size = fraction_size(rest);
    size == 0 || rest[1..size].iter().all(|octet| *octet == b'0')
}

/// The number with a minus sign where it is asked for.
fn signed(size: u32, is_below: bool) -> i64
    requires { size < 90000 }
    ensures value { result ≡ (if is_below then neg_ℤ (pos size) else pos size) }
    ensures range { (neg_ℤ (pos 90_000) ≤ℤ result) × (result ≤ℤ pos 90_000) }
{
    if is_below {
        -i64::from(size)
    } else {
        i64::from(size)
    }
}

/// The seconds of a sign and `hh:mm`, without the sign.
fn signed_size(zone: &[u8]) -> Option<u32>
    ensures { MatchOption result (is_signed zone.now ≡ false) (λ n. (is_signed zone.now ≡ true) × (n ≡ offset_size zone.now) × (n < 90_000)) }
{
    let sign = octet_at(zone, 0);
    if zone.len() != 6 || (sign != b'+' && sign != b'-') || octet_at(zone, 3) != b':' {
        return None;
    }
    let hours = two_digits_below(zone, 1, 24)?;
    let minutes = two_digits_below(zone, 4, 60)?;
    Some(u32::from(hours) * 3600 + u32::from(minutes) * 60)
}

/// The seconds by which a clock is ahead of UTC: `Z`, or a sign and `hh:mm`.
fn offset(zone: &[u8]) -> Option<i64>
    ensures { MatchOption result ((is_utc zone.now || is_signed zone.now) ≡ false) (IsOffset zone.now) }
{
    if zone.len() == 1 && octet_at(zone, 0) == b'Z' {
        return Some(0);
    }
    let size = signed_size(zone)?;
    Some(signed(size, octet_at(zone, 0) == b'-'))
}

/// The second at which a clock that is ahead of UTC by an offset shows this time of a date.
fn second_of(day: i64, clock: u32, offset: i64) -> i64
    requires day { (neg_ℤ (pos 400_000_000_000) ≤ℤ day) × (day ≤ℤ pos 400_000_000_000) }
    requires clock { clock < 86400 }
    requires offset { (neg_ℤ (pos 90_000) ≤ℤ offset) × (offset ≤ℤ pos 90_000) }
    ensures value { result ≡ day +ℤ pos clock -ℤ offset }
    ensures range { (neg_ℤ (pos 500_000_000_000) ≤ℤ result) × (result ≤ℤ pos 500_000_000_000) }
{
    day + i64::from(clock) - offset
}

/// The seconds by which the clock is ahead of UTC, where what stands after its seconds is nothing or a fraction,
/// and then `Z` or an offset.
fn offset_after(rest: &[u8]) -> Option<i64>
    ensures { MatchOption result (¬ IsTail rest.now) (IsOffsetAfter rest.now) }
{
    let size = fraction_size(rest);
    if size == 1 || size > 10 {
        return None;
    }
    offset(after(rest, size))
}

/// The instant of a time: `YYYY-MM-DDThh:mm:ss`, then nothing or a dot and 1 to 9 digits, then `Z` or a sign and
/// `hh:mm`.
pub fn instant_at(octets: &[u8]) -> Option<Instant>
    ensures { MatchOption result (¬ IsTime octets.now) (λ t. IsInstant octets.now t.second t.is_whole) }
{
    if octets.len() < 19 {
        return None;
    }
    let day = first_second(first_date(octets)?);
    let clock = clock(octets)?;
    let rest = after(octets, 19);
    let offset = offset_after(rest)?;
    Some(Instant {
        second: second_of(day, clock, offset),
        is_whole: is_whole(rest),
    })
}
