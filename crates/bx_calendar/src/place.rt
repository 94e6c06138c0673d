//! Octets, digits and dates at the places of a text.

ghost use Rattle.std.specs.Prelude.{◌≡◌, ◌+◌, ◌<◌, ◌≤◌, MatchOption, false, pos, length, drop};
ghost use Rattle.jiff.specs.Words.{epoch_day};
ghost use Rattle.jiff_core.specs.Calendar.{IsDate};
ghost use Rattle.bx_calendar.specs.Places.{octet_at, are_two_digits, is_below};
ghost use Rattle.bx_calendar.specs.Dates.{StartsWithDate, day_number};
ghost use Rattle.bx_calendar.specs.Inside.{IsTwoDigits, IsTwoDigitsBelow, IsDateOn};

use jiff::civil::Date;

/// The octet at a place, and 0 beyond the end.
pub(crate) fn octet_at(octets: &[u8], place: usize) -> u8
    ensures { result ≡ octet_at octets.now place }
{
    match octets.get(place) {
        Some(octet) => *octet,
        None => 0,
    }
}

/// What stands from a place on.
pub(crate) fn after(octets: &[u8], place: usize) -> &[u8]
    requires { place ≤ length octets.now }
    ensures { result.now ≡ drop place octets.now }
{
    &octets[place..]
}

/// The number that two ASCII digits from a place on write.
pub(crate) fn two_digits(octets: &[u8], place: usize) -> Option<u8>
    requires { place ≤ 100 }
    ensures { MatchOption result (are_two_digits octets.now place ≡ false) (IsTwoDigits octets.now place) }
{
    let tens = octet_at(octets, place);
    let ones = octet_at(octets, place + 1);
    if tens.is_ascii_digit() && ones.is_ascii_digit() {
        Some((tens - b'0') * 10 + (ones - b'0'))
    } else {
        None
    }
}

/// The same, where that number is below the limit.
pub(crate) fn two_digits_below(octets: &[u8], place: usize, limit: u8) -> Option<u8>
    requires { place ≤ 100 }
    ensures { MatchOption result (is_below octets.now place limit ≡ false) (IsTwoDigitsBelow octets.now place limit) }
{
    let number = two_digits(octets, place)?;
    if number < limit { Some(number) } else { None }
}

/// The date of the calendar with these parts.
fn date_of(year: u16, month: u8, day: u8) -> Option<Date>
    requires { (year ≤ 9999) × (month ≤ 99) × (day ≤ 99) }
    ensures { MatchOption result (¬ IsDate (pos year) (pos month) (pos day)) (λ d. IsDateOn year month day (epoch_day d)) }
{
    match Date::new(year as i16, month as i8, day as i8) {
        Ok(date) => Some(date),
        Err(_) => None,
    }
}

/// The date that a text begins with, as `YYYY-MM-DD`.
pub(crate) fn first_date(octets: &[u8]) -> Option<Date>
    ensures { MatchOption result (¬ StartsWithDate octets.now) (λ d. StartsWithDate octets.now × (epoch_day d ≡ day_number octets.now)) }
{
    let century = two_digits(octets, 0)?;
    let year = two_digits(octets, 2)?;
    let month = two_digits(octets, 5)?;
    let day = two_digits(octets, 8)?;
    if octet_at(octets, 4) != b'-' || octet_at(octets, 7) != b'-' {
        return None;
    }
    date_of(u16::from(century) * 100 + u16::from(year), month, day)
}
