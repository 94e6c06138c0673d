//! Fields of a row.

ghost use Rattle.std.specs.Prelude.{◌≡◌, ◌≤◌, ◌<◌, ◌⊎◌, ◌-ℤ◌, ◌<ℤ◌, ◌≤ℤ◌, IfSome, IfNone, MatchOption, false, true, codes, length, pos, neg_ℤ};
ghost use Rattle.bx_book.specs.Rows.{span_of, IsMomentRead, is_pay, pay_value, word_value};
ghost use Rattle.bx_base.specs.declared.booking.TheConstants.{MAX_MOMENT};

use crate::fault::BookFault;
use bx_base::MAX_PAY;
use bx_calendar::{Day, instant_at};
use bx_text::{all_digits, digits_value};

/// How far a second is from the start of a day, where it is neither before it nor after the day's end.
fn place_in_day(second: i64, start: i64, length: u32) -> Option<u32>
    requires second { (neg_ℤ (pos 500_000_000_000) ≤ℤ second) × (second ≤ℤ pos 500_000_000_000) }
    requires start { (neg_ℤ (pos 400_000_000_000) ≤ℤ start) × (start ≤ℤ pos 400_000_000_000) }
    requires length { length ≤ MAX_MOMENT }
    ensures some { IfSome result (λ n. ((second -ℤ start) ≡ pos n) × (n ≤ length)) }
    ensures none { IfNone result (((second -ℤ start) <ℤ pos 0) ⊎ (pos length <ℤ (second -ℤ start))) }
{
    let place = second - start;
    if place < 0 {
        return None;
    }
    if place > i64::from(length) {
        return None;
    }
    Some(place as u32)
}

/// The moment that a field of this row names, in seconds of the day. The first of these faults, with the row's name: `NotATime`,
/// `NotWholeSeconds`, `OutsideDay`.
pub fn moment(field: &[u8], day: &Day, row: u16) -> Result<u32, BookFault>
    ensures { IsMomentRead (span_of day.now) row field.now result }
{
    let Some(instant) = instant_at(field) else {
        return Err(BookFault::NotATime(row));
    };
    if !instant.is_whole {
        return Err(BookFault::NotWholeSeconds(row));
    }
    match place_in_day(instant.second, day.start(), day.length()) {
        Some(moment) => Ok(moment),
        None => Err(BookFault::OutsideDay(row)),
    }
}

/// The pay that a field names.
pub(crate) fn pay(field: &[u8]) -> Option<u64>
    ensures { MatchOption result (is_pay field.now ≡ false) (λ n. (is_pay field.now ≡ true) × (n ≡ pay_value field.now)) }
{
    if field.len() > 10 || !all_digits(field) {
        return None;
    }
    let value = digits_value(field);
    if value >= 1 && value <= MAX_PAY {
        Some(value)
    } else {
        None
    }
}

/// Whether a row is a must row.
pub(crate) fn must(field: &[u8]) -> Option<bool>
    ensures { result ≡ word_value (codes "no") (codes "yes") field.now }
{
    match field {
        b"no" => Some(false),
        b"yes" => Some(true),
        _ => None,
    }
}

/// Whether a row is called by the far end.
pub(crate) fn inward(field: &[u8]) -> Option<bool>
    ensures { result ≡ word_value (codes "out") (codes "in") field.now }
{
    match field {
        b"out" => Some(false),
        b"in" => Some(true),
        _ => None,
    }
}
