//! What is asked of the free times of a day.

ghost use Rattle.std.specs.Prelude.{◌≡◌, ◌≤◌, true, false, MatchOption, IfSome, IfOk, IfErr};
ghost use Rattle.bx_book.specs.Rows.{span_of};
ghost use Rattle.bx_text.specs.Digits.{decimal_value};
ghost use Rattle.bx_office_world.specs.Wishes.{is_length, IsLengthOfQuery, IsNoLength, IsSecondOr, IsBadSecond, IsWishOf, IsNoWish};

use crate::fault::NoAnswer;
use crate::quoting::{second_of, value_of};
use crate::wish::Wish;
use bx_base::MAX_MOMENT;
use bx_calendar::Day;
use bx_text::{all_digits, digits_value};
use form_urlencoded::decode;
use std::alloc::Global;

/// How many seconds a text says: 1 to 200,000, in at most ten digits.
fn length_in(text: &[u8]) -> Option<u32>
    ensures value { MatchOption result (is_length text.now ≡ false) (λ n. (is_length text.now ≡ true) × (n ≡ decimal_value text.now)) }
    ensures limits { IfSome result (λ n. (1 ≤ n) × (n ≤ 200_000)) }
{
    if text.len() > 10 || !all_digits(text) {
        return None;
    }
    let value = digits_value(text);
    if value >= 1 && value <= u64::from(MAX_MOMENT) {
        Some(value as u32)
    } else {
        None
    }
}

/// How many seconds the call lasts that a query asks for.
fn length_of(alloc: Global, query: &[u8]) -> Result<u32, NoAnswer>
    ensures length { IfOk result (IsLengthOfQuery query.now) }
    ensures limits { IfOk result (λ n. (1 ≤ n) × (n ≤ 200_000)) }
    ensures none { IfErr result (IsNoLength query.now) }
{
    let Some(value) = value_of(query, b"length") else {
        return Err(NoAnswer::NoLength);
    };
    let Ok(text) = decode(alloc, value) else {
        return Err(NoAnswer::Memory);
    };
    match length_in(text.as_bytes()) {
        Some(length) => Ok(length),
        None => Err(NoAnswer::NoLength),
    }
}

/// The second of the day that a field of a query names, as a field of row 1 of a text of bookings; the other one where it has no such field.
fn second_or(
    alloc: Global,
    query: &[u8],
    name: &[u8],
    day: &Day,
    other: u32,
) -> Result<u32, NoAnswer>
    ensures second { IfOk result (IsSecondOr query.now name.now (span_of day.now) other) }
    ensures none { IfErr result (IsBadSecond query.now name.now (span_of day.now)) }
{
    match second_of(alloc, query, name, day) {
        Ok(second) => Ok(second),
        Err(NoAnswer::NoTimes) => Ok(other),
        Err(why) => Err(why),
    }
}

/// The call that a query wishes for, on a day that is run to this second: by its field `length`, in seconds, and by `from` and `to`, times of
/// the day as in row 1 of a text of bookings, which it may leave out. `NoLength` where its length is none, `Book` where one of the two is no
/// time of the day, `Memory` where memory runs out.
pub fn wish_of(alloc: Global, query: &[u8], day: &Day, last: u32) -> Result<Wish, NoAnswer>
    ensures wish { IfOk result (IsWishOf query.now (span_of day.now) last) }
    ensures none { IfErr result (IsNoWish query.now (span_of day.now)) }
{
    let length = length_of(alloc, query)?;
    let from = second_or(alloc, query, b"from", day, 0)?;
    let to = second_or(alloc, query, b"to", day, last)?;
    Ok(Wish { length, from, to })
}
