//! The rows of the plan that paths name.

ghost use Rattle.std.specs.Prelude.{◌≡◌, ◌≢◌, ◌<◌, ◌++◌, ℕ, List, codes, decimal, Some, MatchOption, IfSome, IfNone};
ghost use Rattle.std.specs.Str.{bytes_eq};
ghost use Rattle.bx_office.specs.RowPaths.{IsRowPath};

use itoa::Buffer;
use std::str::from_utf8;

/// What stands in a path behind `/bookings/`.
fn past_bookings(path: &[u8]) -> Option<&[u8]>
    ensures { MatchOption result ((rest : List ℕ) → path.now ≢ codes "/bookings/" ++ rest) (λ rest. path.now ≡ codes "/bookings/" ++ rest.now) }
{
    path.strip_prefix("/bookings/".as_bytes())
}

/// The number that digits say. What is read of other octets, or of more digits than the number has, is not said.
fn number_in(digits: &[u8]) -> Option<u16>
    ensures { (number : ℕ) → number < 65536 → digits.now ≡ decimal number → result ≡ Some number }
{
    match from_utf8(digits) {
        Ok(text) => text.parse::<u16>().ok(),
        Err(_) => None,
    }
}

/// Whether a number is written so.
fn is_written(number: u16, digits: &[u8]) -> bool
    ensures { result ≡ bytes_eq digits.now (decimal number) }
{
    let mut buffer = Buffer::new();
    digits == buffer.format(number).as_bytes()
}

/// The row of the plan that a path names behind `/bookings/`: 1 to 65535, with no zero before it.
pub(crate) fn row_in(path: &[u8]) -> Option<u16>
    ensures some { IfSome result (λ row. IsRowPath row path.now) }
    ensures none { IfNone result ((row : ℕ) → ¬ IsRowPath row path.now) }
{
    let digits = past_bookings(path)?;
    let row = number_in(digits)?;
    if row == 0 || !is_written(row, digits) {
        return None;
    }
    Some(row)
}
