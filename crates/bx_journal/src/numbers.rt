//! Numbers in the lines of a journal.

ghost use Rattle.std.specs.Prelude.{◌≡◌, ◌≤◌, length};
ghost use Rattle.bx_journal.specs.Numbers.{number_on, space_at};

use bx_text::{all_digits, digits_value};
use itoa::Buffer;

/// The number of 32 bits that digits spell as it is written: with no leading zero.
pub fn number_on(digits: &[u8]) -> Option<u32>
    ensures { result ≡ number_on digits.now }
{
    if !all_digits(digits) {
        return None;
    }
    let Ok(number) = u32::try_from(digits_value(digits)) else {
        return None;
    };
    let mut written = Buffer::new();
    if digits == written.format(number).as_bytes() {
        Some(number)
    } else {
        None
    }
}

/// How many octets stand before the first space, or in all where there is none.
pub fn space_at(octets: &[u8]) -> usize
    ensures at { result ≡ space_at octets.now }
    ensures within { result ≤ length octets.now }
{
    let mut at = 0;
    while at < octets.len() {
        if octets[at] == b' ' {
            return at;
        }
        at += 1;
    }
    at
}
