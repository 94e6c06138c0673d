//! Octets as two hexadecimal digits each. The letters are those from the digit of ten on: A to F, or a to f.

ghost use Rattle.std.specs.Prelude.{◌≡◌, ◌+◌, ◌*◌, ◌≤◌, ◌<◌, Some, None, length, MatchOption, IfSome};
ghost use Rattle.arrayvec.specs.ArrayVec.{array_vec_len};
ghost use Rattle.bx_journal.specs.Hex.{hex_value, is_hex, octets_of_digits, octet_of_digits};

use bx_q931::Octets;

/// The value of a digit.
fn hex_value(ten: u8, digit: u8) -> Option<u8>
    requires { ten ≤ 97 }
    ensures value { result ≡ hex_value ten digit }
    ensures small { IfSome result (λ v. v < 16) }
{
    if b'0' <= digit && digit <= b'9' {
        Some(digit - b'0')
    } else if ten <= digit && digit <= ten + 5 {
        Some(digit - ten + 10)
    } else {
        None
    }
}

/// Whether it is a digit.
pub(crate) fn is_hex(ten: u8, digit: u8) -> bool
    requires { ten ≤ 97 }
    ensures { result ≡ is_hex ten digit }
{
    hex_value(ten, digit).is_some()
}

/// The octet of two digits.
fn octet_of(ten: u8, high: u8, low: u8) -> Option<u8>
    requires { ten ≤ 97 }
    ensures { result ≡ octet_of_digits (hex_value ten high) (hex_value ten low) }
{
    match (hex_value(ten, high), hex_value(ten, low)) {
        (Some(high), Some(low)) => Some(high * 16 + low),
        (Some(_), None) => None,
        (None, _) => None,
    }
}

/// The octets that digits spell, with A to F.
pub(crate) fn octets_in(digits: &[u8]) -> Option<Octets>
    requires { length digits.now ≤ 520 }
    ensures { MatchOption result (octets_of_digits 65 digits.now ≡ None) (λ octets. octets_of_digits 65 digits.now ≡ Some octets.items) }
{
    let mut octets = Octets::new();
    let mut at = 0;
    while at + 1 < digits.len() {
        let octet = octet_of(b'A', digits[at], digits[at + 1])?;
        octets.push(octet);
        at += 2;
    }
    if at == digits.len() {
        Some(octets)
    } else {
        None
    }
}
