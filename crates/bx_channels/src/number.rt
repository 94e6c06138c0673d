//! Called numbers.

ghost use Rattle.std.specs.Prelude.{◌≡◌, ◌↔◌, All, IsSome, IfSome, IsTrue};
ghost use Rattle.std.specs.Char.{IsAsciiDigit};
ghost use Rattle.bx_channels.specs.Numbers.{IsNumber};

use std::marker::Model;

/// A called number: 1 to 15 ASCII digits.
#[derive(Clone, Copy, Debug, PartialEq, Eq)]
pub struct Number {
    digits: [u8; 15],
    count: u8,
}

impl Model for Number {
    ghost use Rattle.std.specs.Prelude.{◌≡◌, ℕ, List, take, length};
    ghost use Rattle.bx_channels.specs.Numbers.{IsNumber, padded};

    ghost Value = { List ℕ };

    ghost use Rattle.bx_channels.specs.NumberInside.{IsNumberInside, inside_from_digits};

    ghost view = { λ a. take a.count a.digits };

    ghost invariant = { IsNumberInside };

    ghost inverse = { λ digits. record { digits = padded digits; count = length digits } };

    ghost inverse_ok = { inside_from_digits };
}

impl Number {
    /// The number of these octets. None where they are not 1 to 15 ASCII digits.
    pub fn new(bytes: &[u8]) -> Option<Number>
        ensures exactly { IsSome result ↔ IsNumber bytes.now }
        ensures value { IfSome result (λ n. n ≡ bytes.now) }
    {
        if bytes.is_empty() || bytes.len() > 15 || !all_digits(bytes) {
            return None;
        }
        let mut digits = [0; 15];
        digits[..bytes.len()].copy_from_slice(bytes);
        Some(Number {
            digits,
            count: bytes.len() as u8,
        })
    }

    /// Its digits, in ASCII.
    pub fn digits(&self) -> &[u8]
        ensures value { result.now ≡ self.now }
        ensures number { IsNumber result.now }
    {
        &self.digits[..self.count as usize]
    }
}

fn all_digits(bytes: &[u8]) -> bool
    ensures { IsTrue result ↔ All IsAsciiDigit bytes.now }
{
    bytes.iter().all(|b| b.is_ascii_digit())
}
