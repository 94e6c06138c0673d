//! Digits, and their values.

ghost use Rattle.std.specs.Prelude.{◌≡◌, IsTrue};
ghost use Rattle.std.specs.List.{list_all};
ghost use Rattle.std.specs.Char.{is_ascii_digit};
ghost use Rattle.bx_text.specs.Digits.{capped, decimal_value};

/// Whether all octets are ASCII digits.
pub fn all_digits(field: &[u8]) -> bool
    ensures { result ≡ list_all is_ascii_digit field.now }
{
    field.iter().all(|octet| octet.is_ascii_digit())
}

/// The value of digits, where it is below `u64::MAX`, and else that. All octets have to be ASCII digits.
pub fn digits_value(digits: &[u8]) -> u64
    requires { IsTrue (list_all is_ascii_digit digits.now) }
    ensures { result ≡ capped (decimal_value digits.now) }
{
    let mut value = 0u64;
    for digit in digits {
        value = value
            .saturating_mul(10)
            .saturating_add(u64::from(*digit - b'0'));
    }
    value
}
