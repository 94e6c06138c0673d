//! Decimals.

ghost use Rattle.std.specs.Prelude.{◌≡◌, ◌<◌, MatchOption, true, false, length};
ghost use Rattle.bx_text.specs.Digits.{capped, decimal_value};
ghost use Rattle.bx_planfile.specs.Forms.{is_digits, is_decimal};

use bx_text::{all_digits, digits_value};

/// Whether the field is one or more ASCII digits.
pub(crate) fn is_digits(field: &[u8]) -> bool
    ensures { result ≡ is_digits field.now }
{
    !field.is_empty() && all_digits(field)
}

/// The value of a field that is a decimal: `0`, or digits with no leading zero. One of any length has the
/// right form, and from `u64::MAX` on, which is beyond each limit, they all count as that.
pub fn decimal(field: &[u8]) -> Option<u64>
    ensures { MatchOption result (is_decimal field.now ≡ false) (λ n. (is_decimal field.now ≡ true) × (n ≡ capped (decimal_value field.now))) }
{
    if is_digits(field) && (field[0] != b'0' || field.len() == 1) {
        Some(digits_value(field))
    } else {
        None
    }
}
