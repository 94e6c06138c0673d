//! The frame check sequence.

ghost use Rattle.std.specs.Prelude.{◌≡◌};
ghost use Rattle.bx_lapd.specs.Codec.{fcs_bit, fcs_bits, fcs};

fn after_bit(rest: u16) -> u16
    ensures { result ≡ fcs_bit rest }
{
    if rest % 2 == 1 {
        (rest / 2) ^ 0x8408
    } else {
        rest / 2
    }
}

fn after_eight(rest: u16) -> u16
    ensures { result ≡ fcs_bits 8 rest }
{
    let mut rest = rest;
    for _bit in 0..8u8 {
        rest = after_bit(rest);
    }
    rest
}

/// The frame check sequence of octets (ITU-T Q.921, 2.7).
pub fn check_sequence(octets: &[u8]) -> u16
    ensures { result ≡ fcs octets.now }
{
    let mut rest = 0xFFFF;
    for octet in octets {
        rest = after_eight(rest ^ u16::from(*octet));
    }
    0xFFFF - rest
}
