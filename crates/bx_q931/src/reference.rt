//! Call references.

ghost use Rattle.std.specs.Prelude.{◌≡◌, ◌≤◌, length};
ghost use Rattle.bx_q931.specs.References.{reference_of};

/// The call reference of a message (ITU-T Q.931, 4.3).
#[derive(Clone, Copy, Debug, PartialEq, Eq)]
pub enum Reference {
    /// No call reference value at all.
    Dummy,
    /// A value below 32,768, 0 being the global reference, and the flag: false from the side that
    /// began the call, true to it.
    Value { value: u16, flag: bool },
}

impl Reference {
    /// What the octets of a call reference value say.
    pub(crate) fn of(octets: &[u8]) -> Reference
        requires { length octets.now ≤ 2 }
        ensures { result ≡ reference_of octets.now }
    {
        match octets {
            [] => Reference::Dummy,
            [only] => Reference::Value {
                value: u16::from(*only & 0x7F),
                flag: *only >= 0x80,
            },
            [high, low, ..] => Reference::Value {
                value: u16::from(*high & 0x7F) * 256 + u16::from(*low),
                flag: *high >= 0x80,
            },
        }
    }
}
