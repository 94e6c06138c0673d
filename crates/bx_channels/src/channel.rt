//! B channels.

ghost use Rattle.std.specs.Prelude.{◌≡◌, ◌↔◌, IsSome, IfSome};
ghost use Rattle.bx_channels.specs.ChannelNumbers.{IsChannel};

use std::marker::Model;

/// A B channel of a 2048 kbit/s interface, by its time slot: 1 to 15 or 17 to 31 (ITU-T Q.931, 4.5.13).
#[derive(Clone, Copy, Debug, PartialEq, Eq)]
pub struct Channel {
    number: u8,
}

impl Model for Channel {
    ghost use Rattle.std.specs.Prelude.{ℕ};
    ghost use Rattle.bx_channels.specs.ChannelNumbers.{IsChannel};

    ghost Value = { ℕ };

    ghost view = { λ c. c.number };

    ghost invariant = { λ c. IsChannel c.number };

    ghost inverse = { λ n. record { number = n } };
}

impl Channel {
    /// The channel of this number. None for 0, for 16, which carries the signalling, and above 31.
    pub fn new(number: u8) -> Option<Channel>
        ensures exactly { IsSome result ↔ IsChannel number }
        ensures value { IfSome result (λ c. c ≡ number) }
    {
        if number >= 1 && number <= 31 && number != 16 {
            Some(Channel { number })
        } else {
            None
        }
    }

    /// Its number.
    pub fn number(self) -> u8
        ensures value { result ≡ self }
        ensures channel { IsChannel result }
    {
        self.number
    }
}
