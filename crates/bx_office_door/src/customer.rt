//! A customer.

ghost use Rattle.std.specs.Prelude.{◌≡◌};

/// A client whose socket was just looked at, and who is still there: the door alone makes one, so nothing is sold to anybody else.
#[derive(Drop)]
pub struct Customer {
    number: u64,
}

impl Customer {
    /// The customer of this number.
    pub(crate) fn new(number: u64) -> Customer
        ensures { result.number ≡ number }
    {
        Customer { number }
    }

    /// Its number.
    pub fn number(&self) -> u64
        ensures { result ≡ self.now.number }
    {
        self.number
    }
}
