//! The text of a picture.

ghost use Rattle.std.specs.Prelude.{◌≡◌, ◌++◌, [], true, OnOk, OnErr, decimal};
ghost use Rattle.bx_chart.specs.Plain.{is_plain};

use itoa::Buffer;
use std::alloc::{AllocError, Global};

/// A piece of a picture: LF and printable ASCII, no other octet.
#[derive(Drop)]
pub struct Picture {
    pub text: Vec<u8>,
    ghost plain: { is_plain text.items ≡ true },
}

impl Picture {
    /// An empty piece.
    pub fn new(alloc: Global) -> Picture
        ensures { result.text.items ≡ [] }
    {
        Picture {
            text: Vec::new(alloc),
        }
    }

    /// The text of the piece.
    pub fn text(&self) -> &[u8]
        ensures value { result.now ≡ self.now.text.items }
        ensures plain { is_plain result.now ≡ true }
    {
        &self.text
    }

    /// Adds octets.
    pub fn add(&mut self, octets: &[u8]) -> Result<(), AllocError>
        requires { is_plain octets.now ≡ true }
        ensures added { OnOk result (self.new.text.items ≡ self.old.text.items ++ octets.now) }
        ensures stays { OnErr result (self.new.text.items ≡ self.old.text.items) }
    {
        self.text.extend_from_slice(octets)
    }

    /// Adds a decimal.
    pub fn add_decimal(&mut self, number: u64) -> Result<(), AllocError>
        ensures added { OnOk result (self.new.text.items ≡ self.old.text.items ++ decimal number) }
        ensures stays { OnErr result (self.new.text.items ≡ self.old.text.items) }
    {
        self.add(Buffer::new().format(number).as_bytes())
    }

    /// Adds words and a decimal.
    pub fn add_number(&mut self, words: &[u8], number: u64) -> Result<(), AllocError>
        requires { is_plain words.now ≡ true }
        ensures { OnOk result (self.new.text.items ≡ self.old.text.items ++ words.now ++ decimal number) }
    {
        self.add(words)?;
        self.add_decimal(number)
    }
}
