//! A piece of a picture in which no bar stands.

ghost use Rattle.std.specs.Prelude.{◌≡◌, true};
ghost use Rattle.bx_chart.specs.Barless.{IsBarless};
ghost use Rattle.bx_chart.specs.Clear.{is_clear};
ghost use Rattle.bx_chart.specs.Plain.{is_plain};

use crate::picture::Picture;
use std::alloc::{AllocError, Global};

/// A piece in which no bar stands, and that hides none.
#[derive(Drop)]
pub(crate) struct Barless {
    picture: Picture,
    ghost clear: { is_clear picture.text.items ≡ true },
}

impl Barless {
    /// An empty piece.
    pub(crate) fn new(alloc: Global) -> Barless {
        Barless {
            picture: Picture::new(alloc),
        }
    }

    /// The text of the piece.
    pub(crate) fn text(&self) -> &[u8]
        ensures plain { is_plain result.now ≡ true }
        ensures barless { IsBarless result.now }
    {
        self.picture.text()
    }

    /// Adds octets.
    pub(crate) fn add(&mut self, octets: &[u8]) -> Result<(), AllocError>
        requires plain { is_plain octets.now ≡ true }
        requires clear { is_clear octets.now ≡ true }
    {
        self.picture.add(octets)
    }

    /// Adds a decimal.
    pub(crate) fn add_decimal(&mut self, number: u64) -> Result<(), AllocError> {
        self.picture.add_decimal(number)
    }

    /// Adds words and a decimal.
    pub(crate) fn add_number(&mut self, words: &[u8], number: u64) -> Result<(), AllocError>
        requires plain { is_plain words.now ≡ true }
        requires clear { is_clear words.now ≡ true }
    {
        self.add(words)?;
        self.add_decimal(number)
    }

    /// Adds so many tenths.
    pub(crate) fn add_tenths(&mut self, count: u64) -> Result<(), AllocError> {
        self.add_decimal(count / 10)?;
        self.add_number(b".", count % 10)
    }
}
