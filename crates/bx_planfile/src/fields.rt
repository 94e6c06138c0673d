//! Lines, and the fields of a line.

ghost use Rattle.std.specs.Prelude.{◌≡◌, ◌==◌, position, List, true};
ghost use Rattle.bx_planfile.specs.Lines.{first, other_fields, fields_of};
ghost use Rattle.bx_planfile.specs.Forms.{is_nothing};
ghost use Rattle.bx_planfile.specs.Reading.{read_line};
ghost use Rattle.bx_planfile.specs.Inside.{AnswersRead};

use crate::fault::PlanTextFault;
use std::marker::Model;

/// The fields of a line that were not taken yet. Single spaces keep them apart.
#[derive(Drop)]
pub struct Fields<'a> {
    rest: &'a [u8],
    is_done: bool,
}

impl<'a> Model for Fields<'a> {
    ghost use Rattle.std.specs.Prelude.{ℕ, List};

    ghost Value = { List (List ℕ) };

    ghost use Rattle.bx_planfile.specs.FieldsInside.{fields_left, IsFieldsInside};

    ghost view = { fields_left };

    ghost invariant = { IsFieldsInside };
}

/// The first place of an octet.
fn place_of(bytes: &[u8], octet: u8) -> Option<usize>
    ensures { result ≡ position (λ b. b == octet) bytes.now }
{
    bytes.iter().position(|b| *b == octet)
}

impl<'a> Fields<'a> {
    /// The fields of a line, without its LF.
    pub(crate) fn of(line: &'a [u8]) -> Self
        ensures { result ≡ fields_of line.now }
    {
        Fields {
            rest: line,
            is_done: false,
        }
    }

    /// The next field, or an empty one where none is left: no field that is asked for is empty.
    pub(crate) fn take(&mut self) -> &'a [u8]
        ensures value { result.now ≡ first self.old }
        ensures rest { self.new ≡ other_fields self.old }
    {
        let rest = self.rest;
        match place_of(rest, b' ') {
            Some(end) => {
                self.rest = &rest[end + 1..];
                &rest[..end]
            }
            None => {
                self.rest = &[];
                self.is_done = true;
                rest
            }
        }
    }

    /// The same fields once more.
    pub(crate) fn again(&self) -> Fields<'a>
        ensures { result ≡ self.now }
    {
        Fields {
            rest: self.rest,
            is_done: self.is_done,
        }
    }

    /// Whether all fields were taken.
    pub(crate) fn is_done(&self) -> bool
        ensures { result ≡ is_nothing self.now }
    {
        self.is_done
    }
}

/// The fields of the first line, which is line `n` of the text, and what stands after its LF.
#[tactic(auto, unfolding(crate::specs::Reading::read_line))]
pub(crate) fn line_of(bytes: &[u8], n: u32) -> Result<(Fields<'_>, &[u8]), PlanTextFault>
    ensures { AnswersRead (λ x. (x.0, x.1.now)) result (read_line n bytes.now) }
{
    match place_of(bytes, b'\n') {
        Some(end) => Ok((Fields::of(&bytes[..end]), &bytes[end + 1..])),
        None => Err(PlanTextFault::BadLine(n)),
    }
}
