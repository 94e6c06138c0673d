//! The lines of a quote at an office.

ghost use Rattle.std.specs.Prelude.{◌≡◌, ◌++◌, IfOk, OnOk};
ghost use Rattle.bx_planner.specs.Texts.{number_line, names_line, quote_text};

use bx_planner::Quote;
use bx_text::append_decimal;
use std::alloc::{AllocError, Global};

/// What a quote says, in the lines of `bx quote`.
pub(crate) fn quote_lines(alloc: Global, quote: &Quote) -> Result<Vec<u8>, AllocError>
    ensures { IfOk result (λ text. text.items ≡ quote_text quote.now) }
{
    let mut text = Vec::new(alloc);
    push_number(&mut text, b"its seconds cost ", quote.cost)?;
    push_number(&mut text, b"taken above ", quote.threshold)?;
    push_names(&mut text, b"instead of", &quote.instead)?;
    push_names(&mut text, b"besides", &quote.besides)?;
    Ok(text)
}

/// Appends words, a number, and the end of the line.
fn push_number(text: &mut Vec<u8>, words: &[u8], number: u64) -> Result<(), AllocError>
    ensures { OnOk result (text.new.items ≡ text.old.items ++ number_line words.now number) }
{
    text.extend_from_slice(words)?;
    append_decimal(text, number)?;
    text.extend_from_slice(b"\n")
}

/// Appends words, the names of rows, each after a space, or none, and the end of the line.
fn push_names(text: &mut Vec<u8>, words: &[u8], rows: &[u16]) -> Result<(), AllocError>
    ensures { OnOk result (text.new.items ≡ text.old.items ++ names_line words.now rows.now) }
{
    text.extend_from_slice(words)?;
    if rows.is_empty() {
        return text.extend_from_slice(b" none\n");
    }
    for row in rows {
        text.extend_from_slice(b" ")?;
        append_decimal(text, u64::from(*row))?;
    }
    text.extend_from_slice(b"\n")
}
