//! What a message says, in lines.

ghost use Rattle.std.specs.Prelude.{◌≡◌, ◌++◌, ℕ, List, codes, OnOk, IfOk};
ghost use Rattle.hex.specs.Hex.{encode_upper};
ghost use Rattle.bx_q931.specs.ElementViews.{element_view};
ghost use Rattle.bx_check_commands.specs.MessageLines.{type_line, reference_line, contents_field, element_line, message_lines};

use bx_q931::{Element, Kind, Message, Reference};
use bx_text::append_decimal;
use std::alloc::{AllocError, Global};

/// Appends octets in hexadecimal digits.
fn put_hex(alloc: Global, lines: &mut Vec<u8>, octets: &[u8]) -> Result<(), AllocError>
    ensures { OnOk result (lines.new.items ≡ lines.old.items ++ encode_upper octets.now) }
{
    let digits = hex::encode_upper(alloc, octets)?;
    lines.extend_from_slice(digits.as_bytes())
}

/// Appends the line of a type: its octet and its name.
fn put_type(alloc: Global, lines: &mut Vec<u8>, kind: Kind) -> Result<(), AllocError>
    ensures { OnOk result (lines.new.items ≡ lines.old.items ++ type_line kind) }
{
    lines.extend_from_slice(b"type ")?;
    put_hex(alloc, lines, &[kind.octet()])?;
    lines.extend_from_slice(b" ")?;
    lines.extend_from_slice(kind.name().as_bytes())?;
    lines.extend_from_slice(b"\n")
}

/// Appends the line of a call reference.
fn put_reference(lines: &mut Vec<u8>, reference: Reference) -> Result<(), AllocError>
    ensures { OnOk result (lines.new.items ≡ lines.old.items ++ reference_line reference) }
{
    match reference {
        Reference::Dummy => lines.extend_from_slice(b"reference dummy\n"),
        Reference::Value { value, flag } => {
            lines.extend_from_slice(b"reference ")?;
            append_decimal(lines, u64::from(value))?;
            lines.extend_from_slice(b" flag ")?;
            lines.extend_from_slice(if flag { b"1" } else { b"0" })?;
            lines.extend_from_slice(b"\n")
        }
    }
}

/// Appends what an element contains, where there is anything.
fn put_contents(alloc: Global, lines: &mut Vec<u8>, contents: &[u8]) -> Result<(), AllocError>
    ensures { OnOk result (lines.new.items ≡ lines.old.items ++ contents_field contents.now) }
{
    if contents.is_empty() {
        return Ok(());
    }
    lines.extend_from_slice(b" ")?;
    put_hex(alloc, lines, contents)
}

/// Appends the line of an element: its codeset, its identifier and its contents.
fn put_element(alloc: Global, lines: &mut Vec<u8>, element: &Element<'_>) -> Result<(), AllocError>
    ensures { OnOk result (lines.new.items ≡ lines.old.items ++ element_line (element_view element.now)) }
{
    lines.extend_from_slice(b"element ")?;
    append_decimal(lines, u64::from(element.codeset))?;
    lines.extend_from_slice(b" ")?;
    put_hex(alloc, lines, &[element.id])?;
    put_contents(alloc, lines, element.contents)?;
    lines.extend_from_slice(b"\n")
}

/// The lines of a message: its type, its reference, and its elements in order.
pub(crate) fn lines_of(alloc: Global, message: &Message<'_>) -> Result<Vec<u8>, AllocError>
    ensures { IfOk result (λ lines. lines.items ≡ message_lines message.now) }
{
    let mut lines = Vec::new(alloc);
    put_type(alloc, &mut lines, message.kind())?;
    put_reference(&mut lines, message.reference())?;
    for element in message.elements() {
        put_element(alloc, &mut lines, &element)?;
    }
    Ok(lines)
}
