//! Messages in hexadecimal.

ghost use Rattle.std.specs.Prelude.{◌≡◌, Ok, Err, IfOk, IfErr, OnOk};
ghost use Rattle.hex.specs.Hex.{decode_of};
ghost use Rattle.bx_devices.specs.Devices.{writing_of};
ghost use Rattle.bx_check_commands.specs.Decoding.{IsDecoded, IsDecodeRefusal};
ghost use Rattle.bx_check_commands.specs.Inside.{IsHexFault};

use crate::fault::CommandFault;
use crate::message_lines::lines_of;
use bx_devices::{Watched, WriteFailed, write_octets};
use bx_q931::read;
use hex::FromHexError;
use std::alloc::Global;
use std::io::Write;

/// The octets that hexadecimal digits stand for.
fn octets_of<'a>(alloc: Global, text: &str) -> Result<Vec<u8>, CommandFault<'a>>
    ensures ok { IfOk result (λ octets. decode_of text.now ≡ Ok octets.items) }
    ensures err { IfErr result (IsHexFault text.now) }
{
    match hex::decode(alloc, text) {
        Ok(octets) => Ok(octets),
        Err(FromHexError::OutOfMemory) => Err(CommandFault::Memory),
        Err(_) => Err(CommandFault::NotHex),
    }
}

/// Writes the lines of the message whose octets the text has in hexadecimal: its type, its reference, and its elements
/// in order, each with its codeset. At a refusal nothing was written, except that where the output failed a prefix of
/// the lines was. `NotHex` where the text is not pairs of hexadecimal digits, `Message` where the octets are no message,
/// `CannotWrite` where the output fails, `Memory` where memory runs out.
pub fn decode<'a, W: Write>(
    alloc: Global,
    text: &str,
    output: &mut Watched<W>,
) -> Result<(), CommandFault<'a>>
    ensures done { OnOk result (IsDecoded text.now (writing_of W.contents output.old output.new)) }
    ensures refused { IfErr result (IsDecodeRefusal text.now (writing_of W.contents output.old output.new)) }
{
    let octets = octets_of(alloc, text)?;
    let message = match read(&octets) {
        Ok(message) => message,
        Err(fault) => return Err(CommandFault::Message(fault)),
    };
    let lines = match lines_of(alloc, &message) {
        Ok(lines) => lines,
        Err(_) => return Err(CommandFault::Memory),
    };
    match write_octets(output, &lines) {
        Ok(()) => Ok(()),
        Err(WriteFailed) => Err(CommandFault::CannotWrite),
    }
}
