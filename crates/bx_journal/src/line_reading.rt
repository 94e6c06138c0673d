//! Reading the next line.

ghost use Rattle.std.specs.Prelude.{◌≡◌, OnOk};
ghost use Rattle.bx_devices.specs.Watching.{device_of, is_faulted};
ghost use Rattle.bx_journal.specs.Taking.{IsSkipped, IsLineFrom};

use crate::pieces::{CannotRead, Pieces};
use arrayvec::ArrayVec;
use bx_devices::Watched;
use std::io::Read;

/// A line without its LF: none that is right is longer than that of a message of 260 octets.
pub type WholeLine = ArrayVec<u8, 526>;

/// How a line ends.
#[derive(Clone, Copy)]
pub enum LineEnd {
    /// With its LF, and the line is kept.
    Whole,
    /// With its LF, and the line has more octets than are kept.
    TooLong,
    /// With the text.
    Torn,
}

/// Passes over the rest of a line that is too long.
fn skip_line<R: Read>(pieces: &mut Pieces, device: &mut Watched<R>) -> Result<LineEnd, CannotRead>
    ensures skipped { IsSkipped (is_faulted device.new) (R.remaining (device_of device.old)) (R.remaining (device_of device.new)) pieces.old pieces.new result }
    ensures unfaulted { OnOk result (is_faulted device.new ≡ is_faulted device.old) }
{
    while pieces.taken() < u64::MAX {
        match pieces.next_octet(device)? {
            Some(octet) => {
                if octet == b'\n' {
                    return Ok(LineEnd::TooLong);
                }
            }
            None => return Ok(LineEnd::Torn),
        }
    }
    Err(CannotRead)
}

/// Reads the next line, without its LF.
pub(crate) fn next_line<R: Read>(
    pieces: &mut Pieces,
    device: &mut Watched<R>,
    line: &mut WholeLine,
) -> Result<LineEnd, CannotRead>
    ensures line { IsLineFrom R.remaining device.old device.new pieces.old pieces.new line.new.items result }
    ensures unfaulted { OnOk result (is_faulted device.new ≡ is_faulted device.old) }
{
    line.clear();
    while pieces.taken() < u64::MAX {
        match pieces.next_octet(device)? {
            Some(octet) => {
                if octet == b'\n' {
                    return Ok(LineEnd::Whole);
                }
                if line.try_push(octet).is_err() {
                    return skip_line(pieces, device);
                }
            }
            None => return Ok(LineEnd::Torn),
        }
    }
    Err(CannotRead)
}
