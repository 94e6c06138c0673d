//! The lines that name a booking of the day by its row, or a channel.

ghost use Rattle.std.specs.Prelude.{◌≡◌, ◌≤◌, ◌++◌, ◌∷◌, length, decimal};
ghost use Rattle.bx_sales.specs.Amending.{row_numbered, row_named, behind_row};

use crate::tag::put;
use bx_channels::Channel;
use bx_journal::AmendedLine;
use itoa::Buffer;

/// The line of a booking that is given up: its row.
pub fn cancel_line(row: u16) -> AmendedLine
    ensures text { result.items ≡ decimal row }
    ensures again { row_numbered result.items ≡ row }
{
    let mut line = AmendedLine::new();
    put(&mut line, Buffer::new().format(row).as_bytes());
    line
}

/// The line of a channel that is left: its number.
pub fn out_line(channel: Channel) -> AmendedLine
    ensures text { result.items ≡ decimal channel }
    ensures again { row_numbered result.items ≡ channel }
{
    cancel_line(channel.number() as u16)
}

/// The line of a booking that becomes another one, which a text of at most 128 octets tells: its row, a space and that text.
pub fn change_line(row: u16, booking: &[u8]) -> AmendedLine
    requires { length booking.now ≤ 128 }
    ensures text { result.items ≡ decimal row ++ 32 ∷ booking.now }
    ensures row { row_named result.items ≡ row }
    ensures booking { behind_row result.items ≡ booking.now }
{
    let mut line = cancel_line(row);
    put(&mut line, b" ");
    put(&mut line, booking);
    line
}
