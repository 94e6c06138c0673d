//! One booking by itself, as a line without an LF.

ghost use Rattle.std.specs.Prelude.{◌≡◌, Some};
ghost use Rattle.bx_planfile.specs.OneBooking.{booking_text, booking_on};

use crate::booking_line::booking_of;
use crate::fields::Fields;
use crate::version::Version;
use crate::written_lines::booking_line;
use bx_base::Booking;
use bx_text::Line;

/// The fields of a booking as a plan's text has them, without a channel. They are read again as this booking.
pub fn spell_booking(booking: Booking) -> Line
    ensures text { result.items ≡ booking_text booking }
    ensures again { booking_on (booking_text booking) ≡ Some booking }
{
    // Read for the prover alone, which learns from it that this is a booking.
    let _start = booking.start();
    let mut line = booking_line(booking, None);
    let _lf = line.pop();
    line
}

/// The booking that a line tells, where it tells one.
pub fn booking_on(line: &[u8]) -> Option<Booking>
    ensures { result ≡ booking_on line.now }
{
    match booking_of(Version::Three, Fields::of(line), 0) {
        Ok((booking, None)) => Some(booking),
        Ok((_, Some(_))) => None,
        Err(_) => None,
    }
}
