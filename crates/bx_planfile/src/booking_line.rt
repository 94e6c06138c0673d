//! The line of one booking.

ghost use Rattle.std.specs.Prelude.{◌≡◌, codes, ◌<◌, MatchOption, None, Some, true, false, IfSome};
ghost use Rattle.std.specs.Option.{option_map};
ghost use Rattle.std.specs.Str.{bytes_eq};
ghost use Rattle.bx_base.specs.Bookings.{IsBooking};
ghost use Rattle.bx_planfile.specs.Forms.{is_digits, is_channel_field, is_must_field, is_direction_field, marks, marks_form, booking_form, is_assignable, is_within};
ghost use Rattle.bx_planfile.specs.Capped.{capped_entry};
ghost use Rattle.bx_planfile.specs.Values.{entry_of_values, file_entry_of, IsChannelRead, IsWithin};
ghost use Rattle.bx_planfile.specs.Reading.{read_booking};
ghost use Rattle.bx_planfile.specs.Inside.{AnswersRead};

use crate::decimals::{decimal, is_digits};
use crate::fault::PlanTextFault;
use crate::fields::Fields;
use crate::version::Version;
use bx_base::Booking;
use bx_channels::{Channel, Number};

/// What a line of the right form says of a booking, within its limits or not.
#[derive(Clone, Copy)]
struct BookingValues<'a> {
    start: u64,
    end: u64,
    pay: u64,
    number: &'a [u8],
    channel: Option<u64>,
    must: bool,
    inward: bool,
}

/// A number of one or more digits.
fn digits(field: &[u8]) -> Option<&[u8]>
    ensures { MatchOption result (is_digits field.now ≡ false) (λ ds. (is_digits field.now ≡ true) × (ds.now ≡ field.now)) }
{
    if is_digits(field) { Some(field) } else { None }
}

/// A channel, or a dash where there is none.
fn channel(field: &[u8]) -> Option<Option<u64>>
    ensures { MatchOption result (is_channel_field field.now ≡ false) (IsChannelRead field.now) }
{
    if field == b"-".as_slice() {
        return Some(None);
    }
    Some(Some(decimal(field)?))
}

fn is_must(field: &[u8]) -> Option<bool>
    ensures { MatchOption result (is_must_field field.now ≡ false) (λ b. (is_must_field field.now ≡ true) × (b ≡ bytes_eq field.now (codes "must"))) }
{
    if field == b"must".as_slice() {
        Some(true)
    } else if field == b"free".as_slice() {
        Some(false)
    } else {
        None
    }
}

fn is_inward(field: &[u8]) -> Option<bool>
    ensures { MatchOption result (is_direction_field field.now ≡ false) (λ b. (is_direction_field field.now ≡ true) × (b ≡ bytes_eq field.now (codes "in"))) }
{
    if field == b"in".as_slice() {
        Some(true)
    } else if field == b"out".as_slice() {
        Some(false)
    } else {
        None
    }
}

/// Whether the booking is a must booking, and whether it is inward: where the version says neither, it is not.
fn marks_of(version: Version, mut fields: Fields<'_>) -> Option<(bool, bool)>
    ensures { option_map (λ x. marks x.0 x.1) result ≡ marks_form version fields.entry }
{
    let must = match version {
        Version::One => false,
        Version::Two | Version::Three => is_must(fields.take())?,
    };
    let inward = match version {
        Version::One | Version::Two => false,
        Version::Three => is_inward(fields.take())?,
    };
    if fields.is_done() {
        Some((must, inward))
    } else {
        None
    }
}

#[tactic(auto, unfolding(crate::specs::Forms::booking_form))]
fn values_of<'a>(version: Version, mut fields: Fields<'a>) -> Option<BookingValues<'a>>
    ensures entry { option_map entry_of_values result ≡ option_map capped_entry (booking_form version fields.entry) }
    ensures number { IfSome result (λ v. is_digits v.number.now ≡ true) }
{
    let start = decimal(fields.take())?;
    let end = decimal(fields.take())?;
    let pay = decimal(fields.take())?;
    let number = digits(fields.take())?;
    let channel = channel(fields.take())?;
    let (must, inward) = marks_of(version, fields)?;
    Some(BookingValues {
        start,
        end,
        pay,
        number,
        channel,
        must,
        inward,
    })
}

impl BookingValues<'_> {
    /// The booking, where its values are within their limits.
    fn booking(&self) -> Option<Booking>
        ensures { MatchOption result (¬ IsBooking (entry_of_values self.now).row) (λ b. IsBooking b × (b ≡ (entry_of_values self.now).row)) }
    {
        let start = u32::try_from(self.start).ok()?;
        let end = u32::try_from(self.end).ok()?;
        let number = Number::new(self.number)?;
        let booking = Booking::new(start, end, self.pay, number)?;
        Some(self.marked(booking))
    }

    /// The booking with its marks.
    fn marked(&self, booking: Booking) -> Booking
        requires { (booking.must ≡ false) × (booking.inward ≡ false) }
        ensures { result ≡ record booking { must = self.now.must; inward = self.now.inward } }
    {
        let booking = if self.must {
            booking.as_must()
        } else {
            booking
        };
        if self.inward {
            booking.as_inward()
        } else {
            booking
        }
    }

    /// The channel, where it is a B channel or there is none.
    fn assigned(&self) -> Option<Option<Channel>>
        ensures { MatchOption result (is_assignable self.now.channel ≡ false) (λ c. (is_assignable self.now.channel ≡ true) × (c ≡ self.now.channel)) }
    {
        match self.channel {
            None => Some(None),
            Some(number) => Some(Some(Channel::new(u8::try_from(number).ok()?)?)),
        }
    }

    /// The booking and its channel, where both are within their limits.
    #[tactic(auto, using(crate::proofs::Limits::no_booking, crate::proofs::Limits::no_channel, crate::proofs::Limits::both_within))]
    fn within_limits(&self) -> Option<(Booking, Option<Channel>)>
        requires { is_digits self.now.number.now ≡ true }
        ensures { MatchOption result (is_within (entry_of_values self.now) ≡ false) (λ x. IsWithin (entry_of_values self.now) (file_entry_of x.0 x.1)) }
    {
        let booking = self.booking()?;
        Some((booking, self.assigned()?))
    }
}

/// The booking in the fields of line `n`, and the channel that it has.
#[tactic(auto, unfolding(crate::specs::Reading::read_booking))]
pub(crate) fn booking_of(
    version: Version,
    fields: Fields<'_>,
    n: u32,
) -> Result<(Booking, Option<Channel>), PlanTextFault>
    ensures { AnswersRead (λ x. file_entry_of x.0 x.1) result (read_booking version n fields.entry) }
{
    let values = values_of(version, fields).ok_or(PlanTextFault::BadLine(n))?;
    values.within_limits().ok_or(PlanTextFault::OutOfLimits(n))
}
