//! What a booking has to pay at least.

ghost use Rattle.std.specs.Prelude.{◌≡◌};
ghost use Rattle.bx_office_world.specs.Tariff.{started_minutes, least_pay, is_paid};

use bx_base::Booking;

/// What is offered: what starts by this second, and pays at least the rate for each of its minutes that has begun.
#[derive(Clone, Copy)]
pub struct Terms {
    pub last: u32,
    pub rate: u32,
}

/// The minutes that have begun in a booking: a part of one counts as a whole one.
fn started_minutes(booking: &Booking) -> u32
    ensures { result ≡ started_minutes booking.now }
{
    (booking.end() - booking.start() + 59) / 60
}

/// The least pay of a booking at this rate.
pub(crate) fn least_pay(rate: u32, booking: &Booking) -> u64
    ensures { result ≡ least_pay rate booking.now }
{
    u64::from(rate) * u64::from(started_minutes(booking))
}

/// Whether a booking pays at least that.
pub(crate) fn is_paid(rate: u32, booking: &Booking) -> bool
    ensures { result ≡ is_paid rate booking.now }
{
    least_pay(rate, booking) <= booking.pay()
}
