//! One booking.

ghost use Rattle.std.specs.Prelude.{◌≡◌, ◌↔◌, IsTrue, IsSome, IfSome, false, true};
ghost use Rattle.bx_base.specs.Bookings.{IsBooking, Overlap, is_running, row_of};

use bx_channels::Number;
use std::marker::Model;

/// The last moment at which a booking may end, in seconds of the day.
pub const MAX_MOMENT: u32 = 200_000;

/// The most that a booking pays.
pub const MAX_PAY: u64 = 1_000_000_000;

/// A call that someone wants for a part of the day, and what it pays. It runs from its start, in seconds of
/// the day, until just before its end.
#[derive(Clone, Copy, Debug, PartialEq, Eq)]
pub struct Booking {
    start: u32,
    end: u32,
    pay: u64,
    number: Number,
    must: bool,
    inward: bool,
}

impl Model for Booking {
    ghost use Rattle.bx_base.specs.Bookings.{Row, IsBooking, row_of};

    ghost Value = { Row };

    ghost view = { λ b. row_of b.start b.end b.pay b.number b.must b.inward };

    ghost invariant = { λ b. IsBooking (row_of b.start b.end b.pay b.number b.must b.inward) };

    ghost inverse = { λ r. record { start = r.start; end = r.end; pay = r.pay; number = r.number; must = r.must; inward = r.inward } };
}

impl Booking {
    /// A booking with `start < end <= 200000`, in seconds of the day, and a pay of 1 to 1,000,000,000. A plan
    /// is free to leave it out, and it is called outward, from the exchange.
    pub fn new(start: u32, end: u32, pay: u64, number: Number) -> Option<Booking>
        ensures exactly { IsSome result ↔ IsBooking (row_of start end pay number false false) }
        ensures value { IfSome result (λ b. b ≡ row_of start end pay number false false) }
    {
        // Read for the prover alone, which learns a limit from it.
        let _digits = number.digits();
        if start < end && end <= MAX_MOMENT && pay >= 1 && pay <= MAX_PAY {
            Some(Booking {
                start,
                end,
                pay,
                number,
                must: false,
                inward: false,
            })
        } else {
            None
        }
    }

    /// The first second at which it runs.
    pub fn start(&self) -> u32
        ensures value { result ≡ self.now.start }
        ensures booking { IsBooking self.now }
    {
        self.start
    }

    /// The first second at which it runs no more.
    pub fn end(&self) -> u32
        ensures value { result ≡ self.now.end }
        ensures booking { IsBooking self.now }
    {
        self.end
    }

    /// What it pays where it is accepted.
    pub fn pay(&self) -> u64
        ensures value { result ≡ self.now.pay }
        ensures booking { IsBooking self.now }
    {
        self.pay
    }

    /// The called number.
    pub fn number(&self) -> Number
        ensures { result ≡ self.now.number }
    {
        self.number
    }

    /// Whether each plan has to hold it: whether it is mandatory.
    pub fn is_must(&self) -> bool
        ensures { result ≡ self.now.must }
    {
        self.must
    }

    /// Whether the far end makes the call.
    pub fn is_inward(&self) -> bool
        ensures { result ≡ self.now.inward }
    {
        self.inward
    }

    /// The same booking, which each plan has to hold.
    pub fn as_must(mut self) -> Booking
        ensures { result ≡ record self { must = true } }
    {
        self.must = true;
        self
    }

    /// The same booking, called by the far end.
    pub fn as_inward(mut self) -> Booking
        ensures { result ≡ record self { inward = true } }
    {
        self.inward = true;
        self
    }

    /// Whether it runs at this second.
    pub fn runs_at(&self, moment: u32) -> bool
        ensures { result ≡ is_running self.now moment }
    {
        self.start <= moment && moment < self.end
    }

    /// Whether some second has both running.
    pub fn overlaps(&self, other: &Booking) -> bool
        ensures { IsTrue result ↔ Overlap self.now other.now }
    {
        self.start < other.end && other.start < self.end
    }
}
