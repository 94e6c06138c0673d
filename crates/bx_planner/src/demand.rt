//! The bookings that a plan is asked for.

ghost use Rattle.std.specs.Prelude.{◌≡◌, ◌≤◌, ◌<◌, IfOk, length};
ghost use Rattle.bx_base.specs.Bookings.{IsBooking, row_at};
ghost use Rattle.bx_planner.specs.Amending.{promised_in_plan, amended};
ghost use Rattle.bx_base.specs.declared.bookings.TheConstants.{MAX_BOOKINGS};
ghost use Rattle.bx_colour.specs.declared.load.TheConstants.{MAX_LOAD};

use bx_base::{Booking, Bookings, Plan};
use std::alloc::{AllocError, Global};
use std::marker::Model;

/// Bookings alone, or more bookings after those of an earlier plan, which have to be held just where it accepted them.
#[derive(Drop)]
pub(crate) struct Demand<'a> {
    earlier: Option<&'a Plan>,
    more: &'a Bookings,
}

impl<'a> Model for Demand<'a> {
    ghost use Rattle.std.specs.Prelude.{List};
    ghost use Rattle.bx_base.specs.Bookings.{Row};
    ghost use Rattle.bx_planner.specs.Inside.{demanded};

    ghost Value = { List Row };

    ghost view = { λ d. demanded d.earlier d.more.now };
}

impl<'a> Demand<'a> {
    /// The bookings of a plan, and more.
    pub(crate) fn of(earlier: &'a Plan, more: &'a Bookings) -> Demand<'a>
        ensures { result ≡ amended earlier.now.bookings earlier.now.assigned.items more.now }
    {
        Demand {
            earlier: Some(earlier),
            more,
        }
    }

    /// Bookings alone, with no plan before them.
    pub(crate) fn fresh(bookings: &'a Bookings) -> Demand<'a>
        ensures { result ≡ bookings.now }
    {
        Demand {
            earlier: None,
            more: bookings,
        }
    }

    /// How many there are: 0 to 32,000.
    pub(crate) fn len(&self) -> u16
        ensures count { result ≡ length self.now }
        ensures limit { result ≤ MAX_LOAD }
    {
        match self.earlier {
            Some(plan) => plan.bookings.len() + self.more.len(),
            None => self.more.len(),
        }
    }

    /// The booking at a place of the list, counted from 0.
    pub(crate) fn nth(&self, index: u16) -> Booking
        requires { index < length self.now }
        ensures { result ≡ row_at self.now index }
    {
        let Some(plan) = self.earlier else {
            return self.more.nth(index);
        };
        let earlier = plan.bookings.len();
        if index >= earlier {
            return self.more.nth(index - earlier);
        }
        promised(
            &plan.bookings.nth(index),
            plan.assigned[index as usize].is_some(),
        )
    }

    /// All of them as one list.
    pub(crate) fn bookings(&self, alloc: Global) -> Result<Bookings, AllocError>
        requires { length self.now ≤ MAX_BOOKINGS }
        ensures { IfOk result (λ b. b ≡ self.now) }
    {
        let mut bookings = Bookings::new(alloc);
        for index in 0..self.len() {
            match bookings.push(self.nth(index)) {
                Ok(()) => {}
                Err(_) => return Err(AllocError),
            }
        }
        Ok(bookings)
    }
}

/// The booking as it is planned anew: it has to be held just where it was accepted.
fn promised(booking: &Booking, accepted: bool) -> Booking
    ensures { result ≡ promised_in_plan booking.now accepted }
{
    let (start, end) = (booking.start(), booking.end());
    let Some(free) = Booking::new(start, end, booking.pay(), booking.number()) else {
        unreachable!()
    };
    let marked = if accepted { free.as_must() } else { free };
    if booking.is_inward() {
        marked.as_inward()
    } else {
        marked
    }
}
