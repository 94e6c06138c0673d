//! The bookings of one day.

ghost use Rattle.std.specs.Prelude.{◌≡◌, ◌≤◌, ◌<◌, ℕ, ◌-◌, ◌↔◌, ◌++◌, ◌∷◌, [], length, OnOk, OnErr, IfOk, IfSome, IsSome, IsTrue};
ghost use Rattle.bx_base.specs.Bookings.{IsBooking, AreBookings, row_at};
ghost use Rattle.bx_base.specs.declared.bookings.TheConstants.{MAX_BOOKINGS};

use crate::booking::Booking;
use std::alloc::{AllocError, Global};
use std::marker::Model;
use thiserror::Error;

/// The most bookings that a day may have.
pub const MAX_BOOKINGS: usize = 16000;

/// Bookings in the order of their rows, which are named 1, 2, ..: at most 16,000. Two equal rows are two bookings.
#[derive(Drop)]
pub struct Bookings {
    rows: Vec<Booking>,
}

/// Why a booking could not be added.
#[derive(Clone, Copy, Debug, PartialEq, Eq, Error)]
pub enum AddFault {
    /// There are 16,000 already.
    #[error("Full")]
    Full,
    /// Memory ran out.
    #[error("Memory")]
    Memory,
}

impl Model for Bookings {
    ghost use Rattle.std.specs.Prelude.{List};
    ghost use Rattle.bx_base.specs.Bookings.{Row, AreBookings};

    ghost Value = { List Row };

    ghost view = { λ b. b.rows.items };

    ghost invariant = { λ b. AreBookings b.rows.items };
}

impl Bookings {
    /// No bookings yet. Takes no memory.
    pub fn new(alloc: Global) -> Bookings
        ensures { result ≡ [] }
    {
        Bookings {
            rows: Vec::new(alloc),
        }
    }

    /// Adds a booking as the last row. A fault changes nothing: `Full`, which is tested first, where there are 16,000 already, and
    /// `Memory` where memory runs out.
    pub fn push(&mut self, booking: Booking) -> Result<(), AddFault>
        ensures ok { OnOk result (self.new ≡ self.old ++ booking ∷ []) }
        ensures err { OnErr result (self.new ≡ self.old) }
        ensures full { (result ≡ Err AddFault.Full) ↔ (MAX_BOOKINGS ≤ length self.old) }
    {
        if self.rows.len() >= MAX_BOOKINGS {
            return Err(AddFault::Full);
        }
        // Read for the prover alone, which learns a limit from it.
        let _start = booking.start();
        match self.rows.push(booking) {
            Ok(()) => Ok(()),
            Err(_) => Err(AddFault::Memory),
        }
    }

    /// How many rows there are: 0 to 16,000.
    pub fn len(&self) -> u16
        ensures count { result ≡ length self.now }
        ensures bookings { AreBookings self.now }
    {
        self.rows.len() as u16
    }

    /// The booking of a row, where rows are named 1, 2, ..
    pub fn get(&self, row: u16) -> Option<Booking>
        ensures exactly { IsSome result ↔ ((1 ≤ row) × (row ≤ length self.now)) }
        ensures value { IfSome result (λ b. b ≡ row_at self.now (row - 1)) }
        ensures limits { IfSome result IsBooking }
    {
        if row == 0 || row as usize > self.rows.len() {
            return None;
        }
        Some(self.nth(row - 1))
    }

    /// The booking at a place of the list, counted from 0. There has to be one.
    pub fn nth(&self, index: u16) -> Booking
        requires { index < length self.now }
        ensures value { result ≡ row_at self.now index }
        ensures limits { IsBooking result }
    {
        let booking = self.rows[index as usize];
        // Read for the prover alone, which learns a limit from it.
        let _start = booking.start();
        booking
    }

    /// Whether both have the same bookings in the same order.
    pub fn same(&self, other: &Bookings) -> bool
        ensures { IsTrue result ↔ (self.now ≡ other.now) }
    {
        self.rows == other.rows
    }

    /// The same bookings again. `AllocError` where memory runs out.
    pub fn copy(&self) -> Result<Bookings, AllocError>
        ensures { IfOk result (λ b. b ≡ self.now) }
    {
        Ok(Bookings {
            rows: self.rows.clone()?,
        })
    }
}
