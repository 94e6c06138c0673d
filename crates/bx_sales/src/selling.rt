//! One booking that is sold.

ghost use Rattle.std.specs.Prelude.{◌≡◌, ◌≤◌, ◌↔◌, OnOk, OnErr, Err, length};
ghost use Rattle.bx_base.specs.declared.bookings.TheConstants.{MAX_BOOKINGS};
ghost use Rattle.bx_day.specs.Changed.{AreReferredByRow};
ghost use Rattle.bx_sales.specs.GoingOn.{FitsBeside};
ghost use Rattle.bx_sales.specs.Selling.{rows_of, marks_of, rows_with, marks_with, IsSold};

use crate::going_on::{NotGoneOn, go_on_beside};
use crate::listing::{marks_with, rows_with};
use bx_base::{AddFault, Booking, ChannelSet};
use bx_day::Exchange;
use std::alloc::Global;
use thiserror::Error;

/// Why a booking was not sold.
#[derive(Clone, Copy, Debug, PartialEq, Eq, Error)]
pub enum NoSale {
    /// It starts by now.
    #[error("Late")]
    Late,
    /// The day has 16,000 bookings.
    #[error("Full")]
    Full,
    /// At some moment it and what is promised are more than there are channels.
    #[error("NoChannel")]
    NoChannel,
    /// The day took over from another, and has bookings whose references are not their rows.
    #[error("TookOver")]
    TookOver,
    /// Memory ran out.
    #[error("Memory")]
    Memory,
}

/// Sells a booking of the day that runs, where it starts later and fits on the channels beside all that is promised: it stands
/// after the bookings of the day, as accepted; what has begun keeps its channel, and all others are coloured first fit beside it. A refusal changes
/// nothing. `Late` is tested first.
pub fn sell(
    alloc: Global,
    exchange: &mut Exchange,
    channels: ChannelSet,
    booking: &Booking,
) -> Result<(), NoSale>
    ensures sold { OnOk result (IsSold channels booking.now exchange.old exchange.new) }
    ensures following { OnOk result ((rows_of exchange.new ≡ rows_with exchange.old booking.now) × (marks_of exchange.new ≡ marks_with exchange.old)) }
    ensures kept { OnErr result (exchange.new ≡ exchange.old) }
    ensures late { (result ≡ Err NoSale.Late) ↔ (booking.now.start ≤ exchange.old.moment) }
    ensures full { result ≡ Err NoSale.Full → MAX_BOOKINGS ≤ length exchange.old.entries }
    ensures took_over { result ≡ Err NoSale.TookOver → ¬ AreReferredByRow exchange.old.entries }
    ensures no_channel { result ≡ Err NoSale.NoChannel → ¬ FitsBeside channels exchange.old (rows_with exchange.old booking.now) (marks_with exchange.old) }
    ensures fitting { OnOk result (FitsBeside channels exchange.old (rows_with exchange.old booking.now) (marks_with exchange.old)) }
{
    if booking.start() <= exchange.moment() {
        return Err(NoSale::Late);
    }
    let bookings = match rows_with(alloc, exchange.entries(), *booking) {
        Ok(bookings) => bookings,
        Err(AddFault::Full) => return Err(NoSale::Full),
        Err(AddFault::Memory) => return Err(NoSale::Memory),
    };
    let Ok(marks) = marks_with(alloc, exchange.entries()) else {
        return Err(NoSale::Memory);
    };
    match go_on_beside(alloc, exchange, channels, bookings, &marks) {
        Ok(()) => Ok(()),
        Err(NotGoneOn::NoChannel) => Err(NoSale::NoChannel),
        Err(NotGoneOn::TookOver) => Err(NoSale::TookOver),
        Err(NotGoneOn::Memory) => Err(NoSale::Memory),
    }
}
