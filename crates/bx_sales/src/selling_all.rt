//! Bookings that are sold in one step.

ghost use Rattle.std.specs.Prelude.{◌≡◌, ◌<◌, ◌+◌, ◌↔◌, OnOk, OnErr, IsTrue, Err, length};
ghost use Rattle.bx_base.specs.declared.bookings.TheConstants.{MAX_BOOKINGS};
ghost use Rattle.bx_day.specs.Changed.{AreReferredByRow};
ghost use Rattle.bx_sales.specs.GoingOn.{FitsBeside};
ghost use Rattle.bx_sales.specs.Selling.{rows_of, marks_of};
ghost use Rattle.bx_sales.specs.SellingAll.{AreLater, rows_and, marks_and};
ghost use Rattle.bx_sales.specs.Sold.{AreSoldInTurn};

use crate::going_on::{NotGoneOn, go_on_beside};
use crate::listing::{marks_and, rows_and};
use crate::selling::NoSale;
use bx_base::{AddFault, Bookings, ChannelSet};
use bx_day::Exchange;
use std::alloc::Global;

/// Whether each of these bookings starts after this moment.
fn are_later(rows: &Bookings, moment: u32) -> bool
    ensures { IsTrue result ↔ AreLater moment rows.now }
{
    for index in 0..rows.len() {
        if rows.nth(index).start() <= moment {
            return false;
        }
    }
    true
}

/// Sells bookings of the day that runs in one step, as `sell` would one after another, where each starts later and all fit on the channels beside all
/// that is promised: they stand after the bookings of the day, as accepted, and what has not begun is coloured first fit, once. None of them is sold where
/// not all are: a refusal changes nothing. `Late`, where one starts by now, is tested first. Time n log n in the bookings of the day with these.
pub fn sell_all(
    alloc: Global,
    exchange: &mut Exchange,
    channels: ChannelSet,
    rows: &Bookings,
) -> Result<(), NoSale>
    ensures sold { OnOk result (AreSoldInTurn channels rows.now exchange.old exchange.new) }
    ensures following { OnOk result ((rows_of exchange.new ≡ rows_and exchange.old rows.now) × (marks_of exchange.new ≡ marks_and exchange.old rows.now)) }
    ensures kept { OnErr result (exchange.new ≡ exchange.old) }
    ensures late { (result ≡ Err NoSale.Late) ↔ (¬ AreLater exchange.old.moment rows.now) }
    ensures full { result ≡ Err NoSale.Full → MAX_BOOKINGS < length exchange.old.entries + length rows.now }
    ensures took_over { result ≡ Err NoSale.TookOver → ¬ AreReferredByRow exchange.old.entries }
    ensures no_channel { result ≡ Err NoSale.NoChannel → ¬ FitsBeside channels exchange.old (rows_and exchange.old rows.now) (marks_and exchange.old rows.now) }
{
    if !are_later(rows, exchange.moment()) {
        return Err(NoSale::Late);
    }
    let count = rows.len();
    if count == 0 {
        return Ok(());
    }
    let bookings = match rows_and(alloc, exchange.entries(), rows) {
        Ok(bookings) => bookings,
        Err(AddFault::Full) => return Err(NoSale::Full),
        Err(AddFault::Memory) => return Err(NoSale::Memory),
    };
    let Ok(marks) = marks_and(alloc, exchange.entries(), count) else {
        return Err(NoSale::Memory);
    };
    // Read for the prover alone, which learns a limit from it.
    let _channels = channels.count();
    match go_on_beside(alloc, exchange, channels, bookings, &marks) {
        Ok(()) => Ok(()),
        Err(NotGoneOn::NoChannel) => Err(NoSale::NoChannel),
        Err(NotGoneOn::TookOver) => Err(NoSale::TookOver),
        Err(NotGoneOn::Memory) => Err(NoSale::Memory),
    }
}
