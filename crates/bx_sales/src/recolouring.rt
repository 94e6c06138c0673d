//! All that waits, coloured anew on the channels that are left.

ghost use Rattle.std.specs.Prelude.{◌≡◌, OnOk, OnErr, Err};
ghost use Rattle.bx_sales.specs.GoingOn.{FitsBeside};
ghost use Rattle.bx_sales.specs.Recolouring.{IsRecolouredBeside, HasNoColouring};
ghost use Rattle.bx_sales.specs.Selling.{rows_of, marks_of};

use crate::changing::{NoChange, go_on_changed};
use crate::listing::{marks_of, rows_of};
use bx_base::ChannelSet;
use bx_day::Exchange;
use std::alloc::Global;

/// Colours all bookings anew that wait for their starts, first fit on the channels that are left, beside those that have begun, which keep their
/// channels. So a channel may be taken out of service, and what was planned on it moves. `NoChannel` just where at some moment more run on the channels
/// that are left, or wait for their starts, than there are of them: then there is no such colouring. A refusal changes nothing.
pub fn recolour(alloc: Global, exchange: &mut Exchange, left: ChannelSet) -> Result<(), NoChange>
    ensures recoloured { OnOk result (IsRecolouredBeside left exchange.old exchange.new) }
    ensures kept { OnErr result (exchange.new ≡ exchange.old) }
    ensures no_channel { result ≡ Err NoChange.NoChannel → HasNoColouring left exchange.old }
    ensures enough { result ≡ Err NoChange.NoChannel → ¬ FitsBeside left exchange.old (rows_of exchange.old) (marks_of exchange.old) }
    ensures booking { ¬ (result ≡ Err NoChange.NoBooking) }
    ensures late { ¬ (result ≡ Err NoChange.Late) }
{
    // Read for the prover alone, which learns from it what is true of a day.
    let _moment = exchange.moment();
    let Ok(bookings) = rows_of(alloc, exchange.entries()) else {
        return Err(NoChange::Memory);
    };
    let Ok(marks) = marks_of(alloc, exchange.entries()) else {
        return Err(NoChange::Memory);
    };
    go_on_changed(alloc, exchange, left, bookings, &marks)
}
