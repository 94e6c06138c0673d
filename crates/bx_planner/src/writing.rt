//! Quotes, written.

ghost use Rattle.std.specs.Prelude.{◌≡◌, ◌≤◌, ◌<◌, ◌-◌, ◌↔◌, ℕ, Ok, Err, IfErr, OnOk, length};
ghost use Rattle.std.specs.Io.KnownBytes.{Appends};
ghost use Rattle.bx_devices.specs.Devices.{writing_of};
ghost use Rattle.bx_devices.specs.Watching.{device_of};
ghost use Rattle.bx_base.specs.PlanParts.{parts_of};
ghost use Rattle.bx_check.specs.Check.{IsOutcome};
ghost use Rattle.bx_planner.specs.Quotes.{IsRowOfPlan, IsAcceptedRow, IsFirstFull, IsRefusedAsFull};
ghost use Rattle.bx_planner.specs.Texts.{quote_text, explained_text, refused_text};
ghost use Rattle.bx_planner.specs.Writing.{IsQuoteRefusal, IsExplainRefusal, IsListRefusal, IsExplanationTold, IsQuoteTold};
ghost use Rattle.bx_planner.specs.QuotesInside.{IsWriteFault};
ghost use Rattle.bx_base.specs.declared.bookings.TheConstants.{MAX_BOOKINGS};

use crate::answer::NoQuote;
use crate::quoting::{explain, quote};
use crate::texts::{explained_text, quote_text, refused_text};
use bx_base::{Booking, Plan};
use bx_devices::{Watched, write_octets};
use std::alloc::Global;
use std::io::Write;
use thiserror::Error;

/// Why a quote was not written.
#[derive(Clone, Copy, Debug, PartialEq, Eq, Error)]
pub enum QuoteFault {
    /// There is none.
    #[error(transparent)]
    Quote(NoQuote),
    /// A write failed, or took none of what it was given: a prefix of the lines was written.
    #[error("F2 CannotWrite")]
    WriteFailed,
}

/// Writes what a booking that is not in the plan has to pay to be taken: `its seconds cost`, `taken above`, `instead of`
/// and `besides`, a line each. The plan has to be proved for its own bookings and channels. Faults are those of `quote`, before
/// which nothing is written, and `WriteFailed`.
pub fn write_quote<W: Write>(
    alloc: Global,
    plan: &Plan,
    booking: &Booking,
    output: &mut Watched<W>,
) -> Result<(), QuoteFault>
    requires proved { IsOutcome plan.now.bookings plan.now.channels (parts_of plan.now) (Ok plan.now.total) }
    ensures told { OnOk result (IsQuoteTold (parts_of plan.now) booking.now (writing_of W.contents output.old output.new)) }
    ensures refused { IfErr result (IsQuoteRefusal (parts_of plan.now) booking.now (writing_of W.contents output.old output.new)) }
    ensures too_many { (result ≡ Err (QuoteFault.Quote NoQuote.TooMany)) ↔ (MAX_BOOKINGS ≤ length plan.now.bookings) }
    ensures no_room { (t : ℕ) → (result ≡ Err (QuoteFault.Quote (NoQuote.NoChannel t))) ↔ IsFirstFull (parts_of plan.now) booking.now t }
{
    let quote = match quote(alloc, plan, booking) {
        Ok(quote) => quote,
        Err(fail) => return Err(QuoteFault::Quote(fail)),
    };
    match quote_text(alloc, &quote) {
        Ok(text) => put(output, &text),
        Err(_) => Err(QuoteFault::Quote(NoQuote::Memory)),
    }
}

/// Writes what a row that the plan refuses has to pay to be taken: the same after a line `row`, its name, `pays`, and what it
/// pays. The plan has to be proved for its own bookings and channels. Faults are those of `explain`, before which nothing is
/// written, and `WriteFailed`.
pub fn write_explained<W: Write>(
    alloc: Global,
    plan: &Plan,
    row: u16,
    output: &mut Watched<W>,
) -> Result<(), QuoteFault>
    requires proved { IsOutcome plan.now.bookings plan.now.channels (parts_of plan.now) (Ok plan.now.total) }
    ensures told { OnOk result (IsExplanationTold (parts_of plan.now) row (writing_of W.contents output.old output.new)) }
    ensures refused { IfErr result (IsExplainRefusal (parts_of plan.now) row (writing_of W.contents output.old output.new)) }
    ensures row_of { OnOk result (IsRowOfPlan (parts_of plan.now) row) }
    ensures no_row { (result ≡ Err (QuoteFault.Quote NoQuote.NoSuchRow)) ↔ (¬ IsRowOfPlan (parts_of plan.now) row) }
    ensures accepted { (named : ℕ) → (result ≡ Err (QuoteFault.Quote (NoQuote.Accepted named))) ↔ IsAcceptedRow (parts_of plan.now) row named }
    ensures no_room { (t : ℕ) → (result ≡ Err (QuoteFault.Quote (NoQuote.NoChannel t))) ↔ IsRefusedAsFull (parts_of plan.now) row t }
{
    let Some(booking) = plan.bookings.get(row) else {
        return Err(QuoteFault::Quote(NoQuote::NoSuchRow));
    };
    let quote = match explain(alloc, plan, row) {
        Ok(quote) => quote,
        Err(fail) => return Err(QuoteFault::Quote(fail)),
    };
    match explained_text(alloc, row, booking.pay(), &quote) {
        Ok(text) => put(output, &text),
        Err(_) => Err(QuoteFault::Quote(NoQuote::Memory)),
    }
}

/// Writes a line for each row that the plan refuses, its name, `pays`, what it pays, `of`, and what its seconds cost at the
/// plan's prices; then a line `refused`, how many these are, `of`, and how many rows the plan has. The plan has to be proved for
/// its own bookings and channels. Faults are `Memory`, before which nothing is written, and `WriteFailed`.
pub fn write_refused<W: Write>(
    alloc: Global,
    plan: &Plan,
    output: &mut Watched<W>,
) -> Result<(), QuoteFault>
    requires proved { IsOutcome plan.now.bookings plan.now.channels (parts_of plan.now) (Ok plan.now.total) }
    ensures told { OnOk result (Appends (W.contents (device_of output.old)) (W.contents (device_of output.new)) (refused_text (parts_of plan.now))) }
    ensures refused { IfErr result (IsListRefusal (parts_of plan.now) (writing_of W.contents output.old output.new)) }
{
    match refused_text(alloc, plan) {
        Ok(text) => put(output, &text),
        Err(_) => Err(QuoteFault::Quote(NoQuote::Memory)),
    }
}

/// Writes a text.
fn put<W: Write>(output: &mut Watched<W>, text: &[u8]) -> Result<(), QuoteFault>
    ensures all { OnOk result (Appends (W.contents (device_of output.old)) (W.contents (device_of output.new)) text.now) }
    ensures fault { IfErr result (IsWriteFault (writing_of W.contents output.old output.new) text.now) }
{
    match write_octets(output, text) {
        Ok(()) => Ok(()),
        Err(_) => Err(QuoteFault::WriteFailed),
    }
}
