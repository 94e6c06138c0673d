//! What is kept of all that has yet to begin, where a channel is lost.

ghost use Rattle.std.specs.Prelude.{◌≡◌, IfOk, length, map};
ghost use Rattle.bx_market.specs.Leaving.{IsBestKept};
ghost use Rattle.bx_market.specs.LeavingSteps.{begun_rows, ahead_marks, with_begun, AreAhead};
ghost use Rattle.bx_sales.specs.Selling.{marks_of};

use crate::choosing::{add, best_beside, has_begun_on, is_ahead};
use bx_base::{Bookings, ChannelSet};
use bx_day::{Entry, Exchange};
use std::alloc::{AllocError, Global};

/// All that has begun on these channels, each as a booking that every plan has to hold.
fn begun_rows(
    alloc: Global,
    entries: &[Entry],
    moment: u32,
    channels: ChannelSet,
) -> Result<Bookings, AllocError>
    ensures { IfOk result (λ rows. rows ≡ begun_rows channels moment entries.now) }
{
    let mut rows = Bookings::new(alloc);
    for entry in entries {
        if has_begun_on(entry, moment, channels) {
            add(&mut rows, entry.booking.as_must())?;
        }
    }
    Ok(rows)
}

/// The bookings of these entries.
fn bookings_of(alloc: Global, entries: &[Entry]) -> Result<Bookings, AllocError>
    ensures { IfOk result (λ rows. rows ≡ map (λ e. e.booking) entries.now) }
{
    let mut rows = Bookings::new(alloc);
    for entry in entries {
        add(&mut rows, entry.booking)?;
    }
    Ok(rows)
}

/// Which of them wait for starts that are yet to come.
fn ahead_marks(alloc: Global, entries: &[Entry], moment: u32) -> Result<Vec<bool>, AllocError>
    ensures { IfOk result (λ v. v.items ≡ ahead_marks moment entries.now) }
{
    let mut marks = Vec::new(alloc);
    for entry in entries {
        marks.push(is_ahead(entry, moment))?;
    }
    Ok(marks)
}

/// Which bookings of a day that are to come are kept, where these channels are left: all, where they fit beside what has begun; else those that pay most.
/// `AllocError` where memory runs out.
pub(crate) fn keep_best(
    alloc: Global,
    exchange: &Exchange,
    left: ChannelSet,
) -> Result<Vec<bool>, AllocError>
    ensures count { IfOk result (λ v. length v.items ≡ length exchange.now.entries) }
    ensures among { IfOk result (λ v. AreAhead exchange.now.moment exchange.now.entries v.items) }
    ensures best { IfOk result (λ v. IsBestKept left (marks_of exchange.now) exchange.now (with_begun exchange.now.moment exchange.now.entries v.items)) }
{
    let moment = exchange.moment();
    let rows = bookings_of(alloc, exchange.entries())?;
    let held = begun_rows(alloc, exchange.entries(), moment, left)?;
    let ahead = ahead_marks(alloc, exchange.entries(), moment)?;
    best_beside(alloc, held, &rows, &ahead, left)
}
