//! How the bookings of a day were given up, by the numbers of their rows, as the log of the day tells it.

ghost use Rattle.std.specs.Prelude.{◌≡◌, IfOk, None, replicate};
ghost use Rattle.bx_events.specs.Told.{live_event_of};
ghost use Rattle.bx_sales.specs.Amending.{row_numbered};
ghost use Rattle.bx_sales.specs.GivenUps.{noted_row, noted_event, noted_of, none_given_up};

use bx_base::MAX_BOOKINGS;
use bx_day::GivenUp;
use bx_events::{Amendment, LiveEvent};
use bx_journal::number_on;
use std::alloc::{AllocError, Global};

/// The list of a day of which nothing was given up: a place for each number that a row may have, and the first one of no row.
pub fn none_given_up(alloc: Global) -> Result<Vec<Option<GivenUp>>, AllocError>
    ensures { IfOk result (λ v. v.items ≡ none_given_up) }
{
    none_of(alloc, MAX_BOOKINGS + 1)
}

/// So many places of which none tells anything.
fn none_of(alloc: Global, count: usize) -> Result<Vec<Option<GivenUp>>, AllocError>
    ensures { IfOk result (λ v. v.items ≡ replicate count None) }
{
    vec![in alloc; None; count]
}

/// The row that a line names, or 0.
fn row_on(line: &[u8]) -> u32
    ensures { result ≡ row_numbered line.now }
{
    number_on(line).unwrap_or(0)
}

/// Notes that the booking was given up so whose row a line names; a line that names none is noted nowhere.
fn note_row(given_up: &mut [Option<GivenUp>], line: &[u8], how: GivenUp)
    ensures { given_up.new ≡ noted_row given_up.old line.now how }
{
    let row = row_on(line) as usize;
    if row < given_up.len() {
        given_up[row] = Some(how);
    }
}

/// Notes in the list what an amendment gives up, by the line that the log has of it.
pub fn note(given_up: &mut [Option<GivenUp>], kind: Amendment, line: &[u8])
    ensures { given_up.new ≡ noted_of given_up.old kind line.now }
{
    match kind {
        Amendment::Cancelled => note_row(given_up, line, GivenUp::Cancelled),
        Amendment::Dropped => note_row(given_up, line, GivenUp::Dropped),
        Amendment::Sold | Amendment::SoldByRulesTwo | Amendment::Changed => {}
        Amendment::Delayed | Amendment::Out => {}
    }
}

/// The same of an event, where only what amends the plan gives a booking up.
pub fn note_event(given_up: &mut [Option<GivenUp>], event: LiveEvent<'_>)
    ensures { given_up.new ≡ noted_event given_up.old (live_event_of event.entry) }
{
    if let LiveEvent::Amended(kind, line) = event {
        note(given_up, kind, line);
    }
}
