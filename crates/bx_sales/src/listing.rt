//! The bookings of a day, with more after them.

ghost use Rattle.std.specs.Prelude.{◌≡◌, ◌++◌, ◌∷◌, [], not, true, false, map, length, replicate, ◌≤◌, ◌<◌, ◌+◌, Err, IfOk, OnOk, slice_set};
ghost use Rattle.bx_base.specs.Bookings.{row_at};
ghost use Rattle.bx_base.specs.declared.bookings.TheConstants.{MAX_BOOKINGS};
ghost use Rattle.bx_day.specs.Invariant.{is_refused};

use bx_base::{AddFault, Booking, Bookings};
use bx_day::Entry;
use std::alloc::{AllocError, Global};

/// The bookings of these entries, and one more.
pub(crate) fn rows_with(
    alloc: Global,
    entries: &[Entry],
    booking: Booking,
) -> Result<Bookings, AddFault>
    ensures rows { IfOk result (λ b. b ≡ map (λ e. e.booking) entries.now ++ booking ∷ []) }
    ensures full { result ≡ Err AddFault.Full → MAX_BOOKINGS ≤ length entries.now }
{
    let mut rows = Bookings::new(alloc);
    for index in 0..entries.len() {
        rows.push(entries[index].booking)?;
    }
    rows.push(booking)?;
    Ok(rows)
}

/// Which of these are accepted, and one more that is.
pub(crate) fn marks_with(alloc: Global, entries: &[Entry]) -> Result<Vec<bool>, AllocError>
    ensures { IfOk result (λ v. v.items ≡ map (λ e. not (is_refused e.standing)) entries.now ++ true ∷ []) }
{
    let mut marks = Vec::new(alloc);
    for index in 0..entries.len() {
        marks.push(!entries[index].standing.is_refused())?;
    }
    marks.push(true)?;
    Ok(marks)
}

/// The bookings of these entries. There have to be 16,000 at most, or this is told as memory that ran out.
pub(crate) fn rows_of(alloc: Global, entries: &[Entry]) -> Result<Bookings, AllocError>
    ensures { IfOk result (λ b. b ≡ map (λ e. e.booking) entries.now) }
{
    let mut rows = Bookings::new(alloc);
    for index in 0..entries.len() {
        if rows.push(entries[index].booking).is_err() {
            return Err(AllocError);
        }
    }
    Ok(rows)
}

/// Puts bookings after these.
fn put_all(all: &mut Bookings, rows: &Bookings) -> Result<(), AddFault>
    ensures rows { OnOk result (all.new ≡ all.old ++ rows.now) }
    ensures full { result ≡ Err AddFault.Full → MAX_BOOKINGS < length all.old + length rows.now }
{
    for index in 0..rows.len() {
        all.push(rows.nth(index))?;
    }
    Ok(())
}

/// The bookings of these entries, of which there have to be 16,000 at most, and more after them.
pub(crate) fn rows_and(
    alloc: Global,
    entries: &[Entry],
    rows: &Bookings,
) -> Result<Bookings, AddFault>
    ensures rows { IfOk result (λ b. b ≡ map (λ e. e.booking) entries.now ++ rows.now) }
    ensures full { result ≡ Err AddFault.Full → MAX_BOOKINGS < length entries.now + length rows.now }
{
    let Ok(mut all) = rows_of(alloc, entries) else {
        return Err(AddFault::Memory);
    };
    put_all(&mut all, rows)?;
    Ok(all)
}

/// The booking at a place, where another one stands in this place.
fn row_there(entries: &[Entry], index: usize, place: usize, booking: Booking) -> Booking
    requires { index < length entries.now }
    ensures { result ≡ row_at (slice_set (map (λ e. e.booking) entries.now) place booking) index }
{
    if index == place {
        booking
    } else {
        entries[index].booking
    }
}

/// The bookings of these entries, with another one in this place.
pub(crate) fn rows_changed(
    alloc: Global,
    entries: &[Entry],
    place: usize,
    booking: Booking,
) -> Result<Bookings, AllocError>
    ensures { IfOk result (λ b. b ≡ slice_set (map (λ e. e.booking) entries.now) place booking) }
{
    let mut rows = Bookings::new(alloc);
    for index in 0..entries.len() {
        if rows
            .push(row_there(entries, index, place, booking))
            .is_err()
        {
            return Err(AllocError);
        }
    }
    Ok(rows)
}

/// Which of these are accepted.
pub(crate) fn marks_of(alloc: Global, entries: &[Entry]) -> Result<Vec<bool>, AllocError>
    ensures { IfOk result (λ v. v.items ≡ map (λ e. not (is_refused e.standing)) entries.now) }
{
    let mut marks = Vec::new(alloc);
    for index in 0..entries.len() {
        let is_marked = !entries[index].standing.is_refused();
        marks.push(is_marked)?;
    }
    Ok(marks)
}

/// The same, and so many more that are.
pub(crate) fn marks_and(
    alloc: Global,
    entries: &[Entry],
    count: u16,
) -> Result<Vec<bool>, AllocError>
    ensures { IfOk result (λ v. v.items ≡ map (λ e. not (is_refused e.standing)) entries.now ++ replicate count true) }
{
    let mut all = marks_of(alloc, entries)?;
    for _ in 0..count {
        all.push(true)?;
    }
    Ok(all)
}

/// The same, but for the one in this place, which is not.
pub(crate) fn marks_without(
    alloc: Global,
    entries: &[Entry],
    place: usize,
) -> Result<Vec<bool>, AllocError>
    requires { place < length entries.now }
    ensures { IfOk result (λ v. v.items ≡ slice_set (map (λ e. not (is_refused e.standing)) entries.now) place false) }
{
    let mut marks = marks_of(alloc, entries)?;
    marks[place] = false;
    Ok(marks)
}
