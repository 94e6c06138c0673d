//! The bookings of each channel in the order of their starts.

ghost use Rattle.std.specs.Prelude.{◌≡◌, ◌<◌, ◌≤◌, ℕ, IfOk, length};
ghost use Rattle.std.specs.List.{AllByRecursion};
ghost use Rattle.bx_base.specs.declared.bookings.TheConstants.{MAX_BOOKINGS};
ghost use Rattle.bx_day.specs.Day.{entry_at};
ghost use Rattle.bx_day.specs.Invariant.{Pairs, Apart};
ghost use Rattle.bx_day.specs.Reading.{Seated};
ghost use Rattle.bx_day.specs.Linking.{AreStarts, AreByStart, AreLinks};

use crate::entry::Entry;
use std::alloc::{AllocError, Global};

/// The first booking of each channel, and for each booking the next one of its channel, by their indices.
#[derive(Drop)]
pub struct Links {
    pub first: [Option<u16>; 32],
    pub following: Vec<Option<u16>>,
}

/// The links of accepted bookings of which no two run at once on a channel, by one sort: from the last start to the
/// first, each comes before the one that was linked last on its channel.
pub(crate) fn linked(alloc: Global, entries: &[Entry]) -> Result<Links, AllocError>
    requires few { length entries.now ≤ MAX_BOOKINGS }
    requires seated { AllByRecursion Seated entries.now }
    requires apart { Pairs Apart entries.now }
    requires ordered { (i : ℕ) → i < length entries.now → (entry_at entries.now i).booking.start < (entry_at entries.now i).booking.end }
    ensures { IfOk result (λ l. AreLinks entries.now l.first l.following.items) }
{
    let order = by_start(alloc, entries)?;
    let mut first = [None; 32];
    let mut following = vec![in alloc; None; entries.len()]?;
    for k in 0..order.len() {
        let (_, index) = order[order.len() - 1 - k];
        let channel = entries[index as usize].channel as usize;
        following[index as usize] = first[channel];
        first[channel] = Some(index);
    }
    Ok(Links { first, following })
}

/// The start and the index of each accepted booking, in the order of the starts.
fn by_start(alloc: Global, entries: &[Entry]) -> Result<Vec<(u32, u16)>, AllocError>
    requires { length entries.now ≤ MAX_BOOKINGS }
    ensures { IfOk result (λ v. AreByStart entries.now v.items) }
{
    let mut order = starts(alloc, entries)?;
    order.sort_unstable();
    Ok(order)
}

/// The same in the order of the bookings.
fn starts(alloc: Global, entries: &[Entry]) -> Result<Vec<(u32, u16)>, AllocError>
    requires { length entries.now ≤ MAX_BOOKINGS }
    ensures { IfOk result (λ v. AreStarts entries.now (length entries.now) v.items) }
{
    let mut order = Vec::new(alloc);
    for index in 0..entries.len() as u16 {
        let entry = entries[index as usize];
        if !entry.standing.is_refused() {
            order.push((entry.booking.start(), index))?;
        }
    }
    Ok(order)
}
