//! How many refused calls would run at each moment.

ghost use Rattle.std.specs.Prelude.{◌≤◌};

use crate::barless::Barless;
use crate::sheet::{BAND, LEFT, Sheet, WIDTH};
use bx_base::Plan;
use std::alloc::{AllocError, Global};

/// The moments at which one more or one fewer of the refused calls would run, in their order; where both stand at one
/// moment, those that end first. `true` is one more.
fn changes_of(alloc: Global, plan: &Plan) -> Result<Vec<(u32, bool)>, AllocError> {
    let mut changes = Vec::new(alloc);
    for index in 0..plan.bookings.len() {
        if plan.assigned[index as usize].is_none() {
            let booking = plan.bookings.nth(index);
            changes.push((booking.start(), true))?;
            changes.push((booking.end(), false))?;
        }
    }
    changes.sort_unstable();
    Ok(changes)
}

/// How many run after a change.
fn level_after(level: u64, rises: bool) -> u64 {
    if rises {
        level.saturating_add(1)
    } else {
        level.saturating_sub(1)
    }
}

/// The most that run at once.
fn most_of(changes: &[(u32, bool)]) -> u64 {
    let mut level = 0;
    let mut most = 0;
    for (_, rises) in changes {
        level = level_after(level, *rises);
        if most < level {
            most = level;
        }
    }
    most
}

/// Adds the words over the band of the refused calls, the band's edge and its head.
fn open_refused(piece: &mut Barless, sheet: &Sheet, most: u64) -> Result<(), AllocError> {
    let top = sheet.refused_top();
    piece.add_number(b"<text x='56' y='", top - 6)?;
    piece.add_number(b"'>Refused calls at each moment, ", most)?;
    piece.add(b" at most</text>\n")?;
    add_scale(piece, top, most)?;
    open_band(piece, sheet, top, if most == 0 { 1 } else { most })
}

/// Adds how many run after each change.
fn add_levels(piece: &mut Barless, changes: &[(u32, bool)], most: u64) -> Result<(), AllocError> {
    piece.add_number(b"<path class='refused' d='M0 ", most)?;
    let mut level = 0;
    for (moment, rises) in changes {
        level = level_after(level, *rises);
        piece.add_number(b"H", u64::from(*moment))?;
        piece.add_number(b"V", most.saturating_sub(level))?;
    }
    piece.add(b"Z'/>\n</svg>\n")
}

/// Adds the band of how many calls are refused at each moment.
pub(crate) fn add_refused(
    alloc: Global,
    piece: &mut Barless,
    plan: &Plan,
    sheet: &Sheet,
) -> Result<(), AllocError> {
    let changes = changes_of(alloc, plan)?;
    let most = most_of(&changes);
    open_refused(piece, sheet, most)?;
    add_levels(piece, &changes, most)
}

/// Adds the edge of a band and the numbers beside it.
pub(crate) fn add_scale(piece: &mut Barless, top: u64, most: u64) -> Result<(), AllocError>
    requires { top ≤ 900 }
{
    piece.add_number(b"<path class='edge' d='M56 ", top)?;
    piece.add_number(b"V", top + BAND)?;
    piece.add(b"H1176'/>\n")?;
    piece.add_number(b"<text class='small right' x='50' y='", top + 8)?;
    piece.add_number(b"'>", most)?;
    piece.add_number(b"</text><text class='small right' x='50' y='", top + BAND)?;
    piece.add(b"'>0</text>\n")
}

/// Adds the head of a band whose units are the seconds of the day and so many steps.
pub(crate) fn open_band(
    piece: &mut Barless,
    sheet: &Sheet,
    top: u64,
    steps: u64,
) -> Result<(), AllocError> {
    piece.add_number(b"<svg x='", LEFT)?;
    piece.add_number(b"' y='", top)?;
    piece.add_number(b"' width='", WIDTH)?;
    piece.add_number(b"' height='", BAND)?;
    piece.add_number(b"' viewBox='0 0 ", u64::from(sheet.seconds))?;
    piece.add_number(b" ", steps)?;
    piece.add(b"' preserveAspectRatio='none'>\n")
}
