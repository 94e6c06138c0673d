//! Where each call begins.

ghost use Rattle.std.specs.Prelude.{◌≤◌};

use crate::barless::Barless;
use crate::bars::lane_of;
use crate::sheet::{LANE, Sheet, TOP};
use bx_base::Plan;
use std::alloc::AllocError;

/// Adds a thin line at the start of each bar, so that calls back to back stay apart also where a viewer draws no outlines.
pub(crate) fn add_starts(
    piece: &mut Barless,
    plan: &Plan,
    sheet: &Sheet,
) -> Result<(), AllocError> {
    piece.add(b"<path class='start' d='")?;
    for index in 0..plan.bookings.len() {
        if let Some(channel) = plan.assigned[index as usize] {
            let lane = lane_of(&plan.channels, channel);
            add_start(piece, sheet.tenths(plan.bookings.nth(index).start()), lane)?;
        }
    }
    piece.add(b"'/>\n")
}

/// Adds the line at the start of one.
fn add_start(piece: &mut Barless, across: u64, lane: u8) -> Result<(), AllocError>
    requires { lane ≤ 31 }
{
    piece.add(b"M")?;
    piece.add_tenths(across)?;
    piece.add_number(b" ", TOP + LANE * u64::from(lane) + 1)?;
    piece.add_number(b"v", LANE - 2)
}
