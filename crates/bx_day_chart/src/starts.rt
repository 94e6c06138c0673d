//! Where each booking begins.

ghost use Rattle.std.specs.Prelude.{◌≡◌, ◌≤◌, ◌++◌, OnOk, flat_map};
ghost use Rattle.std.specs.List.{AllByRecursion};
ghost use Rattle.bx_chart.specs.Sheets.{room};
ghost use Rattle.bx_day.specs.Reading.{Seated};
ghost use Rattle.bx_day_chart.specs.Starts.{start_at, start_line, starts};

use crate::calls::lane_in;
use bx_base::ChannelSet;
use bx_chart::{LANE, Picture, Sheet, TOP, add_tenths};
use bx_day::Entry;
use std::alloc::AllocError;

/// Adds a line across a lane that begins so far down.
#[tactic(auto, unfolding(crate::specs::Starts::start_line))]
fn add_start_line(picture: &mut Picture, across: u64, down: u64) -> Result<(), AllocError>
    ensures { OnOk result (picture.new.text.items ≡ picture.old.text.items ++ start_line across down) }
{
    picture.add(b"M")?;
    add_tenths(picture, across)?;
    picture.add_number(b" ", down)?;
    picture.add(b"v14")
}

/// Adds the line at the start of a booking, where the plan accepts it.
fn add_start(
    picture: &mut Picture,
    sheet: &Sheet,
    channels: &ChannelSet,
    entry: &Entry,
) -> Result<(), AllocError>
    requires { Seated entry.now }
    ensures { OnOk result (picture.new.text.items ≡ picture.old.text.items ++ start_at (room sheet.now) channels.now entry.now) }
{
    if entry.standing.is_refused() {
        return Ok(());
    }
    let lane = lane_in(channels, entry);
    let across = sheet.tenths(entry.booking.start());
    add_start_line(picture, across, TOP + LANE * u64::from(lane) + 1)
}

/// Adds those of all bookings.
fn add_start_lines(
    picture: &mut Picture,
    sheet: &Sheet,
    channels: &ChannelSet,
    entries: &[Entry],
) -> Result<(), AllocError>
    requires { AllByRecursion Seated entries.now }
    ensures { OnOk result (picture.new.text.items ≡ picture.old.text.items ++ flat_map (start_at (room sheet.now) channels.now) entries.now) }
{
    for entry in entries {
        add_start(picture, sheet, channels, entry)?;
    }
    Ok(())
}

/// Adds a thin line at the start of each booking, so that calls back to back stay apart also where a viewer draws no outlines.
pub(crate) fn add_starts(
    picture: &mut Picture,
    sheet: &Sheet,
    channels: &ChannelSet,
    entries: &[Entry],
) -> Result<(), AllocError>
    requires { AllByRecursion Seated entries.now }
    ensures { OnOk result (picture.new.text.items ≡ picture.old.text.items ++ starts (room sheet.now) channels.now entries.now) }
{
    picture.add(b"<path class='start' d='")?;
    add_start_lines(picture, sheet, channels, entries)?;
    picture.add(b"'/>\n")
}
