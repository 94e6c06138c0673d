//! The hours of the day, as its clock shows them.

ghost use Rattle.std.specs.Prelude.{◌≡◌, ◌+◌, ◌/◌, ◌++◌, OnOk, option_copied};
ghost use Rattle.bx_chart.specs.Hours.{band_lines, hour_part, line, lines, name, shown_at, shown_text, tenths, hours_in};
ghost use Rattle.bx_chart.specs.Sheets.{room};

use crate::bars::add_two_digits;
use crate::picture::Picture;
use crate::sheet::{BAND, Sheet, TOP};
use bx_calendar::Clock;
use std::alloc::AllocError;

/// Adds a line and its name for each hour from the day's start on, or for each second or third one of a long day. It is
/// named by what the clock shows then, over gaps and folds; without a clock by how many hours it is from midnight.
pub fn add_hours(
    picture: &mut Picture,
    sheet: &Sheet,
    clock: Option<&Clock>,
) -> Result<(), AllocError>
    ensures { OnOk result (picture.new.text.items ≡ picture.old.text.items ++ hours_in (room sheet.now) (option_copied clock.entry)) }
{
    let apart = sheet.seconds / 93_600 + 1;
    for hour in 0..sheet.seconds / 3600 + 1 {
        if hour % apart == 0 {
            add_hour(picture, sheet, clock, hour as u8)?;
        }
    }
    Ok(())
}

/// Adds an hour from the day's start: its lines, and its name above and below the lanes.
#[tactic(auto, unfolding(crate::specs::Hours::hour_part))]
fn add_hour(
    picture: &mut Picture,
    sheet: &Sheet,
    clock: Option<&Clock>,
    hour: u8,
) -> Result<(), AllocError>
    ensures { OnOk result (picture.new.text.items ≡ picture.old.text.items ++ hour_part (room sheet.now) (option_copied clock.entry) hour) }
{
    let across = sheet.tenths(u32::from(hour) * 3600);
    let shown = shown_at(clock, hour);
    add_lines(picture, sheet, across)?;
    add_name(picture, across, TOP - 5, shown)?;
    add_name(picture, across, sheet.lanes_end() + 13, shown)
}

/// The hour and the minute that name an hour from the day's start.
fn shown_at(clock: Option<&Clock>, hour: u8) -> (u8, u8)
    ensures { result ≡ shown_at (option_copied clock.entry) hour }
{
    match clock {
        Some(clock) => match clock.shown(u32::from(hour) * 3600) {
            Some(shown) => shown,
            None => (hour, 0),
        },
        None => (hour, 0),
    }
}

/// Adds the lines of an hour.
#[tactic(auto, unfolding(crate::specs::Hours::lines))]
fn add_lines(picture: &mut Picture, sheet: &Sheet, across: u64) -> Result<(), AllocError>
    ensures { OnOk result (picture.new.text.items ≡ picture.old.text.items ++ lines (room sheet.now) across) }
{
    add_line(picture, across, TOP, sheet.lanes_end())?;
    add_band_lines(picture, sheet, across)
}

/// Adds its lines over the bands, if there are any.
#[tactic(auto, unfolding(crate::specs::Hours::band_lines))]
fn add_band_lines(picture: &mut Picture, sheet: &Sheet, across: u64) -> Result<(), AllocError>
    ensures { OnOk result (picture.new.text.items ≡ picture.old.text.items ++ band_lines (room sheet.now) across) }
{
    if !sheet.has_bands {
        return Ok(());
    }
    add_line(
        picture,
        across,
        sheet.refused_top(),
        sheet.refused_top() + BAND,
    )?;
    add_line(
        picture,
        across,
        sheet.prices_top(),
        sheet.prices_top() + BAND,
    )
}

/// Adds a line.
#[tactic(auto, unfolding(crate::specs::Hours::line))]
fn add_line(picture: &mut Picture, across: u64, top: u64, end: u64) -> Result<(), AllocError>
    ensures { OnOk result (picture.new.text.items ≡ picture.old.text.items ++ line across top end) }
{
    picture.add(b"<path class='hour' d='M")?;
    add_tenths(picture, across)?;
    picture.add_number(b" ", top)?;
    picture.add_number(b"V", end)?;
    picture.add(b"'/>\n")
}

/// Adds the name of an hour.
#[tactic(auto, unfolding(crate::specs::Hours::name))]
fn add_name(
    picture: &mut Picture,
    across: u64,
    down: u64,
    shown: (u8, u8),
) -> Result<(), AllocError>
    ensures { OnOk result (picture.new.text.items ≡ picture.old.text.items ++ name across down shown) }
{
    picture.add(b"<text class='small middle' x='")?;
    add_tenths(picture, across)?;
    picture.add_number(b"' y='", down)?;
    picture.add(b"'>")?;
    add_shown(picture, shown)?;
    picture.add(b"</text>\n")
}

/// Adds an hour and a minute.
fn add_shown(picture: &mut Picture, shown: (u8, u8)) -> Result<(), AllocError>
    ensures { OnOk result (picture.new.text.items ≡ picture.old.text.items ++ shown_text shown) }
{
    picture.add_decimal(u64::from(shown.0))?;
    picture.add(b":")?;
    add_two_digits(picture, u32::from(shown.1))
}

/// Adds so many tenths.
pub fn add_tenths(picture: &mut Picture, count: u64) -> Result<(), AllocError>
    ensures { OnOk result (picture.new.text.items ≡ picture.old.text.items ++ tenths count) }
{
    picture.add_decimal(count / 10)?;
    picture.add_number(b".", count % 10)
}
