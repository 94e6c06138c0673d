//! A day as a picture.

ghost use Rattle.std.specs.Prelude.{◌≡◌, ◌≤◌, ◌++◌, IfOk, OnOk, option_copied};
ghost use Rattle.bx_base.specs.declared.booking.TheConstants.{MAX_MOMENT};
ghost use Rattle.bx_chart.specs.Sheets.{room};
ghost use Rattle.bx_day_chart.specs.Charts.{IsDayChart, day_part, day_room, foot, latest_end};
ghost use Rattle.bx_day_chart.specs.Sights.{sight_of};

use crate::calls::add_calls;
use crate::head::{add_day_legend, add_head};
use crate::maintenance::add_hatches;
use crate::now::add_now;
use crate::outages::{DaySight, add_outages};
use crate::starts::add_starts;
use bx_base::ChannelSet;
use bx_calendar::Clock;
use bx_chart::{Picture, Sheet, add_hours, add_lanes, day_length, open_day};
use bx_day::{Entry, Exchange};
use std::alloc::{AllocError, Global};

/// So many seconds, or as many as the latest end of a booking asks for.
fn latest_end(entries: &[Entry], least: u32) -> u32
    requires { (1 ≤ least) × (least ≤ MAX_MOMENT) }
    ensures value { result ≡ latest_end least entries.now }
    ensures limits { (1 ≤ result) × (result ≤ MAX_MOMENT) }
{
    let mut seconds = least;
    for entry in entries {
        seconds = entry.booking.end().max(seconds);
    }
    seconds
}

/// The sheet of a day: up to its latest end, with a lane for each channel in service.
fn sheet_of(exchange: &Exchange, channels: &ChannelSet, clock: Option<&Clock>) -> Sheet
    ensures { room result ≡ day_room exchange.now channels.now (option_copied clock.entry) }
{
    Sheet::without_bands(channels, latest_end(exchange.entries(), day_length(clock)))
}

/// Adds the part whose units are seconds: the bars, and the outages over them.
fn add_day_part(
    picture: &mut Picture,
    exchange: &Exchange,
    channels: &ChannelSet,
    sight: &DaySight,
    clock: Option<&Clock>,
    sheet: &Sheet,
) -> Result<(), AllocError>
    ensures { OnOk result (picture.new.text.items ≡ picture.old.text.items
        ++ day_part exchange.now channels.now (sight_of sight.now) (option_copied clock.entry) (room sheet.now)) }
{
    let now = exchange.moment();
    let high = 10 * u64::from(sheet.lanes);
    open_day(picture, sheet)?;
    add_calls(picture, clock, channels, exchange.entries(), now)?;
    add_outages(picture, clock, high, &sight.outages.spans)?;
    picture.add(b"</svg>\n")
}

/// Adds all that stands after that part: where bookings begin, the hours, now, and the legend.
fn add_foot(
    picture: &mut Picture,
    exchange: &Exchange,
    channels: &ChannelSet,
    sight: &DaySight,
    clock: Option<&Clock>,
    sheet: &Sheet,
) -> Result<(), AllocError>
    ensures { OnOk result (picture.new.text.items ≡ picture.old.text.items
        ++ foot exchange.now channels.now (sight_of sight.now) (option_copied clock.entry) (room sheet.now)) }
{
    let now = exchange.moment();
    add_starts(picture, sheet, channels, exchange.entries())?;
    add_hours(picture, sheet, clock)?;
    add_now(picture, clock, sheet, sight.is_over, now)?;
    add_day_legend(picture, sheet.lanes_end() + 34)?;
    picture.add(b"</svg>\n")
}

/// The whole picture.
pub(crate) fn day_chart(
    alloc: Global,
    exchange: &Exchange,
    channels: &ChannelSet,
    sight: &DaySight,
    clock: Option<&Clock>,
) -> Result<Picture, AllocError>
    ensures { IfOk result (λ picture. IsDayChart exchange.now channels.now (sight_of sight.now) (option_copied clock.entry) picture.text.items) }
{
    let sheet = sheet_of(exchange, channels, clock);
    let mut picture = Picture::new(alloc);
    add_head(&mut picture, exchange, sight, clock, &sheet)?;
    add_lanes(&mut picture, channels)?;
    add_hatches(&mut picture, exchange, channels, clock, &sheet)?;
    add_day_part(&mut picture, exchange, channels, sight, clock, &sheet)?;
    add_foot(&mut picture, exchange, channels, sight, clock, &sheet)?;
    // Read for the prover alone, which learns from it that the text is plain.
    let _text = picture.text();
    Ok(picture)
}
