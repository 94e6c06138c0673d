//! Channels in maintenance.

ghost use Rattle.std.specs.Prelude.{◌≡◌, ◌≤◌, ◌&&◌, ◌++◌, OnOk, Some, None, if◌then◌else◌, option_copied};
ghost use Rattle.bx_base.specs.Channels.{has_channel};
ghost use Rattle.bx_channels.specs.Marks.{is_marked};
ghost use Rattle.bx_chart.specs.Sheets.{room};
ghost use Rattle.bx_day_chart.specs.Maintenance.{hatch, hatch_place, hatch_words, hatches_below, last_held, since};

use bx_base::ChannelSet;
use bx_calendar::Clock;
use bx_channels::Channel;
use bx_chart::{LANE, Picture, Sheet, TOP, add_tenths, add_time, lane_of};
use bx_day::{Entry, Exchange, Standing};
use std::alloc::AllocError;

/// When a call of a booking was last on its channel, as far as its day tells: it was Active until then, or was never Active, and began no earlier.
fn last_held(entry: &Entry) -> u32
    ensures { result ≡ last_held entry.now.booking entry.now.standing }
{
    match entry.standing {
        Standing::Carried { until, .. } => until,
        Standing::Unanswered => entry.booking.start(),
        _ => 0,
    }
}

/// When a call was last on the channel of this number.
fn since(entries: &[Entry], number: u8) -> u32
    ensures { result ≡ since number 0 entries.now }
{
    let mut second = 0;
    for entry in entries {
        if entry.channel == number {
            second = last_held(entry).max(second);
        }
    }
    second
}

/// The channel of this number, if it is in service and in maintenance.
fn broken_at(exchange: &Exchange, channels: &ChannelSet, number: u8) -> Option<Channel>
    ensures { result ≡ (if has_channel channels.now number && is_marked exchange.now.maintenance number then Some number else None) }
{
    // Read for the prover alone, which learns a limit from it.
    let _count = channels.count();
    let channel = Channel::new(number)?;
    if channels.has(channel) && exchange.in_maintenance(channel) {
        Some(channel)
    } else {
        None
    }
}

/// Adds where a hatched part of a lane begins, and how wide it is.
#[tactic(auto, unfolding(crate::specs::Maintenance::hatch_place))]
fn add_hatch_place(
    picture: &mut Picture,
    across: u64,
    down: u64,
    wide: u64,
) -> Result<(), AllocError>
    ensures { OnOk result (picture.new.text.items ≡ picture.old.text.items ++ hatch_place across down wide) }
{
    picture.add(b"<rect class='broken' x='")?;
    add_tenths(picture, across)?;
    picture.add_number(b"' y='", down)?;
    picture.add(b"' width='")?;
    add_tenths(picture, wide)
}

/// Adds what it says.
fn add_hatch_words(
    picture: &mut Picture,
    clock: Option<&Clock>,
    number: u8,
    second: u32,
) -> Result<(), AllocError>
    ensures { OnOk result (picture.new.text.items ≡ picture.old.text.items ++ hatch_words (option_copied clock.entry) number second) }
{
    picture.add_number(b"' height='14'><title>channel ", u64::from(number))?;
    picture.add(b" in maintenance since ")?;
    add_time(picture, clock, second)?;
    picture.add(b"</title></rect>\n")
}

/// Adds the hatched lane of a channel, from a second on.
fn add_hatch(
    picture: &mut Picture,
    sheet: &Sheet,
    clock: Option<&Clock>,
    place: (u8, u8),
    second: u32,
) -> Result<(), AllocError>
    requires { place.1 ≤ 31 }
    ensures { OnOk result (picture.new.text.items ≡ picture.old.text.items ++ hatch (room sheet.now) (option_copied clock.entry) place.0 place.1 second) }
{
    let (number, lane) = place;
    let across = sheet.tenths(second);
    let wide = sheet.tenths(sheet.seconds).saturating_sub(across);
    add_hatch_place(picture, across, TOP + LANE * u64::from(lane) + 1, wide)?;
    add_hatch_words(picture, clock, number, second)
}

/// Hatches the lane of each channel in maintenance, from when a call was last on it.
pub(crate) fn add_hatches(
    picture: &mut Picture,
    exchange: &Exchange,
    channels: &ChannelSet,
    clock: Option<&Clock>,
    sheet: &Sheet,
) -> Result<(), AllocError>
    ensures { OnOk result (picture.new.text.items ≡ picture.old.text.items
        ++ hatches_below (room sheet.now) (option_copied clock.entry) exchange.now channels.now 32) }
{
    for number in 0..32u8 {
        if let Some(channel) = broken_at(exchange, channels, number) {
            let place = (number, lane_of(channels, channel));
            add_hatch(
                picture,
                sheet,
                clock,
                place,
                since(exchange.entries(), number),
            )?;
        }
    }
    Ok(())
}
