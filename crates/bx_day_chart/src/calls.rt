//! The bars of a day's bookings.

ghost use Rattle.std.specs.Prelude.{◌≡◌, ◌≤◌, ◌++◌, false, true, OnOk, flat_map, option_copied};
ghost use Rattle.std.specs.List.{AllByRecursion};
ghost use Rattle.bx_chart.specs.Plain.{is_plain};
ghost use Rattle.bx_day.specs.Invariant.{is_refused};
ghost use Rattle.bx_day.specs.Reading.{Seated};
ghost use Rattle.bx_chart.specs.Bars.{lane_of};
ghost use Rattle.bx_day_chart.specs.Calls.{bar_in, box, box_place, call_at, call_of, carried_box, title_of};

use crate::marks::{Edges, add_mark};
use crate::standings::{add_told, carried_of, look_of};
use bx_base::{Booking, ChannelSet};
use bx_calendar::Clock;
use bx_channels::Channel;
use bx_chart::{
    Picture, add_corner, add_extent, add_times, add_words, class_of, height_of, lane_of, top_of,
};
use bx_day::{Entry, Standing};
use std::alloc::AllocError;

/// Adds where a box in a bar's lane stands, and how wide and how high it is.
fn add_box_place(
    picture: &mut Picture,
    booking: &Booking,
    lane: u8,
    from: u32,
    until: u32,
) -> Result<(), AllocError>
    requires { lane ≤ 31 }
    ensures { OnOk result (picture.new.text.items ≡ picture.old.text.items ++ box_place booking.now lane from until) }
{
    add_corner(picture, from, top_of(booking, lane))?;
    add_extent(picture, until.saturating_sub(from), height_of(booking))
}

/// Adds a box in a bar's lane that looks so, from a second until another.
fn add_box(
    picture: &mut Picture,
    booking: &Booking,
    look: &[u8],
    lane: u8,
    from: u32,
    until: u32,
) -> Result<(), AllocError>
    requires look { is_plain look.now ≡ true }
    requires lane { lane ≤ 31 }
    ensures { OnOk result (picture.new.text.items ≡ picture.old.text.items ++ box booking.now look.now lane from until) }
{
    picture.add(b"<rect class='")?;
    picture.add(class_of(booking))?;
    picture.add(look)?;
    add_box_place(picture, booking, lane, from, until)?;
    picture.add(b"'/>")
}

/// Adds the box of what was carried, if anything was.
fn add_carried_box(
    picture: &mut Picture,
    booking: &Booking,
    lane: u8,
    carried: Option<(u32, u32)>,
) -> Result<(), AllocError>
    requires { lane ≤ 31 }
    ensures { OnOk result (picture.new.text.items ≡ picture.old.text.items ++ carried_box booking.now lane carried) }
{
    match carried {
        Some((from, until)) => add_box(picture, booking, b" carried", lane, from, until),
        None => Ok(()),
    }
}

/// Adds the bar of a booking: that of a plan, over it what was carried, and its mark.
fn add_bar(
    picture: &mut Picture,
    booking: &Booking,
    standing: &Standing,
    lane: u8,
    now: u32,
) -> Result<(), AllocError>
    requires { lane ≤ 31 }
    ensures { OnOk result (picture.new.text.items ≡ picture.old.text.items ++ bar_in booking.now standing.now lane now) }
{
    let top = top_of(booking, lane);
    let bottom = top + height_of(booking);
    add_box(
        picture,
        booking,
        look_of(standing),
        lane,
        booking.start(),
        booking.end(),
    )?;
    add_carried_box(picture, booking, lane, carried_of(standing, now))?;
    add_mark(picture, booking, standing, Edges { top, bottom })
}

/// Adds a title: the booking in words, its start and its end, and what became of it.
fn add_title(
    picture: &mut Picture,
    clock: Option<&Clock>,
    entry: &Entry,
    now: u32,
) -> Result<(), AllocError>
    ensures { OnOk result (picture.new.text.items ≡ picture.old.text.items ++ title_of (option_copied clock.entry) now entry.now) }
{
    add_words(picture, &entry.booking, entry.row)?;
    add_times(picture, clock, &entry.booking)?;
    add_told(picture, clock, &entry.standing, now)?;
    picture.add(b"</title>")
}

/// Adds a booking in the lane of its channel.
fn add_in_lane(
    picture: &mut Picture,
    clock: Option<&Clock>,
    entry: &Entry,
    lane: u8,
    now: u32,
) -> Result<(), AllocError>
    requires { lane ≤ 31 }
    ensures { OnOk result (picture.new.text.items ≡ picture.old.text.items ++ call_of (option_copied clock.entry) now lane entry.now) }
{
    picture.add(b"<g>")?;
    add_title(picture, clock, entry, now)?;
    add_bar(picture, &entry.booking, &entry.standing, lane, now)?;
    picture.add(b"</g>\n")
}

/// The lane of an accepted booking.
pub(crate) fn lane_in(channels: &ChannelSet, entry: &Entry) -> u8
    requires seated { Seated entry.now }
    requires accepted { is_refused entry.now.standing ≡ false }
    ensures value { result ≡ lane_of channels.now entry.now.channel }
    ensures limit { result ≤ 31 }
{
    match Channel::new(entry.channel) {
        Some(channel) => lane_of(channels, channel),
        None => unreachable!(),
    }
}

/// Adds a booking, where the plan accepts it.
fn add_call(
    picture: &mut Picture,
    clock: Option<&Clock>,
    channels: &ChannelSet,
    entry: &Entry,
    now: u32,
) -> Result<(), AllocError>
    requires { Seated entry.now }
    ensures { OnOk result (picture.new.text.items ≡ picture.old.text.items ++ call_at (option_copied clock.entry) channels.now now entry.now) }
{
    if entry.standing.is_refused() {
        return Ok(());
    }
    let lane = lane_in(channels, entry);
    add_in_lane(picture, clock, entry, lane, now)
}

/// Adds all bookings that the plan accepts.
pub(crate) fn add_calls(
    picture: &mut Picture,
    clock: Option<&Clock>,
    channels: &ChannelSet,
    entries: &[Entry],
    now: u32,
) -> Result<(), AllocError>
    requires { AllByRecursion Seated entries.now }
    ensures { OnOk result (picture.new.text.items ≡ picture.old.text.items ++ flat_map (call_at (option_copied clock.entry) channels.now now) entries.now) }
{
    for entry in entries {
        add_call(picture, clock, channels, entry, now)?;
    }
    Ok(())
}
