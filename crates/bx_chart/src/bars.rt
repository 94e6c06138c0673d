//! The bars of the accepted bookings.

ghost use Rattle.std.specs.Prelude.{◌≡◌, ◌+◌, ◌<◌, ◌≤◌, ◌++◌, length, IfOk, OnOk, codes, decimal, option_copied};
ghost use Rattle.bx_base.specs.Bookings.{IsBooking};
ghost use Rattle.bx_base.specs.Channels.{has_channel};
ghost use Rattle.bx_base.specs.PlanParts.{parts_of};
ghost use Rattle.bx_chart.specs.Bars.{lane_of, two_digits, clock, class_of, corner, extent, height_of, time_of, top_of, pay_words, words_of, clock_second_at, times_of, bar_size_of, place_of, bar_of, bars};

use crate::picture::Picture;
use bx_base::{Booking, ChannelSet, Plan};
use bx_calendar::Clock;
use bx_channels::Channel;
use std::alloc::{AllocError, Global};

/// The bars of all that the plan accepts.
pub(crate) fn bars(alloc: Global, plan: &Plan, clock: Option<&Clock>) -> Result<Picture, AllocError>
    ensures { IfOk result (λ picture. picture.text.items ≡ bars (parts_of plan.now) (option_copied clock.entry)) }
{
    let mut picture = Picture::new(alloc);
    for index in 0..plan.bookings.len() {
        if let Some(channel) = plan.assigned[index as usize] {
            let lane = lane_of(&plan.channels, channel);
            add_bar(
                &mut picture,
                clock,
                &plan.bookings.nth(index),
                lane,
                index + 1,
            )?;
        }
    }
    Ok(picture)
}

/// How many channels in service have a lower number.
pub fn lane_of(channels: &ChannelSet, channel: Channel) -> u8
    ensures value { result ≡ lane_of channels.now channel }
    ensures limit { result ≤ 31 }
{
    let mut lane = 0;
    for number in 0..channel.number() {
        if is_in_service(channels, number) {
            lane += 1;
        }
    }
    lane
}

/// Whether the channel of this number is in service.
pub fn is_in_service(channels: &ChannelSet, number: u8) -> bool
    ensures { result ≡ has_channel channels.now number }
{
    // Read for the prover alone, which learns a limit from it.
    let _count = channels.count();
    match Channel::new(number) {
        Some(channel) => channels.has(channel),
        None => false,
    }
}

/// Adds the bar of a booking.
fn add_bar(
    picture: &mut Picture,
    clock: Option<&Clock>,
    booking: &Booking,
    lane: u8,
    row: u16,
) -> Result<(), AllocError>
    requires lane { lane ≤ 31 }
    ensures { OnOk result (picture.new.text.items ≡ picture.old.text.items ++ bar_of (option_copied clock.entry) booking.now lane row) }
{
    add_place(picture, booking, lane)?;
    add_size(picture, booking)?;
    add_words(picture, booking, row)?;
    add_times(picture, clock, booking)?;
    picture.add(b"</title></rect>\n")
}

/// Adds where a bar begins.
fn add_place(picture: &mut Picture, booking: &Booking, lane: u8) -> Result<(), AllocError>
    requires lane { lane ≤ 31 }
    ensures { OnOk result (picture.new.text.items ≡ picture.old.text.items ++ place_of booking.now lane) }
{
    picture.add(b"<rect class='")?;
    picture.add(class_of(booking))?;
    add_corner(picture, booking.start(), top_of(booking, lane))
}

/// Adds the corner of a rectangle.
pub fn add_corner(picture: &mut Picture, across: u32, down: u64) -> Result<(), AllocError>
    ensures { OnOk result (picture.new.text.items ≡ picture.old.text.items ++ corner across down) }
{
    picture.add_number(b"' x='", u64::from(across))?;
    picture.add_number(b"' y='", down)
}

/// How far down a bar begins.
pub fn top_of(booking: &Booking, lane: u8) -> u64
    requires { lane ≤ 31 }
    ensures { result ≡ top_of booking.now lane }
{
    let lane = 10 * u64::from(lane);
    if booking.is_must() {
        lane + 1
    } else {
        lane + 3
    }
}

/// Adds how wide and how high a bar is.
fn add_size(picture: &mut Picture, booking: &Booking) -> Result<(), AllocError>
    ensures { OnOk result (picture.new.text.items ≡ picture.old.text.items ++ bar_size_of booking.now) }
{
    add_extent(picture, booking.end() - booking.start(), height_of(booking))?;
    picture.add(b"'>")
}

/// How high a bar is.
pub fn height_of(booking: &Booking) -> u64
    ensures value { result ≡ height_of booking.now }
    ensures limit { result ≤ 9 }
{
    if booking.is_must() { 9 } else { 5 }
}

/// Adds how wide and how high a rectangle is.
pub fn add_extent(picture: &mut Picture, wide: u32, high: u64) -> Result<(), AllocError>
    ensures { OnOk result (picture.new.text.items ≡ picture.old.text.items ++ extent wide high) }
{
    picture.add_number(b"' width='", u64::from(wide))?;
    picture.add_number(b"' height='", high)
}

/// How the bar of a booking looks.
pub fn class_of(booking: &Booking) -> &'static [u8]
    ensures { result.now ≡ class_of booking.now }
{
    match (booking.is_must(), booking.is_inward()) {
        (true, true) => b"must in",
        (true, false) => b"must out",
        (false, true) => b"free in",
        (false, false) => b"free out",
    }
}

/// Adds a booking in words.
pub fn add_words(picture: &mut Picture, booking: &Booking, row: u16) -> Result<(), AllocError>
    ensures { OnOk result (picture.new.text.items ≡ picture.old.text.items ++ words_of booking.now row) }
{
    picture.add_number(b"<title>row ", u64::from(row))?;
    picture.add(b": ")?;
    add_pay(picture, booking)
}

/// Adds the called number and what it pays.
fn add_pay(picture: &mut Picture, booking: &Booking) -> Result<(), AllocError>
    ensures { OnOk result (picture.new.text.items ≡ picture.old.text.items ++ pay_words booking.now) }
{
    add_digits(picture, booking)?;
    picture.add_number(b" pays ", booking.pay())
}

/// Adds the called number.
fn add_digits(picture: &mut Picture, booking: &Booking) -> Result<(), AllocError>
    ensures { OnOk result (picture.new.text.items ≡ picture.old.text.items ++ booking.now.number) }
{
    let number = booking.number();
    picture.add(number.digits())
}

/// Adds its start and its end.
pub fn add_times(
    picture: &mut Picture,
    clock: Option<&Clock>,
    booking: &Booking,
) -> Result<(), AllocError>
    ensures { OnOk result (picture.new.text.items ≡ picture.old.text.items ++ times_of (option_copied clock.entry) booking.now) }
{
    picture.add(b", ")?;
    add_time(picture, clock, booking.start())?;
    picture.add(b" to ")?;
    add_time(picture, clock, booking.end())
}

/// Adds a second after the day's start, as the day's clock shows it.
pub fn add_time(picture: &mut Picture, clock: Option<&Clock>, second: u32) -> Result<(), AllocError>
    ensures { OnOk result (picture.new.text.items ≡ picture.old.text.items ++ time_of (option_copied clock.entry) second) }
{
    add_clock(picture, second_at(clock, second))
}

/// A second after the day's start in seconds from midnight on, as the day's clock shows it.
fn second_at(clock: Option<&Clock>, second: u32) -> u32
    ensures { result ≡ clock_second_at (option_copied clock.entry) second }
{
    match clock {
        Some(clock) => match clock.second_shown(second) {
            Some(shown) => shown,
            None => second,
        },
        None => second,
    }
}

/// Adds seconds from midnight on as hours, minutes and seconds.
fn add_clock(picture: &mut Picture, second: u32) -> Result<(), AllocError>
    ensures { OnOk result (picture.new.text.items ≡ picture.old.text.items ++ clock second) }
{
    picture.add_decimal(u64::from(second / 3600))?;
    picture.add(b":")?;
    add_two_digits(picture, second / 60 % 60)?;
    picture.add(b":")?;
    add_two_digits(picture, second % 60)
}

/// Adds a number below 60 as two digits.
pub(crate) fn add_two_digits(picture: &mut Picture, number: u32) -> Result<(), AllocError>
    ensures { OnOk result (picture.new.text.items ≡ picture.old.text.items ++ two_digits number) }
{
    if number < 10 {
        picture.add(b"0")?;
    }
    picture.add_decimal(u64::from(number))
}
