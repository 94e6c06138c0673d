//! At which seconds a call may start beside all that is promised, on the channels that are left.

ghost use Rattle.std.specs.Prelude.{◌≡◌, ◌↔◌, ◌≤◌, ◌<◌, ◌+◌, ℕ, IsTrue, IfOk, length, slice_index_or, if◌then◌else◌};
ghost use Rattle.bx_base.specs.Bookings.{is_running};
ghost use Rattle.bx_base.specs.declared.booking.TheConstants.{MAX_MOMENT};
ghost use Rattle.bx_office_world.specs.FreeStarts.{running_below, IsWished, IsFreeStart};
ghost use Rattle.bx_office_world.specs.StartMarks.{AreLoads, IsStartOn, AreStartMarks};

use crate::desk::Opened;
use crate::wish::Wish;
use bx_base::{Booking, Bookings, ChannelSet, MAX_MOMENT};
use bx_day::Exchange;
use bx_market::promised;
use bx_sales::channels_left;
use std::alloc::{AllocError, Global};

/// So many zeros.
fn zeros(alloc: Global, count: usize) -> Result<Vec<u16>, AllocError>
    ensures size { IfOk result (λ zeros. length zeros.items ≡ count) }
    ensures each { IfOk result (λ zeros. (second : ℕ) → slice_index_or zeros.items second 0 ≡ 0) }
{
    vec![in alloc; 0u16; count]
}

/// One more that runs, at each second of a booking.
fn add(counts: &mut [u16], booking: &Booking)
    requires size { length counts.old ≡ MAX_MOMENT }
    requires few { (second : ℕ) → slice_index_or counts.old second 0 < 65535 }
    ensures size { length counts.new ≡ length counts.old }
    ensures each { (second : ℕ) → slice_index_or counts.new second 0 ≡ slice_index_or counts.old second 0 + (if is_running booking.now second then 1 else 0) }
{
    for second in booking.start()..booking.end() {
        counts[second as usize] += 1;
    }
}

/// How many of these bookings run at each second of a day.
fn loads_of(alloc: Global, rows: &Bookings) -> Result<Vec<u16>, AllocError>
    ensures size { IfOk result (λ counts. length counts.items ≡ MAX_MOMENT) }
    ensures each { IfOk result (λ counts. (second : ℕ) → slice_index_or counts.items second 0 ≡ running_below rows.now (length rows.now) second) }
{
    let mut counts = zeros(alloc, MAX_MOMENT as usize)?;
    for index in 0..rows.len() {
        add(&mut counts, &rows.nth(index));
    }
    Ok(counts)
}

/// How many of the promised bookings run at each second of a day, where these channels are left.
fn loads(alloc: Global, exchange: &Exchange, left: ChannelSet) -> Result<Vec<u16>, AllocError>
    ensures { IfOk result (λ counts. AreLoads exchange.now left counts.items) }
{
    let rows = promised(alloc, exchange, left)?;
    loads_of(alloc, &rows)
}

/// The first second from this one on at which so many run, or how many seconds there are.
fn free_until(counts: &[u16], limit: u16, from: usize) -> usize
    requires { from ≤ length counts.now }
    ensures from { from ≤ result }
    ensures size { result ≤ length counts.now }
    ensures free { (second : ℕ) → from ≤ second → second < result → slice_index_or counts.now second 0 < limit }
    ensures full { result < length counts.now → limit ≤ slice_index_or counts.now result 0 }
{
    for second in from..counts.len() {
        if counts[second] >= limit {
            return second;
        }
    }
    counts.len()
}

/// Whether a start is wished for, after this moment, on a day that is run to this second.
fn is_wished(moment: u32, last: u32, wish: Wish, start: u32) -> bool
    ensures { IsTrue result ↔ IsWished moment last wish start }
{
    moment < start && wish.from <= start && start <= wish.to && start <= last
}

/// Whether a call may start then that is wished for, where a channel is free from its start until just before this second.
fn is_start(moment: u32, last: u32, wish: Wish, start: u32, free: usize) -> bool
    requires { start ≤ MAX_MOMENT }
    ensures { IsTrue result ↔ ((start + wish.length ≤ free) × IsWished moment last wish start) }
{
    start as usize + wish.length as usize <= free && is_wished(moment, last, wish, start)
}

/// For each second whether a call may start at it that is wished for, where so many run at each, and fewer than so many may.
fn starts_on(
    alloc: Global,
    counts: &[u16],
    limit: u16,
    moment: u32,
    last: u32,
    wish: Wish,
) -> Result<Vec<bool>, AllocError>
    requires { length counts.now ≡ MAX_MOMENT }
    ensures marks { IfOk result (λ marks. AreStartMarks marks.items (IsStartOn counts.now limit moment last wish)) }
    ensures size { IfOk result (λ marks. length marks.items ≡ length counts.now) }
{
    let mut marks = Vec::new(alloc);
    let mut free = 0usize;
    for start in 0..MAX_MOMENT {
        let from = free.max(start as usize);
        free = free_until(counts, limit, from);
        marks.push(is_start(moment, last, wish, start, free))?;
    }
    Ok(marks)
}

/// For each second of the day whether a call may start at it that is wished for, beside all that is promised, on the channels
/// that are left.
pub(crate) fn free_starts(
    alloc: Global,
    opened: &Opened,
    exchange: &Exchange,
    wish: Wish,
) -> Result<Vec<bool>, AllocError>
    ensures marks { IfOk result (λ marks. AreStartMarks marks.items (IsFreeStart opened.now exchange.now wish)) }
    ensures size { IfOk result (λ marks. length marks.items ≡ MAX_MOMENT) }
{
    let left = channels_left(exchange, opened.channels);
    let counts = loads(alloc, exchange, left)?;
    let limit = u16::from(left.count());
    starts_on(alloc, &counts, limit, exchange.moment(), opened.last, wish)
}
