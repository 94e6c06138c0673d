//! The slots of the channels after a second.

ghost use Rattle.std.specs.Prelude.{◌≡◌, ◌<◌, ℕ, Some, length};
ghost use Rattle.bx_day.specs.Slots.{slot_at};
ghost use Rattle.bx_day.specs.SlotSteps.{SettlesSlots, follower, live_slot_of, waiting_of, is_live_at, is_waiting_at, IsInside};

use crate::entry::Entry;
use bx_events::LAST_MOMENT;

/// Brings the slots up to date after a second. What was live, what waited first on a channel and what comes after
/// that are all that can be live now; and what waited still does, but for these.
pub(crate) fn settle(
    entries: &[Entry],
    following: &[Option<u16>],
    live: &mut [Option<u16>; 32],
    waiting: &mut [Option<u16>; 32],
)
    requires size { length following.now ≡ length entries.now }
    requires live { (c : ℕ) → IsInside entries.now (slot_at live.old c) }
    requires waiting { (c : ℕ) → IsInside entries.now (slot_at waiting.old c) }
    requires second { (c : ℕ) → IsInside entries.now (follower following.now (slot_at waiting.old c)) }
    ensures { SettlesSlots entries.now following.now live.old waiting.old live.new waiting.new }
{
    for number in 0..32 {
        let first = waiting[number];
        let second = follower(following, first);
        live[number] = live_of(entries, live[number], first, second);
        waiting[number] = waiting_of(entries, following, first, second);
    }
}

/// For each channel the booking after the first that waits.
pub(crate) fn followers(following: &[Option<u16>], waiting: &[Option<u16>; 32]) -> [Option<u16>; 32]
    requires { (c i : ℕ) → slot_at waiting.now c ≡ Some i → i < length following.now }
    ensures { (c : ℕ) → slot_at result c ≡ follower following.now (slot_at waiting.now c) }
{
    let mut second = [None; 32];
    for number in 0..32 {
        second[number] = follower(following, waiting[number]);
    }
    second
}

/// The booking after this one.
fn follower(following: &[Option<u16>], index: Option<u16>) -> Option<u16>
    requires { (i : ℕ) → index ≡ Some i → i < length following.now }
    ensures { result ≡ follower following.now index }
{
    following[index? as usize]
}

/// The first of these that is live.
fn live_of(
    entries: &[Entry],
    first: Option<u16>,
    second: Option<u16>,
    third: Option<u16>,
) -> Option<u16>
    requires first { IsInside entries.now first }
    requires second { IsInside entries.now second }
    requires third { IsInside entries.now third }
    ensures { result ≡ live_slot_of entries.now first second third }
{
    if is_live_at(entries, first) {
        first
    } else if is_live_at(entries, second) {
        second
    } else if is_live_at(entries, third) {
        third
    } else {
        None
    }
}

/// The first of these that waits, or else the one after them.
fn waiting_of(
    entries: &[Entry],
    following: &[Option<u16>],
    first: Option<u16>,
    second: Option<u16>,
) -> Option<u16>
    requires size { length following.now ≡ length entries.now }
    requires first { IsInside entries.now first }
    requires second { IsInside entries.now second }
    ensures { result ≡ waiting_of entries.now following.now first second }
{
    if is_waiting_at(entries, first) {
        first
    } else if is_waiting_at(entries, second) {
        second
    } else {
        follower(following, second)
    }
}

fn is_live_at(entries: &[Entry], slot: Option<u16>) -> bool
    requires { IsInside entries.now slot }
    ensures { result ≡ is_live_at entries.now slot }
{
    let Some(index) = slot else {
        return false;
    };
    entries[index as usize].standing.is_live()
}

fn is_waiting_at(entries: &[Entry], slot: Option<u16>) -> bool
    requires { IsInside entries.now slot }
    ensures { result ≡ is_waiting_at entries.now slot }
{
    let Some(index) = slot else {
        return false;
    };
    entries[index as usize].standing.is_waiting()
}
