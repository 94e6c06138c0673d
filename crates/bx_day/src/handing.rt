//! An exchange that hands its calls over to the exchange of the next day.

ghost use Rattle.std.specs.Prelude.{◌≡◌, ◌<◌, ◌≤◌, ◌-◌, ◌++◌, ◌∷◌, [], ℕ, ◌↔◌, IsTrue, true, Some, OnOk, IfOk, length, if◌then◌else◌};
ghost use Rattle.bx_base.specs.Bookings.{Carries};
ghost use Rattle.bx_base.specs.Plans.{is_accepted, channel_at};
ghost use Rattle.bx_day.specs.Day.{entries_from, is_live};
ghost use Rattle.bx_day.specs.Handing.{goes_over, left_over, activity_over, standing_over, seat_over, seat_new, all_over, handed_over, StartsOver, IsOverRow, IsHandedOver, SecondsGoOn, MessagesGoOn, StillGoesOn, IsToldOnce, IsTakenOver, StaysNamed, HandOversAreUnnoticed, CallsGoOn};
ghost use Rattle.bx_day.specs.HandingInside.{entry_from, AreFirst, AreOutside, AreReady};
ghost use Rattle.bx_day.specs.Reading.{IsNumbered};

use crate::entry::{Activity, Entry, Standing};
use crate::exchange::Exchange;
use crate::opening::entries;
use bx_base::{Booking, MAX_BOOKINGS, Plan};
use bx_channels::Channel;
use std::alloc::{AllocError, Global};

impl Exchange {
    /// The exchange of the next day, whose midnight is this second. Its moment is 0. The first rows of the plan are the bookings that
    /// are not over here, each with what is left of it (`IsOverRow`): those go on as they are, with their calls, references and timers. All others are as at
    /// an opening; where the exchange begins their calls, the reference is the row and `base`. Channels in maintenance stay so.
    /// `AllocError` where memory ran out. It looks at each booking once, and sorts them by their starts.
    pub fn hand_over(&self, alloc: Global, plan: &Plan, base: u16) -> Result<Exchange, AllocError>
        requires carried { Carries plan.now.bookings plan.now.channels (is_accepted plan.now.assigned.items) (channel_at plan.now.assigned.items) }
        requires goes { IsHandedOver base self.now plan.now.bookings plan.now.assigned.items }
        ensures { IfOk result (λ x. x ≡ handed_over base plan.now.bookings plan.now.assigned.items self.now) }
    {
        // Read for the prover alone, which learns a limit from it.
        let _rows = plan.bookings.len();
        let _channels = plan.channels.count();
        let unlinked = unlinked_over(self.is_back());
        let left = left_over(alloc, &self.entries, self.moment)?;
        let mut entries = entries(alloc, plan)?;
        put_over(&mut entries, &left, base, self.moment);
        Exchange::restored(alloc, 0, unlinked, entries, self.maintenance)
    }

    /// Whether the first rows of the plan are the bookings that are not over here, each with what is left of it, what is live on its channel, and
    /// none of these has one of the `MAX_BOOKINGS` references after `base`: what `hand_over` requires.
    pub fn may_hand_over(&self, alloc: Global, plan: &Plan, base: u16) -> Result<bool, AllocError>
        ensures { IfOk result (λ b. IsTrue b ↔ IsHandedOver base self.now plan.now.bookings plan.now.assigned.items) }
    {
        let left = left_over(alloc, &self.entries, self.moment)?;
        Ok(are_ready(&left, plan, base, self.moment))
    }
}

/// Whether the plan begins with these bookings, and the base leaves their references alone.
fn are_ready(left: &[Entry], plan: &Plan, base: u16, moment: u32) -> bool
    ensures { IsTrue result ↔ AreReady base moment left.now plan.now.bookings plan.now.assigned.items }
{
    if base as usize > 32767 - MAX_BOOKINGS {
        return false;
    }
    if !are_first(left, plan, moment) {
        return false;
    }
    are_outside(left, base)
}

/// Whether the plan begins with these bookings.
fn are_first(left: &[Entry], plan: &Plan, moment: u32) -> bool
    ensures { IsTrue result ↔ AreFirst moment left.now plan.now.bookings plan.now.assigned.items }
{
    if left.len() > plan.bookings.len() as usize {
        return false;
    }
    for index in 0..left.len() as u16 {
        let place = index as usize;
        if !is_over_row(
            &left[place],
            &plan.bookings.nth(index),
            plan.assigned[place],
            moment,
        ) {
            return false;
        }
    }
    true
}

/// Whether the booking goes on as a row of a plan with this channel.
fn is_over_row(entry: &Entry, booking: &Booking, channel: Option<Channel>, moment: u32) -> bool
    ensures { IsTrue result ↔ IsOverRow moment entry.now booking.now channel }
{
    let Some(channel) = channel else {
        return false;
    };
    if !keeps_channel(entry, channel) {
        return false;
    }
    if !starts_over(entry, booking.start(), moment) {
        return false;
    }
    let before = entry.booking;
    booking.end() == before.end().saturating_sub(moment).max(1)
        && booking.pay() == before.pay()
        && booking.number() == before.number()
        && booking.is_inward() == before.is_inward()
}

/// Whether the booking stays on its channel, where it is live.
fn keeps_channel(entry: &Entry, channel: Channel) -> bool
    ensures { IsTrue result ↔ (is_live entry.now.standing ≡ true → Some channel ≡ Some entry.now.channel) }
{
    match entry.standing {
        Standing::OnCall { .. } => channel.number() == entry.channel,
        _ => true,
    }
}

/// Whether what is left of the booking starts so; one that waits and has begun may leave its first second to a call that is being cleared.
fn starts_over(entry: &Entry, start: u32, moment: u32) -> bool
    ensures { IsTrue result ↔ StartsOver moment entry.now start }
{
    let before = entry.booking.start();
    if start == before.saturating_sub(moment) {
        return true;
    }
    match entry.standing {
        Standing::Unoffered => start == 1 && before <= moment,
        _ => false,
    }
}

/// Whether none of these has one of the `MAX_BOOKINGS` references after the base.
fn are_outside(left: &[Entry], base: u16) -> bool
    requires { base ≤ 32767 - MAX_BOOKINGS }
    ensures { IsTrue result ↔ AreOutside base left.now }
{
    for index in 0..left.len() {
        let reference = left[index].reference;
        if reference > base && reference as usize <= base as usize + MAX_BOOKINGS {
            return false;
        }
    }
    true
}

/// Whether the booking is not over: a call that has not begun does not begin in the last second.
fn goes_over(entry: &Entry, moment: u32) -> bool
    ensures { result ≡ goes_over moment entry.now }
{
    match entry.standing {
        Standing::OnCall { .. } => true,
        Standing::Unoffered => entry.booking.end().saturating_sub(moment) > 1,
        _ => false,
    }
}

/// Adds a booking with these parts.
fn keep(
    kept: &mut Vec<Entry>,
    row: u16,
    reference: u16,
    booking: Booking,
    channel: u8,
    standing: Standing,
) -> Result<(), AllocError>
    ensures ok { OnOk result (kept.new.items ≡ kept.old.items ++ entry_from row reference booking channel standing ∷ []) }
{
    let entry = Entry {
        row,
        reference,
        booking,
        channel,
        standing,
    };
    match kept.push(entry) {
        Ok(()) => Ok(()),
        Err(_) => Err(AllocError),
    }
}

/// The bookings that are not over.
fn left_over(alloc: Global, entries: &[Entry], moment: u32) -> Result<Vec<Entry>, AllocError>
    ensures { IfOk result (λ v. v.items ≡ left_over moment entries.now) }
{
    let mut kept = Vec::new(alloc);
    for index in 0..entries.len() {
        let entry = entries[index];
        if goes_over(&entry, moment) {
            keep(
                &mut kept,
                entry.row,
                entry.reference,
                entry.booking,
                entry.channel,
                entry.standing,
            )?;
        }
    }
    Ok(kept)
}

/// Puts what goes on into the first of these, and the references of the others.
fn put_over(entries: &mut [Entry], left: &[Entry], base: u16, moment: u32)
    requires few { length entries.old ≤ MAX_BOOKINGS }
    requires limit { base ≤ 32767 - MAX_BOOKINGS }
    requires numbered { IsNumbered entries.old }
    ensures { entries.new ≡ all_over moment base left.now entries.old }
{
    for index in 0..entries.len() {
        let entry = entries[index];
        if index < left.len() {
            entries[index] = seat_over(left[index], entry, moment);
        } else {
            entries[index].reference = base + entry.row;
        }
    }
}

/// The booking of the new day, where this one goes on in it.
fn seat_over(before: Entry, entry: Entry, moment: u32) -> Entry
    ensures { result ≡ seat_over moment before entry }
{
    Entry {
        reference: before.reference,
        standing: standing_over(before.standing, moment),
        ..entry
    }
}

fn standing_over(standing: Standing, moment: u32) -> Standing
    ensures { result ≡ standing_over moment standing }
{
    match standing {
        Standing::OnCall { call, activity } => Standing::OnCall {
            call: call.earlier_by(moment),
            activity: activity_over(activity, moment),
        },
        Standing::Carried { from, until } => Standing::Carried {
            from: from.saturating_sub(moment),
            until: until.saturating_sub(moment),
        },
        standing => standing,
    }
}

fn activity_over(activity: Activity, moment: u32) -> Activity
    ensures { result ≡ activity_over moment activity }
{
    match activity {
        Activity::Never => Activity::Never,
        Activity::Since { from } => Activity::Since {
            from: from.saturating_sub(moment),
        },
        Activity::Was { from, until } => Activity::Was {
            from: from.saturating_sub(moment),
            until: until.saturating_sub(moment),
        },
    }
}

/// One more than moment 0 where there was no link in the last second, and else 0.
fn unlinked_over(back: bool) -> u32
    ensures { result ≡ (if back then 1 else 0) }
{
    if back { 1 } else { 0 }
}

/// A booking that goes on goes on as it was: seconds and messages make the same of it in the new day, told from its midnight, and say the same.
pub fn goes_on()
    ensures seconds { SecondsGoOn }
    ensures messages { MessagesGoOn }
    ensures still { StillGoesOn }
    ensures told { IsToldOnce }
{}

/// What takes over from a day is a day that an exchange may be in, whose bookings have a reference each; and nothing is noticed of it: each
/// booking that is not over goes on as it was.
pub fn taken_over()
    ensures state { IsTakenOver }
    ensures named { StaysNamed }
    ensures unnoticed { HandOversAreUnnoticed }
    ensures calls { CallsGoOn }
{}
