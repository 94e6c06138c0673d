//! Plans that a day goes on with: each that agrees with it on the past.

ghost use Rattle.std.specs.Prelude.{◌≡◌, ◌≤◌, ◌<◌, ◌↔◌, ℕ, IfOk, OnOk, OnErr, Err, IsTrue, length, None, slice_index_or};
ghost use Rattle.bx_base.specs.Bookings.{Carries, row_at};
ghost use Rattle.bx_base.specs.Plans.{is_accepted, channel_at};
ghost use Rattle.bx_day.specs.Day.{entries_from, entry_at};
ghost use Rattle.bx_day.specs.Changed.{was_never_live, past_or_planned, with_past, with_references, changed, EndsAlike, HasBegunAs, IsAhead, AgreesAt, AreReferredByRow, AgreesWith};
ghost use Rattle.bx_day.specs.Changing.{changed_to};
ghost use Rattle.bx_day.specs.Changing.{AgreeInPlace, AreAheadFrom};

use crate::entry::{Entry, Standing};
use crate::exchange::Exchange;
use crate::linking::linked;
use crate::opening::entries;
use crate::outages::first_waiting;
use bx_base::{Booking, Plan};
use bx_channels::Channel;
use std::alloc::{AllocError, Global};
use thiserror::Error;

/// Why a day does not go on with a plan.
#[derive(Clone, Copy, Debug, PartialEq, Eq, Error)]
pub enum CannotGoOn {
    /// The plan does not agree with the day so far.
    #[error("OtherPlan")]
    OtherPlan,
    /// Memory ran out.
    #[error("Memory")]
    Memory,
}

impl Exchange {
    /// Goes on with another plan, whose channels carry its accepted bookings, and which agrees with the day so far: what has become of
    /// each booking stays, and what was never live is as the plan has it. So a booking that waits may be given up, or get another channel,
    /// another start or another end, as long as it starts later than now; a call that is up keeps its channel, and may get another end that
    /// is yet to come; and bookings may be new. References stay; those of new bookings are their rows, so a day that took over from another
    /// (`hand_over`), which has others, gets none. The day is the one that the plan would have after the same events
    /// (`laws::day_of_a_changed_plan` of `bx_sales`). `OtherPlan`, which is tested first, where the plan does not agree with the day.
    /// `Memory` where memory runs out. A fault changes nothing. It looks at each booking once and sorts them by their starts.
    pub fn go_on(&mut self, alloc: Global, plan: &Plan) -> Result<(), CannotGoOn>
        requires { Carries plan.now.bookings plan.now.channels (is_accepted plan.now.assigned.items) (channel_at plan.now.assigned.items) }
        ensures ok { OnOk result (self.new ≡ changed plan.now.bookings plan.now.assigned.items self.old) }
        ensures agrees { OnOk result (AgreesWith self.old plan.now.bookings plan.now.assigned.items) }
        ensures err { OnErr result (self.new ≡ self.old) }
        ensures other { (result ≡ Err CannotGoOn.OtherPlan) ↔ (¬ AgreesWith self.old plan.now.bookings plan.now.assigned.items) }
    {
        let moment = self.moment();
        if !do_agree(&self.entries, plan, moment) || !are_ahead(plan, self.entries.len(), moment) {
            return Err(CannotGoOn::OtherPlan);
        }
        // Read for the prover alone, which learns a limit from it.
        let _rows = plan.bookings.len();
        let _channels = plan.channels.count();
        let Ok(entries) = with_past(alloc, &self.entries, plan) else {
            return Err(CannotGoOn::Memory);
        };
        let Ok(links) = linked(alloc, &entries) else {
            return Err(CannotGoOn::Memory);
        };
        self.waiting = first_waiting(&entries);
        self.entries = entries;
        self.following = links.following;
        self.due = 0;
        Ok(())
    }
}

/// The bookings of another plan, of which the first have what has become of those before, and their references.
fn with_past(alloc: Global, before: &[Entry], plan: &Plan) -> Result<Vec<Entry>, AllocError>
    requires { length before.now ≤ length plan.now.bookings }
    ensures { IfOk result (λ v. v.items ≡ with_past before.now (with_references before.now (entries_from 1 plan.now.bookings plan.now.assigned.items))) }
{
    let mut entries = entries(alloc, plan)?;
    put_past(&mut entries, before);
    Ok(entries)
}

/// Puts what has become of the bookings before, and their references, into the first of these.
fn put_past(entries: &mut [Entry], before: &[Entry])
    requires { length before.now ≤ length entries.old }
    ensures { entries.new ≡ with_past before.now (with_references before.now entries.old) }
{
    for index in 0..before.len() {
        entries[index] = changed_to(before[index], entries[index]);
    }
}

/// The same booking in another plan, with what has become of it, and its reference.
fn changed_to(before: Entry, planned: Entry) -> Entry
    ensures { result ≡ changed_to before planned }
{
    Entry {
        reference: before.reference,
        standing: past_or_planned(before.standing, planned.standing),
        ..planned
    }
}

/// What has become of a booking, by what it was so far and by how it stands at the opening of a plan.
fn past_or_planned(past: Standing, planned: Standing) -> Standing
    ensures { result ≡ past_or_planned past planned }
{
    match past {
        Standing::Refused | Standing::Unoffered => planned,
        past => past,
    }
}

/// Whether it was never live, and its end has not come.
fn was_never_live(standing: Standing) -> bool
    ensures { result ≡ was_never_live standing }
{
    match standing {
        Standing::Refused | Standing::Unoffered => true,
        _ => false,
    }
}

/// Whether the plan agrees with each of these bookings in its place, and may have new ones after them.
fn do_agree(entries: &[Entry], plan: &Plan, moment: u32) -> bool
    ensures { IsTrue result ↔ AgreeInPlace moment entries.now plan.now.bookings plan.now.assigned.items }
{
    if entries.len() > plan.bookings.len() as usize {
        return false;
    }
    if entries.len() < plan.bookings.len() as usize && !are_referred_by_row(entries) {
        return false;
    }
    for index in 0..entries.len() as u16 {
        let place = index as usize;
        if !agrees(
            &entries[place],
            &plan.bookings.nth(index),
            plan.assigned[place],
            moment,
        ) {
            return false;
        }
    }
    true
}

/// Whether each of these bookings has its row as the reference.
fn are_referred_by_row(entries: &[Entry]) -> bool
    ensures { IsTrue result ↔ AreReferredByRow entries.now }
{
    for index in 0..entries.len() {
        if entries[index].reference != entries[index].row {
            return false;
        }
    }
    true
}

/// Whether a row of a plan with this channel agrees with the booking so far.
fn agrees(entry: &Entry, booking: &Booking, channel: Option<Channel>, moment: u32) -> bool
    ensures { IsTrue result ↔ AgreesAt moment entry.now booking.now channel }
{
    let ahead = channel.is_none() || moment < booking.start();
    if was_never_live(entry.standing) && ahead {
        return true;
    }
    has_begun_as(entry, booking, channel, moment)
}

/// Whether nothing becomes of the row by this moment.
fn is_ahead(booking: &Booking, channel: Option<Channel>, moment: u32) -> bool
    ensures { IsTrue result ↔ IsAhead moment booking.now channel }
{
    channel.is_none() || moment < booking.start()
}

/// Whether the row has begun as this booking.
fn has_begun_as(entry: &Entry, booking: &Booking, channel: Option<Channel>, moment: u32) -> bool
    ensures { IsTrue result ↔ HasBegunAs moment entry.now booking.now channel }
{
    let Some(channel) = channel else {
        return false;
    };
    if entry.standing.is_refused() || channel.number() != entry.channel {
        return false;
    }
    if booking.start() != entry.booking.start()
        || booking.number() != entry.booking.number()
        || booking.is_inward() != entry.booking.is_inward()
    {
        return false;
    }
    ends_alike(moment, entry.booking.end(), booking.end())
        && entry.standing.is_over_by(booking.end())
}

/// Whether both ends are the same, or yet to come at this moment.
fn ends_alike(moment: u32, before: u32, after: u32) -> bool
    ensures { IsTrue result ↔ EndsAlike moment before after }
{
    after == before || (moment < before && moment < after)
}

/// Whether nothing becomes of any booking of the plan from a place on by this moment.
fn are_ahead(plan: &Plan, from: usize, moment: u32) -> bool
    ensures { IsTrue result ↔ AreAheadFrom moment from plan.now.bookings plan.now.assigned.items }
{
    for index in 0..plan.bookings.len() {
        if index as usize >= from
            && !is_ahead(
                &plan.bookings.nth(index),
                plan.assigned[index as usize],
                moment,
            )
        {
            return false;
        }
    }
    true
}
