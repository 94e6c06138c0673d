//! The exchange during its day.

ghost use Rattle.std.specs.Prelude.{◌≡◌, ◌<◌, length, IfOk, IfSome, IfNone, true, false, ℕ};
ghost use Rattle.std.specs.List.{position};
ghost use Rattle.bx_base.specs.Bookings.{Carries};
ghost use Rattle.bx_base.specs.Plans.{is_accepted, channel_at};
ghost use Rattle.bx_channels.specs.Marks.{is_marked};
ghost use Rattle.bx_day.specs.Day.{opening, holds};
ghost use Rattle.bx_day.specs.Reading.{IsExchange, on_channel, outcome_at};
ghost use Rattle.bx_day.specs.Restoring.{IsState};

use crate::entry::{Entry, Standing};
use crate::linking::linked;
use crate::opening::entries;
use crate::outcome::{Outcome, outcome_from};
use bx_base::{ChannelSet, Plan};
use bx_calls::CallState;
use bx_channels::Channel;
use std::alloc::{AllocError, Global};
use std::marker::Model;

/// The exchange during its day: the moment in seconds from the day's start, what has become of each booking,
/// and the channels in maintenance.
#[derive(Drop)]
pub struct Exchange {
    pub(crate) moment: u32,
    /// One more than the moment that the last second without a link came to, 0 where there was none.
    pub(crate) unlinked: u32,
    pub(crate) entries: Vec<Entry>,
    pub(crate) maintenance: ChannelSet,
    /// For each channel the index of its live booking.
    pub(crate) live: [Option<u16>; 32],
    /// For each channel the index of the first of its bookings that wait.
    pub(crate) waiting: [Option<u16>; 32],
    /// For each booking the index of the next one on its channel.
    pub(crate) following: Vec<Option<u16>>,
    /// The first tick that does something again, or the one after the day's last; 0 where that is not known.
    pub(crate) due: u32,
}

impl Model for Exchange {
    ghost use Rattle.bx_day.specs.Day.{Day};
    ghost use Rattle.bx_day.specs.Slots.{IsIndexed};

    ghost Value = { Day };

    ghost view = { λ x. record { moment = x.moment; unlinked = x.unlinked; entries = x.entries.items; maintenance = x.maintenance } };

    ghost invariant = { λ x.
        IsIndexed (record { moment = x.moment; unlinked = x.unlinked; entries = x.entries.items; maintenance = x.maintenance }) x.live x.waiting x.following.items x.due };
}

impl Exchange {
    /// The exchange at the opening of its day: moment 0, nothing offered, nothing in maintenance. The plan's channels carry its
    /// accepted bookings, as those of a checked plan do. Only here an exchange takes memory: `AllocError` where memory ran
    /// out.
    pub fn new(alloc: Global, plan: &Plan) -> Result<Exchange, AllocError>
        requires { Carries plan.now.bookings plan.now.channels (is_accepted plan.now.assigned.items) (channel_at plan.now.assigned.items) }
        ensures { IfOk result (λ x. x ≡ opening plan.now.bookings plan.now.assigned.items) }
    {
        // Read for the prover alone, which learns a limit from it.
        let _rows = plan.bookings.len();
        let _channels = plan.channels.count();
        let entries = entries(alloc, plan)?;
        let links = linked(alloc, &entries)?;
        let waiting = links.first;
        Ok(Exchange {
            moment: 0,
            unlinked: 0,
            entries,
            maintenance: ChannelSet::empty(),
            live: [None; 32],
            waiting,
            following: links.following,
            due: 0,
        })
    }

    /// The moment: how many ticks there were, 0 to 300,000. Its clauses tell what an exchange keeps true of its day.
    pub fn moment(&self) -> u32
        ensures value { result ≡ self.now.moment }
        ensures day { IsExchange self.now }
        ensures state { IsState self.now }
    {
        self.moment
    }

    /// The live booking that holds the channel, by its row and the state of its call.
    pub fn on_channel(&self, channel: Channel) -> Option<(u16, CallState)>
        ensures { result ≡ on_channel self.now channel }
    {
        let index = self.holder(channel)?;
        match self.entries[index].standing {
            Standing::OnCall { call, .. } => Some((self.entries[index].row, call.state())),
            _ => None,
        }
    }

    /// The index of the booking that holds the channel.
    pub(crate) fn holder(&self, channel: Channel) -> Option<usize>
        ensures first { result ≡ position (holds channel) self.now.entries }
        ensures inside { IfSome result (λ i. i < length self.now.entries) }
    {
        match self.live[channel.number() as usize] {
            Some(index) => Some(index as usize),
            None => None,
        }
    }

    /// Whether the channel is in maintenance: a call on it was given up without an answer to its release.
    pub fn in_maintenance(&self, channel: Channel) -> bool
        ensures { result ≡ is_marked self.now.maintenance channel }
    {
        self.maintenance.has(channel)
    }

    /// The bookings of the plan in the order of its rows, with what has become of each.
    pub fn entries(&self) -> &[Entry]
        ensures { result.now ≡ self.now.entries }
    {
        &self.entries
    }

    /// What has become of the booking of a row, where rows are named 1, 2, ..
    pub fn outcome(&self, row: u16) -> Option<Outcome>
        ensures { result ≡ outcome_at self.now row }
    {
        if row == 0 || row as usize > self.entries.len() {
            return None;
        }
        Some(outcome_from(self.entries[row as usize - 1].standing))
    }
}
