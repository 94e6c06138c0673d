//! Seconds in which nothing happens.

ghost use Rattle.std.specs.Prelude.{◌≡◌, ◌≤◌, ◌-◌, length, not, replicate};
ghost use Rattle.bx_day.specs.QuietSeconds.{later_by, IsQuietTick, IsQuietFor, IsFirstDue, tick_due};
ghost use Rattle.bx_day.specs.SlotSteps.{IsDueOn, IsInside, slot_due};
ghost use Rattle.bx_events.specs.Events.{Tick};
ghost use Rattle.bx_day.specs.Run.{day_after};

use crate::entry::{Entry, Standing};
use crate::exchange::Exchange;
use crate::scheduling::booking_due;
use bx_channels::Channel;
use bx_events::LAST_MOMENT;

impl Exchange {
    /// For how many seconds nothing happens where no message comes: each of so many ticks sends nothing and
    /// changes nothing but the moment, and the one after them does something, or finds the day over. At most
    /// 300,000 less the moment. It looks at no more than each channel's slots, and takes no memory.
    pub fn quiet(&self) -> u32
        ensures each { IsQuietFor result self.now }
        ensures exact { ¬ IsQuietTick (later_by result self.now) }
        ensures limit { result ≤ LAST_MOMENT - self.now.moment }
    {
        let moment = self.moment();
        self.known_due().saturating_sub(moment + 1)
    }

    /// So many seconds later, all of which are quiet, as up to `quiet` are: at once what that many ticks would leave. It takes
    /// no memory.
    pub fn skip(&mut self, seconds: u32)
        requires { IsQuietFor seconds self.old }
        ensures ticks { self.new ≡ day_after (replicate seconds Tick) self.old }
        ensures moment { self.new ≡ later_by seconds self.old }
    {
        self.moment += seconds;
    }

    /// The first tick that does something to a booking, or the one after the day's last. It is looked for only where
    /// it is not known, as after a message.
    fn known_due(&self) -> u32
        ensures { IsFirstDue self.now (length self.now.entries) result }
    {
        if self.due > 0 {
            self.due
        } else {
            self.next_due()
        }
    }

    /// The same, channel by channel.
    pub(crate) fn next_due(&self) -> u32
        ensures { IsFirstDue self.now (length self.now.entries) result }
    {
        // Read for the prover alone, which learns a limit from it.
        let _moment = self.moment;
        let mut due = LAST_MOMENT + 1;
        for number in 1..32 {
            if let Some(channel) = Channel::new(number) {
                due = due.min(self.due_on(channel));
            }
        }
        due
    }

    /// The same of the bookings of one channel, where some is due before the day's last tick: that of its live one
    /// and of the first that waits.
    fn due_on(&self, channel: Channel) -> u32
        ensures { IsDueOn self.now channel result }
    {
        let free = self.is_free(channel);
        let live = slot_due(&self.entries, self.live[channel.number() as usize], free);
        let waiting = slot_due(&self.entries, self.waiting[channel.number() as usize], free);
        live.min(waiting)
    }
}

/// Of the booking of a slot, by whether its channel is neither held nor in maintenance.
fn slot_due(entries: &[Entry], slot: Option<u16>, free: bool) -> u32
    requires { IsInside entries.now slot }
    ensures { result ≡ slot_due entries.now free slot }
{
    match slot {
        Some(index) => tick_due(&entries[index as usize], free),
        None => LAST_MOMENT + 1,
    }
}

/// The first tick that does something to a booking, by whether its channel is neither held nor in maintenance.
fn tick_due(entry: &Entry, free: bool) -> u32
    ensures { result ≡ tick_due entry.now free entry.now.standing }
{
    match entry.standing {
        Standing::Unoffered if !free => entry.booking.end(),
        _ => booking_due(entry),
    }
}
