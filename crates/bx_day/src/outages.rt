//! Many seconds without a link at once.

ghost use Rattle.std.specs.Prelude.{◌≡◌, ◌≤◌, ◌<◌, ◌+◌, ℕ, length, replicate, Some};
ghost use Rattle.std.specs.List.{AllByRecursion};
ghost use Rattle.bx_base.specs.declared.bookings.TheConstants.{MAX_BOOKINGS};
ghost use Rattle.bx_events.specs.Events.{WithoutLink};
ghost use Rattle.bx_day.specs.Outages.{live_day_after};
ghost use Rattle.bx_day.specs.Outlasting.{unlinked_for, IfTimersFit, outlasted, AreOutlasting, starts_before, with_waiting, AreEarliest};
ghost use Rattle.bx_day.specs.Reading.{Seated};
ghost use Rattle.bx_day.specs.Slots.{slot_at};
ghost use Rattle.bx_day.specs.SlotSteps.{IsInside};

use crate::entry::{Entry, Standing};
use crate::exchange::Exchange;
use crate::moving::follow;
use bx_channels::Channel;
use bx_events::{LAST_MOMENT, Rules};

impl Exchange {
    /// So many seconds later, in none of which there is a link to the far end, by these rules: at once what that many seconds
    /// without a link would leave, up to moment 300,000. It looks at each booking once, however many seconds there are, and takes
    /// no memory.
    pub fn skip_without_link(&mut self, seconds: u32, rules: Rules)
        ensures { self.new ≡ live_day_after (replicate seconds (WithoutLink rules)) self.old }
    {
        let before = self.moment();
        let seconds = seconds.min(LAST_MOMENT - before);
        outlast(&mut self.entries, seconds, rules, before + seconds);
        self.waiting = first_waiting(&self.entries);
        self.unlinked = unlinked_for(seconds, before, self.unlinked);
        self.moment = before + seconds;
        self.due = 0;
    }
}

/// One more than the moment that the last second without a link came to, after so many of them at this moment.
fn unlinked_for(seconds: u32, moment: u32, before: u32) -> u32
    requires { moment + seconds ≤ LAST_MOMENT }
    ensures { result ≡ unlinked_for seconds moment before }
{
    if seconds == 0 {
        before
    } else {
        moment + seconds + 1
    }
}

/// Brings each booking to this moment, after so many seconds without a link.
fn outlast(entries: &mut [Entry], seconds: u32, rules: Rules, moment: u32)
    requires { moment ≤ LAST_MOMENT }
    ensures { AreOutlasting rules seconds moment (length entries.old) entries.old entries.new }
{
    for index in 0..entries.len() {
        let standing = outlasted(&entries[index], seconds, rules, moment);
        entries[index].standing = standing;
    }
}

/// What has become of a booking at this moment, after so many seconds without a link.
fn outlasted(entry: &Entry, seconds: u32, rules: Rules, moment: u32) -> Standing
    requires { moment ≤ LAST_MOMENT }
    ensures { IfTimersFit seconds entry.now.standing (result ≡ outlasted rules seconds moment entry.now.booking entry.now.standing) }
{
    let end = entry.booking.end();
    match entry.standing {
        Standing::OnCall { call, activity } => {
            let step = call.on_seconds_unlinked(seconds, rules, moment, end);
            follow(step, activity, end).standing
        }
        Standing::Unoffered if end <= moment => Standing::Missed,
        standing => standing,
    }
}

/// For each channel the first of its bookings that wait.
pub(crate) fn first_waiting(entries: &[Entry]) -> [Option<u16>; 32]
    requires few { length entries.now ≤ MAX_BOOKINGS }
    requires seated { AllByRecursion Seated entries.now }
    ensures { AreEarliest entries.now (length entries.now) result }
{
    let mut first = [None; 32];
    for index in 0..entries.len() as u16 {
        put_waiting(&mut first, entries, index);
    }
    first
}

/// Puts the booking of an index into the slot of its channel, where it waits and starts before the one that is there.
fn put_waiting(first: &mut [Option<u16>; 32], entries: &[Entry], index: u16)
    requires inside { index < length entries.now }
    requires seated { AllByRecursion Seated entries.now }
    requires slots { (c : ℕ) → IsInside entries.now (slot_at first.old c) }
    ensures { first.new ≡ with_waiting entries.now index first.old }
{
    let entry = entries[index as usize];
    if let (Standing::Unoffered, Some(channel)) = (entry.standing, Channel::new(entry.channel)) {
        let number = channel.number() as usize;
        if starts_before(entries, index, first[number]) {
            first[number] = Some(index);
        }
    }
}

/// Whether the booking of an index starts before that of a slot, if there is one.
fn starts_before(entries: &[Entry], index: u16, slot: Option<u16>) -> bool
    requires inside { index < length entries.now }
    requires slot { IsInside entries.now slot }
    ensures { result ≡ starts_before entries.now index slot }
{
    match slot {
        Some(other) => {
            entries[index as usize].booking.start() < entries[other as usize].booking.start()
        }
        None => true,
    }
}
