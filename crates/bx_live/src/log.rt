//! What a live day logs.

ghost use Rattle.std.specs.Prelude.{◌≡◌, ◌≤◌, true, false, length, is_ok, Some, None};
ghost use Rattle.bx_events.specs.Told.{live_event_of};
ghost use Rattle.bx_journal.specs.Events.{IsLoggable};
ghost use Rattle.bx_live.specs.Acts.{Synced};
ghost use Rattle.bx_live.specs.Logs.{WritesEvent, Commits, OnLog, WritesKept};

use crate::world::CannotLog;
use bx_events::{Amendment, Event, LiveEvent, Rules};
use bx_journal::{Disk, are_printable, commit, write_event};
use bx_q931::MAX_MESSAGE;

/// The journal of a day, on its disk, where one is kept.
#[derive(Drop)]
pub struct Log<D: Disk> {
    pub disk: Option<D>,
}

/// Whether an event may be logged: it happens by the rules of this program, what came is no longer than the longest message, and what
/// amends the plan is printable and no longer than its line may be.
fn is_message(event: LiveEvent<'_>) -> bool
    ensures taken { result ≡ true → IsLoggable (live_event_of event.entry) }
    ensures refused { result ≡ false → IsLoggable (live_event_of event.entry) → ⊥ }
{
    match event {
        LiveEvent::OnLink(Event::Receive(octets)) => octets.len() <= MAX_MESSAGE,
        LiveEvent::OnLink(Event::Tick) | LiveEvent::WithoutLink(Rules::Three) => true,
        // These stand in older journals alone.
        LiveEvent::HeardByRulesTwo(_) | LiveEvent::WithoutLink(Rules::Two) => false,
        LiveEvent::Amended(Amendment::SoldByRulesTwo, _) => false,
        LiveEvent::Amended(_, line) => line.len() <= 200 && are_printable(line),
    }
}

/// Writes the line of an event.
fn write_line<D: Disk>(disk: &mut D, event: LiveEvent<'_>) -> Result<(), CannotLog>
    ensures { WritesEvent D.holds D.may_leave D.moment D.left_since D.has_failed disk.old (live_event_of event.entry) (is_ok result) disk.new }
{
    if !is_message(event) {
        return Err(CannotLog);
    }
    match write_event(disk, event) {
        Ok(()) => Ok(()),
        Err(_) => Err(CannotLog),
    }
}

/// Brings what was written to the disk.
fn bring_to_disk<D: Disk>(disk: &mut D) -> Result<(), CannotLog>
    ensures { Commits D.holds D.may_leave D.moment D.left_since D.has_failed disk.old (is_ok result) disk.new }
{
    match commit(disk) {
        Ok(()) => Ok(()),
        Err(_) => Err(CannotLog),
    }
}

impl<D: Disk> Log<D> {
    /// Logs an event, where a journal is kept. It need not be on the disk before the next sync. `CannotLog` where what
    /// came has more than `MAX_MESSAGE` octets, or the event is one by the rules 2, or the disk did not take the line.
    pub fn log(&mut self, event: LiveEvent<'_>) -> Result<(), CannotLog>
        ensures { WritesKept D.holds D.may_leave D.moment D.left_since D.has_failed self.old.disk (live_event_of event.entry) (is_ok result) self.new.disk }
    {
        match &mut self.disk {
            Some(disk) => write_line(disk, event),
            None => Ok(()),
        }
    }

    /// What was logged is on the disk, where a journal is kept. `CannotLog` where the disk did not do that.
    pub fn sync(&mut self) -> Result<(), CannotLog>
        ensures { OnLog D.holds D.may_leave D.moment D.left_since D.has_failed self.old.disk (Synced (is_ok result)) self.new.disk }
    {
        match &mut self.disk {
            Some(disk) => bring_to_disk(disk),
            None => Ok(()),
        }
    }
}
