//! Events are logged.

ghost use Rattle.std.specs.Prelude.{◌≡◌, ◌≤◌, ◌∷◌, [], map, IsTrue, OnOk, OnErr};
ghost use Rattle.bx_events.specs.Told.{live_event_of};
ghost use Rattle.bx_journal.specs.Events.{IsLoggable, AreMessages};
ghost use Rattle.bx_journal.specs.Logging.{LogsEvent, AddsPending, LeavesPending, SettlesPending, LeavesUnsettled, AddsSettled, LeavesSettled};

use crate::disk::{Disk, DiskFailed};
use crate::written::line_of;
use bx_events::LiveEvent;

/// Writes the line of an event after the others. It is logged when the journal is committed, and not before. Octets that came
/// are at most `MAX_MESSAGE`. `DiskFailed` where the write failed.
pub fn write_event<D: Disk>(disk: &mut D, event: LiveEvent<'_>) -> Result<(), DiskFailed>
    requires { IsLoggable (live_event_of event) }
    ensures written { OnOk result (AddsPending D.holds D.may_leave disk.old (live_event_of event.entry) disk.new) }
    // A crash at any moment of the call leaves the events that are logged, and a prefix of the others.
    ensures any_moment { LeavesPending D.holds D.may_leave D.moment D.left_since disk.old (live_event_of event.entry ∷ []) disk.new }
    // It does not give up by itself.
    ensures failed { OnErr result (IsTrue (D.has_failed disk.new)) }
    ensures unfailed { OnOk result (D.has_failed disk.new ≡ D.has_failed disk.old) }
{
    let line = line_of(event);
    disk.append(&line)
}

/// Puts all events that were written in the journal. At `Ok` each crash from then on leaves a text that has them. At `DiskFailed`, where
/// the sync failed, some of them may be logged: none must be acted on, and the journal has to be read again before anything else
/// is written to it.
pub fn commit<D: Disk>(disk: &mut D) -> Result<(), DiskFailed>
    ensures committed { OnOk result (SettlesPending D.holds D.may_leave disk.old disk.new) }
    ensures any_moment { LeavesUnsettled D.holds D.may_leave D.moment D.left_since disk.old disk.new }
    ensures failed { OnErr result (IsTrue (D.has_failed disk.new)) }
    ensures unfailed { OnOk result (D.has_failed disk.new ≡ D.has_failed disk.old) }
{
    disk.sync()
}

/// Logs an event: it is to be called before anything is done about the event. Octets that came are at most `MAX_MESSAGE`. At `Ok`
/// each crash from then on leaves a text that has it. At `DiskFailed`, where the write or the sync failed, it may be logged or
/// not.
pub fn log_event<D: Disk>(disk: &mut D, event: LiveEvent<'_>) -> Result<(), DiskFailed>
    requires { IsLoggable (live_event_of event) }
    ensures logged { OnOk result (AddsSettled D.holds D.may_leave disk.old (live_event_of event.entry ∷ []) disk.new) }
    // What a run of such calls leaves is a law (`laws::front_is_left`).
    ensures step { OnOk result (LogsEvent D.holds D.may_leave D.moment D.left_since disk.old (live_event_of event.entry) disk.new) }
    // A crash at any moment of the call leaves the events from before it, with the new one or without.
    ensures any_moment { LeavesSettled D.holds D.may_leave D.moment D.left_since disk.old (live_event_of event.entry ∷ []) disk.new }
    ensures failed { OnErr result (IsTrue (D.has_failed disk.new)) }
    ensures unfailed { OnOk result (D.has_failed disk.new ≡ D.has_failed disk.old) }
{
    write_event(disk, event)?;
    commit(disk)
}

/// Logs events by one sync, as those of a turn before what is sent in it goes out. Octets that came are at most `MAX_MESSAGE` for
/// each event. At `DiskFailed`, where a write or the sync failed, a prefix of them may be logged.
pub fn log_events<D: Disk>(disk: &mut D, events: &[LiveEvent<'_>]) -> Result<(), DiskFailed>
    requires { AreMessages events.now }
    ensures logged { OnOk result (AddsSettled D.holds D.may_leave disk.old (map live_event_of events.now) disk.new) }
    // A crash at any moment of the call leaves the events from before it, and a prefix of these: none is skipped.
    ensures any_moment { LeavesSettled D.holds D.may_leave D.moment D.left_since disk.old (map live_event_of events.now) disk.new }
    ensures failed { OnErr result (IsTrue (D.has_failed disk.new)) }
    ensures unfailed { OnOk result (D.has_failed disk.new ≡ D.has_failed disk.old) }
{
    for event in events {
        write_event(disk, *event)?;
    }
    commit(disk)
}
