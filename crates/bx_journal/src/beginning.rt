//! Beginning a journal.

ghost use Rattle.std.specs.Prelude.{◌≡◌, [], IsTrue, OnOk, OnErr};
ghost use Rattle.bx_journal.specs.Heads.{IsJournalDay};
ghost use Rattle.bx_journal.specs.Logging.{IsSettled, LeavesUnbegun};

use crate::disk::{Disk, DiskFailed};
use crate::head::Head;
use crate::written::head_text;

/// Begins a journal on an empty disk: writes the three lines of its head, and syncs. The pace of a live day is at least 1. `DiskFailed` where
/// one of these failed.
pub fn begin<D: Disk>(disk: &mut D, head: &Head) -> Result<(), DiskFailed>
    ensures begun { OnOk result (IsJournalDay head.now.day → D.holds disk.old [] → IsSettled D.holds D.may_leave disk.new head.now []) }
    // A crash at any moment of the call leaves a journal that was never begun, or one without an event.
    ensures any_moment { LeavesUnbegun D.holds D.may_leave D.moment D.left_since disk.old head.now disk.new }
    ensures failed { OnErr result (IsTrue (D.has_failed disk.new)) }
    ensures unfailed { OnOk result (D.has_failed disk.new ≡ D.has_failed disk.old) }
{
    let text = head_text(head);
    disk.append(&text)?;
    disk.sync()
}
