//! Going on with a journal after a crash.

ghost use Rattle.std.specs.Prelude.{◌≡◌, ◌≤◌, ℕ, List, length, take, IsTrue, OnOk, OnErr};
ghost use Rattle.bx_journal.specs.Disk.{LeavesOnly, Only};
ghost use Rattle.bx_journal.specs.Resuming.{IsResumed, LeavesReadAs};
ghost use Rattle.bx_journal.specs.Inside.{IsCutBack};

use crate::disk::{Disk, DiskFailed};

/// Cuts a disk to so many octets, and syncs.
fn cut_back<D: Disk>(disk: &mut D, len: u64) -> Result<(), DiskFailed>
    ensures written { OnOk result ((text : List ℕ) → D.holds disk.old text → len ≤ length text → D.holds disk.new (take len text)) }
    ensures durable { OnOk result ((text : List ℕ) → D.holds disk.old text → len ≤ length text → Only (take len text) (D.may_leave disk.new)) }
    ensures any_moment { (text : List ℕ) → Only text (D.may_leave disk.old) → LeavesOnly D.moment D.left_since disk.old disk.new (IsCutBack len text) }
    ensures failed { OnErr result (IsTrue (D.has_failed disk.new)) }
    ensures unfailed { OnOk result (D.has_failed disk.new ≡ D.has_failed disk.old) }
{
    disk.cut(len)?;
    disk.sync()
}

/// Cuts off what a crash tore from a journal that was read, by how many of its octets were whole lines, so that more events can
/// be logged after it. Events go on only in the journal of the head that was wanted when it was read. It may crash too, at any
/// moment, and the same events stay in the journal. `DiskFailed` where the cut or the sync failed.
pub fn resume<D: Disk>(disk: &mut D, whole: u64) -> Result<(), DiskFailed>
    ensures resumed { OnOk result (IsResumed D.holds D.may_leave disk.old whole disk.new) }
    ensures any_moment { LeavesReadAs D.may_leave D.moment D.left_since disk.old whole disk.new }
    ensures failed { OnErr result (IsTrue (D.has_failed disk.new)) }
    ensures unfailed { OnOk result (D.has_failed disk.new ≡ D.has_failed disk.old) }
{
    cut_back(disk, whole)
}
