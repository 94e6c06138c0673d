//! A disk as the journal sees it: what was written, and what a crash may leave.

ghost use Rattle.std.specs.Prelude.{◌≡◌, ◌≤◌, ◌++◌, Bool, List, ℕ, length, take, IsTrue, OnOk, OnErr};
ghost use Rattle.bx_journal.specs.Disk.{Only, Follows, IsCutAt, Elapses, LeavesTorn};

/// A write, a cut or a sync failed.
#[derive(Clone, Copy, Debug, PartialEq, Eq)]
pub struct DiskFailed;

/// What a journal is logged on. One that does not tell its octets, as a file, holds no text that is known.
pub trait Disk {
    /// The octets that it holds are these, on the disk or not.
    ghost holds: { Self → List ℕ → Type 0 };

    /// What a crash at this moment may leave.
    ghost may_leave: { Self → List ℕ → Type 0 };

    /// The moment, as a number that does not fall.
    ghost moment: { Self → ℕ };

    /// What a crash at some moment from that one on might have left, during a call or between two.
    ghost left_since: { Self → ℕ → List ℕ → Type 0 };

    /// Whether a call has failed.
    ghost has_failed: { Self → Bool };

    /// What it is written into has said that all of it outlasts a crash.
    ghost has_synced: { Self → Type 0 };

    /// Writes after what is there. Until a sync, a crash may leave any prefix of it, after all that was there.
    fn append(&mut self, octets: &[u8]) -> Result<(), DiskFailed>
        ensures written { OnOk result ((text : List ℕ) → holds self.old text → holds self.new (text ++ octets.now)) }
        ensures crash { LeavesTorn holds may_leave octets.now self.old self.new }
        ensures time { Elapses (moment self.old) (moment self.new) (left_since self.old) (left_since self.new) (may_leave self.new) }
        ensures failed { OnErr result (IsTrue (has_failed self.new)) }
        ensures unfailed { OnOk result (has_failed self.new ≡ has_failed self.old) };

    /// Cuts what is there to so many octets.
    fn cut(&mut self, len: u64) -> Result<(), DiskFailed>
        ensures written { OnOk result ((text : List ℕ) → holds self.old text → len ≤ length text → holds self.new (take len text)) }
        ensures crash { Follows (IsCutAt len) (may_leave self.old) (may_leave self.new) }
        ensures time { Elapses (moment self.old) (moment self.new) (left_since self.old) (left_since self.new) (may_leave self.new) }
        ensures failed { OnErr result (IsTrue (has_failed self.new)) }
        ensures unfailed { OnOk result (has_failed self.new ≡ has_failed self.old) };

    /// After it a crash leaves what the disk holds.
    fn sync(&mut self) -> Result<(), DiskFailed>
        ensures synced { OnOk result (has_synced self.new) }
        ensures durable { OnOk result ((text : List ℕ) → holds self.old text → Only text (may_leave self.new)) }
        ensures kept { (text : List ℕ) → holds self.old text → holds self.new text }
        ensures crash { (c : List ℕ) → may_leave self.new c → may_leave self.old c }
        ensures time { Elapses (moment self.old) (moment self.new) (left_since self.old) (left_since self.new) (may_leave self.new) }
        ensures failed { OnErr result (IsTrue (has_failed self.new)) }
        ensures unfailed { OnOk result (has_failed self.new ≡ has_failed self.old) };

    /// This moment is one of those since an earlier one.
    ghost counts_now: { (disk : Self) (t : ℕ) (c : List ℕ) → t ≤ moment disk → may_leave disk c → left_since disk t c };

    /// Since this moment there is no other.
    ghost only_now: { (disk : Self) (c : List ℕ) → left_since disk (moment disk) c → may_leave disk c };
}
