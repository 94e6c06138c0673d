//! A disk that is synced once, at the end.

ghost use Rattle.std.specs.Prelude.{◌≡◌, ℕ, List, IfOk};
ghost use Rattle.bx_journal.specs.Disk.{Only};
ghost use Rattle.bx_rehearsal_commands.specs.declared.waiting.WaitingDisk.{WaitingDisk as PlainWaitingDisk};

use bx_journal::{Disk, DiskFailed};

/// A disk on which nothing is synced before it is put away, as that of a day whose seconds are not real. It holds what the disk inside
/// holds. Of a crash before it is put away nothing is said.
#[derive(Drop)]
pub struct WaitingDisk<D: Disk> {
    disk: D,
}

impl<D: Disk> WaitingDisk<D> {
    /// A disk that is synced no more until it is put away.
    pub fn new(disk: D) -> Self
        ensures { result.disk ≡ disk }
    {
        WaitingDisk { disk }
    }

    /// The disk inside. From then on each crash leaves what it holds. `DiskFailed` where it cannot be synced.
    pub fn put_away(self) -> Result<D, DiskFailed>
    where
        D: Drop,
        ensures kept { IfOk result (λ disk. (text : List ℕ) → D.holds self.disk text → D.holds disk text × Only text (D.may_leave disk)) }
        ensures synced { IfOk result D.has_synced }
    {
        let WaitingDisk { mut disk } = self;
        disk.sync()?;
        Ok(disk)
    }
}

impl<D: Disk> Disk for WaitingDisk<D> {
    ghost holds = { λ w text. D.holds w.disk text };

    ghost may_leave = { λ w c. ⊥ };

    ghost moment = { λ w. 0 };

    ghost left_since = { λ w t c. ⊥ };

    ghost has_failed = { λ w. D.has_failed w.disk };

    ghost has_synced = { λ disk. Unit {0} };

    ghost counts_now = { λ w t c le now. now };

    ghost only_now = { λ w c left. left };

    fn append(&mut self, octets: &[u8]) -> Result<(), DiskFailed> {
        self.disk.append(octets)
    }

    fn cut(&mut self, len: u64) -> Result<(), DiskFailed> {
        self.disk.cut(len)
    }

    fn sync(&mut self) -> Result<(), DiskFailed> {
        Ok(())
    }
}
