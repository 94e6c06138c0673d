//! A disk in memory. Each call is done at once, so a crash leaves what is there. It keeps each past content.

ghost use Rattle.std.specs.Prelude.{◌≡◌, ◌≤◌, ◌⊎◌, false, [], ◌∷◌, ◌++◌, length, drop, take, OnOk, OnErr};
ghost use Rattle.std.proofs.Common.{inl};
ghost use Rattle.bx_journal.specs.Past.{HadBeen, only_bytes};

use crate::disk::{Disk, DiskFailed};
use std::alloc::{AllocError, Global};

/// Octets in memory, as a disk. Where memory runs out that is a write that failed.
#[derive(Drop)]
pub struct MemoryDisk {
    alloc: Global,
    octets: Vec<u8>,
    past: Vec<Vec<u8>>,
    has_failed: bool,
}

impl MemoryDisk {
    ghost use Rattle.bx_journal.specs.Memory.{memory_octets};
    ghost use Rattle.bx_journal.specs.MemoryInside.{memory_past, memory_failed};

    /// A disk with these octets.
    pub fn new(alloc: Global, octets: Vec<u8>) -> Self
        ensures { memory_octets result ≡ octets.items }
    {
        MemoryDisk {
            alloc,
            octets,
            past: Vec::new(alloc),
            has_failed: false,
        }
    }

    fn appended(&mut self, octets: &[u8]) -> Result<(), AllocError>
        ensures ok { OnOk result (memory_octets self.new ≡ memory_octets self.old ++ octets.now) }
        ensures err { OnErr result (memory_octets self.new ≡ memory_octets self.old) }
        ensures past { OnOk result ((v : _) × (v.items ≡ memory_octets self.old) × (memory_past self.new ≡ memory_past self.old ++ v ∷ [])) }
        ensures past_err { OnErr result (memory_past self.new ≡ memory_past self.old) }
        ensures failed { memory_failed self.new ≡ memory_failed self.old }
    {
        let mut next = self.octets.to_vec(self.alloc)?;
        next.extend_from_slice(octets)?;
        replace(self.alloc, &mut self.octets, &mut self.past, next)
    }

    fn cut_to(&mut self, len: u64) -> Result<(), AllocError>
        ensures ok { OnOk result (memory_octets self.new ≡ take len (memory_octets self.old)) }
        ensures err { OnErr result (memory_octets self.new ≡ memory_octets self.old) }
        ensures past { OnOk result ((v : _) × (v.items ≡ memory_octets self.old) × (memory_past self.new ≡ memory_past self.old ++ v ∷ [])) }
        ensures past_err { OnErr result (memory_past self.new ≡ memory_past self.old) }
        ensures failed { memory_failed self.new ≡ memory_failed self.old }
    {
        let next = if len < self.octets.len() as u64 {
            self.octets[..len as usize].to_vec(self.alloc)?
        } else {
            self.octets.to_vec(self.alloc)?
        };
        replace(self.alloc, &mut self.octets, &mut self.past, next)
    }

    /// What is on it.
    pub fn octets(&self) -> &[u8]
        ensures { result.now ≡ memory_octets self.now }
    {
        &self.octets
    }
}

/// Puts other octets in the place of those that are there, which it keeps.
fn replace(
    alloc: Global,
    octets: &mut Vec<u8>,
    past: &mut Vec<Vec<u8>>,
    next: Vec<u8>,
) -> Result<(), AllocError>
    ensures ok { OnOk result (octets.new.items ≡ next.items) }
    ensures err { OnErr result (octets.new.items ≡ octets.old.items) }
    ensures past { OnOk result ((v : _) × (v.items ≡ octets.old.items) × (past.new.items ≡ past.old.items ++ v ∷ [])) }
    ensures past_err { OnErr result (past.new.items ≡ past.old.items) }
{
    past.push(octets.to_vec(alloc)?)?;
    *octets = next;
    Ok(())
}

impl Disk for MemoryDisk {
    ghost holds = { λ disk text. text ≡ disk.octets.items };

    ghost may_leave = { λ disk c. c ≡ disk.octets.items };

    ghost moment = { λ disk. length disk.past.items };

    ghost left_since = { λ disk t c. (c ≡ disk.octets.items) ⊎ HadBeen (drop t disk.past.items) c };

    ghost has_failed = { λ disk. disk.has_failed };

    ghost has_synced = { λ disk. Unit {0} };

    ghost counts_now = { λ disk t c le now. inl now };

    ghost only_now = { λ disk c left. only_bytes disk.past.items disk.octets.items c left };

    fn append(&mut self, octets: &[u8]) -> Result<(), DiskFailed> {
        match self.appended(octets) {
            Ok(()) => Ok(()),
            Err(_) => {
                self.has_failed = true;
                Err(DiskFailed)
            }
        }
    }

    fn cut(&mut self, len: u64) -> Result<(), DiskFailed> {
        match self.cut_to(len) {
            Ok(()) => Ok(()),
            Err(_) => {
                self.has_failed = true;
                Err(DiskFailed)
            }
        }
    }

    fn sync(&mut self) -> Result<(), DiskFailed> {
        Ok(())
    }
}
