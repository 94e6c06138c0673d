//! Places that wait, the nearest first.

ghost use Rattle.bx_heap.specs.Nearness.{by_nearness, IsNearest, KeepsUnranked};
ghost use Rattle.std.proofs.Props.{props};
ghost use Rattle.std.specs.BinaryHeap.{IsHeap, heap_items};
ghost use Rattle.std.specs.Prelude.{◌≡◌, ◌≤◌, ◌<◌, ℕ, [], ◌∷◌, All, Contains, OnOk, IfSome, IfNone, IsPermutation, Some, length};

use std::alloc::{AllocError, Global};
use std::collections::BinaryHeap;

/// A heap of places with how near each was when it was put there.
#[derive(Drop)]
pub struct Waiting {
    pub places: BinaryHeap<(u64, u16)>,
    ghost ordered: { IsHeap by_nearness (heap_items places) } by { Prim.hlevel props },
}

impl Waiting {
    pub(crate) fn new(alloc: Global) -> Waiting
        ensures { heap_items result.places ≡ [] }
    {
        Waiting {
            places: BinaryHeap::new(alloc),
        }
    }

    pub(crate) fn push(&mut self, nearness: u64, place: u16) -> Result<(), AllocError>
        ensures { OnOk result (IsPermutation ((nearness, place) ∷ heap_items self.old.places) (heap_items self.new.places)) }
    {
        self.places.push((nearness, place))?;
        Ok(())
    }

    /// Takes the nearest.
    fn pop(&mut self) -> Option<(u64, u16)>
        ensures rest { IfSome result (λ e. IsPermutation (heap_items self.old.places) (e ∷ heap_items self.new.places)) }
        ensures nearest { IfSome result (λ e. All (λ y. y.0 ≤ e.0) (heap_items self.new.places)) }
        ensures none { IfNone result ((heap_items self.old.places ≡ []) × (heap_items self.new.places ≡ [])) }
    {
        self.places.pop()
    }

    /// Takes the nearest place that has no rank yet, and drops those before it.
    pub(crate) fn next_unsettled(&mut self, ranks: &[u16]) -> Option<u16>
        requires { (n v : ℕ) → Contains (heap_items self.old.places) (n, v) → v < length ranks.now }
        ensures kept { KeepsUnranked ranks.now (heap_items self.old.places) (heap_items self.new.places) result }
        ensures only { (n v : ℕ) → Contains (heap_items self.new.places) (n, v) → Contains (heap_items self.old.places) (n, v) }
        ensures nearest { IfSome result (IsNearest ranks.now (heap_items self.old.places)) }
        ensures none { IfNone result (heap_items self.new.places ≡ []) }
    {
        while let Some((_, place)) = self.pop() {
            if ranks[place as usize] == 0 {
                return Some(place);
            }
        }
        None
    }
}
