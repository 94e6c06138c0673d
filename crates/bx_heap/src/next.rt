//! The nearest place that is not settled yet.

ghost use Rattle.bx_heap.specs.Searching.{state_from, IsSoundState, InEachSetting, IsNextPlace, HasRested};
ghost use Rattle.std.specs.Prelude.{◌≡◌, ◌≤◌, ◌<◌, ◌⊎◌, ◌-ℤ◌, ℕ, [], pos, nat_abs, Contains, OnOk, IfOk, IfSome, IfNone, Some, length, slice_index};

use crate::frontier::Frontier;
use bx_dist::Potentials;
use std::alloc::AllocError;

/// 2 to the power of 61, which is more than any reduced length: these are at most 1,660,000,000,000,000,000, a length that may be
/// added and a height.
const FAR: i64 = 2_305_843_009_213_693_952;

impl Frontier {
    /// The nearest place that has no rank yet, or none where all have one.
    pub(crate) fn next(&mut self, potentials: &Potentials) -> Result<Option<u16>, AllocError>
        requires { IsSoundState potentials.now (state_from self.old) }
        ensures next { InEachSetting potentials.now (state_from self.old) (λ s. IfOk result (IsNextPlace s (state_from self.old) (state_from self.new))) }
        ensures count { IfOk result (λ _. self.new.count ≡ self.old.count) }
    {
        if let Some(place) = next_of(&mut self.tight, &self.ranks) {
            return Ok(Some(place));
        }
        self.file(potentials)?;
        Ok(self.next_waiting(potentials))
    }

    /// Puts the places that were reached of late into the heap.
    fn file(&mut self, potentials: &Potentials) -> Result<(), AllocError>
        requires { IsSoundState potentials.now (state_from self.old) }
        ensures resting { OnOk result (HasRested potentials.now (state_from self.old) (state_from self.new)) }
        ensures tight { OnOk result (self.new.tight.items ≡ self.old.tight.items) }
        ensures fresh { OnOk result (self.new.fresh.items ≡ []) }
        ensures count { OnOk result (self.new.count ≡ self.old.count) }
    {
        while let Some(place) = next_of(&mut self.fresh, &self.ranks) {
            let nearness = nearness(self.reduced(potentials, place));
            self.waiting.push(nearness, place)?;
        }
        Ok(())
    }

    /// Takes the nearest place from the heap, where nothing waits elsewhere.
    fn next_waiting(&mut self, potentials: &Potentials) -> Option<u16>
        requires sound { IsSoundState potentials.now (state_from self.old) }
        requires tight { self.old.tight.items ≡ [] }
        requires fresh { self.old.fresh.items ≡ [] }
        ensures next { InEachSetting potentials.now (state_from self.old) (λ s. IsNextPlace s (state_from self.old) (state_from self.new) result) }
        ensures count { self.new.count ≡ self.old.count }
    {
        let place = self.waiting.next_unsettled(&self.ranks)?;
        self.level = self.reduced(potentials, place);
        Some(place)
    }
}

/// Takes places from a list until one has no rank yet.
fn next_of(places: &mut Vec<u16>, ranks: &[u16]) -> Option<u16>
    requires { (v : ℕ) → Contains places.old.items v → v < length ranks.now }
    ensures kept { (v : ℕ) → Contains places.old.items v → slice_index ranks.now v ≡ 0 → Contains places.new.items v ⊎ (result ≡ Some v) }
    ensures only { (v : ℕ) → Contains places.new.items v → Contains places.old.items v }
    ensures some { IfSome result (λ p. Contains places.old.items p × (slice_index ranks.now p ≡ 0)) }
    ensures none { IfNone result (places.new.items ≡ []) }
    ensures fewer { IfSome result (λ p. length places.new.items < length places.old.items) }
{
    while let Some(place) = places.pop() {
        if ranks[place as usize] == 0 {
            return Some(place);
        }
    }
    None
}

/// How near a place of this reduced length is: the nearer, the more.
fn nearness(reduced: i64) -> u64
    requires { nat_abs reduced ≤ 1660000000000000000 }
    ensures { pos result ≡ (pos 2305843009213693952 -ℤ reduced) }
{
    (FAR - reduced) as u64
}
