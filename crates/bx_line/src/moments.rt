//! The places of the line.

ghost use Rattle.std.specs.Prelude.{◌≡◌, ◌≤◌, ◌<◌, ℕ, IfOk, vec_len, length, Contains, slice_index};
ghost use Rattle.std.specs.List.Sorted.{IsStrictlyIncreasing};
ghost use Rattle.bx_line.specs.Cliques.{shorter_places};
ghost use Rattle.bx_line.specs.Moments.{HasJustMoments};
ghost use Rattle.bx_line.specs.declared.line.TheConstants.{MAX_PLACES};

use bx_base::Bookings;
use std::alloc::{AllocError, Global};

/// The moments at which bookings start or end, each once.
pub(crate) fn moments_of(alloc: Global, bookings: &Bookings) -> Result<Vec<u32>, AllocError>
    ensures rising { IfOk result (λ v. IsStrictlyIncreasing v.items) }
    ensures just { IfOk result (λ v. HasJustMoments bookings.now v.items) }
    ensures few { IfOk result (λ v. vec_len v ≤ MAX_PLACES) }
{
    let mut moments = ends_of(alloc, bookings)?;
    moments.sort_unstable();
    moments.dedup();
    Ok(moments)
}

/// The start and the end of each booking.
fn ends_of(alloc: Global, bookings: &Bookings) -> Result<Vec<u32>, AllocError>
    ensures just { IfOk result (λ v. HasJustMoments bookings.now v.items) }
    ensures few { IfOk result (λ v. vec_len v ≤ MAX_PLACES) }
{
    let mut ends = Vec::new(alloc);
    for i in 0..bookings.len() {
        let booking = bookings.nth(i);
        ends.push(booking.start())?;
        ends.push(booking.end())?;
    }
    Ok(ends)
}

/// The place of a moment.
pub(crate) fn place_of(moments: &[u32], moment: u32) -> u16
    requires rising { IsStrictlyIncreasing moments.now }
    requires few { length moments.now ≤ MAX_PLACES }
    requires there { Contains moments.now moment }
    ensures within { result < length moments.now }
    ensures at { slice_index moments.now result ≡ moment }
{
    match moments.binary_search(&moment) {
        Ok(place) => place as u16,
        Err(_) => unreachable!(),
    }
}

/// The moments 0, 1, .. up to the last of these counts, and up to 1 at least; none where there are no counts.
pub(crate) fn count_moments(alloc: Global, counts: &[u16]) -> Result<Vec<u32>, AllocError>
    requires { (i : ℕ) → slice_index counts.now i < MAX_PLACES }
    ensures rising { IfOk result (λ v. IsStrictlyIncreasing v.items) }
    ensures count { IfOk result (λ v. length v.items ≡ shorter_places counts.now) }
    ensures each { IfOk result (λ v. (k : ℕ) → k < length v.items → slice_index v.items k ≡ k) }
{
    if counts.is_empty() {
        return first_moments(alloc, 0);
    }
    let last = counts[counts.len() - 1];
    let most = if last > 0 { last } else { 1 };
    first_moments(alloc, most + 1)
}

/// The moments 0, 1, .., so many.
fn first_moments(alloc: Global, count: u16) -> Result<Vec<u32>, AllocError>
    ensures rising { IfOk result (λ v. IsStrictlyIncreasing v.items) }
    ensures count { IfOk result (λ v. length v.items ≡ count) }
    ensures each { IfOk result (λ v. (k : ℕ) → k < length v.items → slice_index v.items k ≡ k) }
{
    let mut moments = Vec::new(alloc);
    for moment in 0..count {
        moments.push(u32::from(moment))?;
    }
    Ok(moments)
}
