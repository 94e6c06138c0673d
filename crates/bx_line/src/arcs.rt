//! The arcs of the line.

ghost use Rattle.std.specs.Prelude.{◌≡◌, ◌≤◌, ◌<◌, ℕ, IfOk, length, Contains, slice_index_or};
ghost use Rattle.std.specs.List.Sorted.{IsStrictlyIncreasing};
ghost use Rattle.bx_base.specs.Bookings.{AreBookings};
ghost use Rattle.bx_line.specs.Cliques.{AreCounted};
ghost use Rattle.bx_line.specs.Moments.{HasJustMoments};
ghost use Rattle.bx_line.specs.declared.line.TheConstants.{MAX_PLACES};
ghost use Rattle.bx_line.specs.Network.{IsArc, IsArcOf, AreArcsOf, arc_pay, no_arc};

use crate::arc::Arc;
use crate::line::MUST_RAISE;
use crate::moments::place_of;
use bx_base::{Booking, Bookings};
use std::alloc::{AllocError, Global};

/// What the arc of a booking pays.
fn pay_of_arc(booking: &Booking) -> u64
    ensures { result ≡ arc_pay booking.now }
{
    if booking.is_must() {
        booking.pay() + MUST_RAISE
    } else {
        booking.pay()
    }
}

/// The arc of a booking whose ends are among the moments.
fn arc_between(moments: &[u32], booking: &Booking) -> Arc
    requires rising { IsStrictlyIncreasing moments.now }
    requires few { length moments.now ≤ MAX_PLACES }
    requires start { Contains moments.now booking.now.start }
    requires end { Contains moments.now booking.now.end }
    ensures { IsArcOf moments.now booking.now result }
{
    Arc {
        from: place_of(moments, booking.start()),
        to: place_of(moments, booking.end()),
        pay: pay_of_arc(booking),
        must: booking.is_must(),
    }
}

/// An arc for each booking.
pub(crate) fn arcs_of(
    alloc: Global,
    moments: &[u32],
    bookings: &Bookings,
) -> Result<Vec<Arc>, AllocError>
    requires rising { IsStrictlyIncreasing moments.now }
    requires few { length moments.now ≤ MAX_PLACES }
    requires just { HasJustMoments bookings.now moments.now }
    ensures arcs { IfOk result (λ v. AreArcsOf moments.now bookings.now v.items) }
    ensures bookings { AreBookings bookings.now }
{
    let mut arcs = Vec::new(alloc);
    for i in 0..bookings.len() {
        arcs.push(arc_between(moments, &bookings.nth(i)))?;
    }
    Ok(arcs)
}

/// An arc for each of these, between the counts of its places.
pub(crate) fn counted_arcs(
    alloc: Global,
    arcs: &[Arc],
    counts: &[u16],
) -> Result<Vec<Arc>, AllocError>
    requires within { (i : ℕ) → i < length arcs.now → IsArc (length counts.now) (slice_index_or arcs.now i no_arc) }
    ensures { IfOk result (λ v. AreCounted counts.now arcs.now v.items) }
{
    let mut counted = Vec::new(alloc);
    for arc in arcs {
        counted.push(Arc {
            from: counts[arc.from as usize],
            to: counts[arc.to as usize],
            pay: arc.pay,
            must: arc.must,
        })?;
    }
    Ok(counted)
}
