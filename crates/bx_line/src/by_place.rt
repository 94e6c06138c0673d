//! The rows of each place.

ghost use Rattle.std.specs.Prelude.{◌≡◌, ◌≤◌, ◌<◌, ℕ, IfOk, None, length, replicate, slice_index_or};
ghost use Rattle.bx_line.specs.ByPlace.{place_on, AreChains};
ghost use Rattle.bx_line.specs.Network.{no_arc};
ghost use Rattle.bx_base.specs.declared.bookings.TheConstants.{MAX_BOOKINGS};

use crate::arc::Arc;
use crate::incidence::Incidence;
use std::alloc::{AllocError, Global};

/// The first row of each place on one side, and for each row the next one of the same place.
#[derive(Drop)]
pub struct ByPlace {
    pub first: Vec<Option<u16>>,
    pub next: Vec<Option<u16>>,
}

impl ByPlace {
    /// The rows of so many places, each chain in rising order: it is made from the last row on.
    pub(crate) fn of(
        alloc: Global,
        places: usize,
        arcs: &[Arc],
        side: Incidence,
    ) -> Result<ByPlace, AllocError>
        requires few { length arcs.now ≤ MAX_BOOKINGS }
        requires within { (k : ℕ) → k < length arcs.now → place_on side (slice_index_or arcs.now k no_arc) < places }
        ensures { IfOk result (λ b. AreChains side arcs.now places b.first.items b.next.items) }
    {
        let mut first = no_rows(alloc, places)?;
        let mut next = no_rows(alloc, arcs.len())?;
        let mut row = arcs.len();
        while row > 0 {
            row -= 1;
            let place = side_of(arcs[row], side) as usize;
            next[row] = first[place];
            first[place] = Some(row as u16);
        }
        Ok(ByPlace { first, next })
    }
}

/// The place of an arc on a side.
fn side_of(arc: Arc, side: Incidence) -> u16
    ensures { result ≡ place_on side arc }
{
    match side {
        Incidence::Leaving => arc.from,
        Incidence::Arriving => arc.to,
    }
}

/// No row, so many times.
fn no_rows(alloc: Global, count: usize) -> Result<Vec<Option<u16>>, AllocError>
    ensures { IfOk result (λ v. v.items ≡ replicate count None) }
{
    vec![in alloc; None; count]
}
