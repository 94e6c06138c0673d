//! The line of moments of a small day, and that of a day with no bookings.

use crate::rows::{Row, bookings_of};
use bx_line::{Arc, Line};
use std::alloc::Global;

static CHAIN: [Row; 3] = [(0, 10, 4, false), (5, 15, 6, true), (10, 20, 4, false)];

static MOMENTS: [u32; 5] = [0, 5, 10, 15, 20];

static ARCS: [Arc; 3] = [
    Arc {
        from: 0,
        to: 2,
        pay: 4,
        must: false,
    },
    Arc {
        from: 1,
        to: 3,
        pay: 17_000_000_000_006,
        must: true,
    },
    Arc {
        from: 2,
        to: 4,
        pay: 4,
        must: false,
    },
];

/// Whether the line has an arc for each row, these and no other.
fn has_arcs(line: &Line, arcs: &[Arc]) -> bool {
    let mut same = line.arc_of(0).is_none();
    for (row, arc) in (1..60_000u16).zip(arcs) {
        same &= line.arc_of(row) == Some(*arc);
    }
    same && line.rows() as usize == arcs.len()
        && line.arc_of(line.rows().saturating_add(1)).is_none()
}

fn has_moments(line: &Line, moments: &[u32]) -> bool {
    line.moments() == moments && line.places() as usize == moments.len()
}

/// Whether the line of these rows has just these moments and arcs.
fn is_line(alloc: Global, rows: &[Row], moments: &[u32], arcs: &[Arc]) -> Option<bool> {
    let line = Line::of(alloc, &bookings_of(alloc, rows)?).ok()?;
    Some(has_moments(&line, moments) && has_arcs(&line, arcs))
}

#[test]
fn three_bookings_in_a_chain_and_none(rt: HostRuntime) {
    let chain = is_line(rt.alloc(), &CHAIN, &MOMENTS, &ARCS);
    assert!(rt; chain == Some(true), "chain");
    assert!(rt; is_line(rt.alloc(), &[], &[], &[]) == Some(true), "none");
}
