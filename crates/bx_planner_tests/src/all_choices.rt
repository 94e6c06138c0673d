//! Plans against a search through all choices of bookings.

use crate::rows::{Row, bookings_of};
use crate::sets::{best_of_all, six_rows};
use bx_base::ChannelSet;
use bx_cases::SHARE;
use bx_planner::{NoPlan, plan};
use std::alloc::Global;
use std::test::Fail;

static CHANNELS: [u8; 3] = [31, 15, 2];

/// Whether the plan on so many channels pays what the best of all sets pays, and is refused where no set is lawful.
fn is_best(alloc: Global, rows: &[Row], count: usize, best: Option<u64>) -> Option<bool> {
    let channels = ChannelSet::from_numbers(CHANNELS.get(..count)?).ok()?;
    let found = match plan(alloc, &bookings_of(alloc, rows)?, channels) {
        Ok(plan) => Some(plan.total),
        Err(NoPlan::TooManyMust(_)) => None,
        Err(NoPlan::Memory) => return None,
    };
    Some(found == best)
}

#[test]
fn no_choice_pays_more(rt: HostRuntime) -> Result<(), Fail> {
    let mut planned = 0u32;
    for seed in 0..150 / SHARE {
        let rows = six_rows(seed.wrapping_mul(7919), 9);
        for count in 0..3usize {
            let best = best_of_all(&rows, count);
            planned = planned.saturating_add(u32::from(best > Some(0)));
            let is_best = is_best(rt.alloc(), &rows, count, best).ok_or("memory")?;
            assert!(rt; is_best, "{seed} {count}");
        }
    }
    assert!(rt; planned > 0, "no plan pays anything");
    Ok(())
}
