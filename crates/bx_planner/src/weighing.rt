//! The best plan that holds a row, beside the best one.

ghost use Rattle.std.specs.Prelude.{◌≡◌, ℕ, IfOk};
ghost use Rattle.bx_base.specs.PlanParts.{parts_of};
ghost use Rattle.bx_check.specs.Check.{IsRising};
ghost use Rattle.bx_planner.specs.Amending.{IsBestPlan};
ghost use Rattle.bx_planner.specs.Musts.{IsTooManyMust};
ghost use Rattle.bx_planner.specs.Quotes.{IsQuote};
ghost use Rattle.bx_planner.specs.Weighing.{IsSettledRow, freed, rows_held};

use crate::answer::Quote;
use crate::naming::apart;
use crate::planning::{NoPlan, plan};
use bx_base::{Bookings, ChannelSet, Plan};
use bx_check::{cost, sums_of};
use std::alloc::{AllocError, Global};

/// The quote of the row at this place of the rows, which is marked must there and free for the plan: the best total
/// without it is that of the plan, and the best one with it that of a plan of the rows.
pub(crate) fn weighed(
    alloc: Global,
    earlier: &Plan,
    rows: &Bookings,
    index: u16,
) -> Result<Quote, AllocError>
    requires settled { IsSettledRow (parts_of earlier.now) (freed rows.now index) index }
    requires marked { rows.now ≡ rows_held (freed rows.now index) index }
    requires rising { IsRising earlier.now.prices.items }
    requires room { (t : ℕ) → ¬ IsTooManyMust rows.now earlier.now.channels t }
    ensures { IfOk result (IsQuote (freed rows.now index) (parts_of earlier.now) index) }
{
    let best = best_of(alloc, rows, earlier.channels)?;
    let booking = rows.nth(index);
    let threshold = earlier.total + booking.pay() - best.total;
    let sums = sums_of(&earlier.prices);
    let cost = cost(&booking, &earlier.prices, &sums);
    let instead = apart(alloc, &earlier.assigned, &best.assigned, rows.len(), index)?;
    let besides = apart(alloc, &best.assigned, &earlier.assigned, rows.len(), index)?;
    Ok(Quote {
        threshold,
        cost,
        instead,
        besides,
    })
}

/// The best plan of the rows, where at no moment too many of them are must rows.
fn best_of(alloc: Global, rows: &Bookings, channels: ChannelSet) -> Result<Plan, AllocError>
    requires { (t : ℕ) → ¬ IsTooManyMust rows.now channels t }
    ensures { IfOk result (λ p. IsBestPlan rows.now channels (parts_of p)) }
{
    match plan(alloc, rows, channels) {
        Ok(plan) => Ok(plan),
        Err(NoPlan::TooManyMust(_)) => unreachable!(),
        Err(NoPlan::Memory) => Err(AllocError),
    }
}
