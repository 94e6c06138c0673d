//! Proved plans of small days, by rows.

ghost use Rattle.std.specs.Prelude.{◌≡◌, IfSome, Ok};
ghost use Rattle.bx_base.specs.PlanParts.{parts_of};
ghost use Rattle.bx_check.specs.Check.{IsOutcome};

use crate::rows::{Row, bookings_of};
use bx_base::{ChannelSet, Plan};
use bx_check::check;
use bx_planner::plan;
use std::alloc::Global;

static CHANNELS: [u8; 3] = [31, 15, 2];

/// The plan, where it is proved for its own bookings.
pub(crate) fn proved(plan: Plan) -> Option<Plan>
    ensures { IfSome result (λ p. IsOutcome p.bookings p.channels (parts_of p) (Ok p.total)) }
{
    match check(&plan.bookings, plan.channels, &plan) {
        Ok(_) => Some(plan),
        Err(_) => None,
    }
}

/// The proved plan of these rows on so many channels, where there is one.
pub(crate) fn plan_of(alloc: Global, rows: &[Row], count: usize) -> Option<Plan>
    ensures { IfSome result (λ p. IsOutcome p.bookings p.channels (parts_of p) (Ok p.total)) }
{
    let bookings = bookings_of(alloc, rows)?;
    let channels = ChannelSet::from_numbers(CHANNELS.get(..count)?).ok()?;
    let found = plan(alloc, &bookings, channels).ok()?;
    proved(found)
}
