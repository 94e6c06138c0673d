//! A best plan, and the check of anybody's.

ghost use Rattle.std.specs.Prelude.{◌≡◌, ℕ, Bool, true, IfSome};
ghost use Rattle.bx_base.specs.Bookings.{Carries, IsLawful, pay_of};
ghost use Rattle.bx_base.specs.Plans.{is_accepted, channel_at};
ghost use Rattle.bx_planner.specs.Choices.{IsBest};

use bx_base::{Bookings, ChannelSet, Plan};
use bx_check::check;
use bx_planner::plan;
use std::alloc::Global;

/// What a best plan of these bookings earns on these channels. None where too many have to be held, or memory ran out.
pub fn best_total(alloc: Global, bookings: &Bookings, channels: ChannelSet) -> Option<u64>
    ensures best { IfSome result (IsBest bookings.now channels) }
    ensures earned { IfSome result (λ total. (set : ℕ → Bool) × IsLawful bookings.now channels set × (total ≡ pay_of bookings.now set)) }
{
    match plan(alloc, bookings, channels) {
        Ok(plan) => Some(plan.total),
        Err(_) => None,
    }
}

/// Whether a plan, whoever made it, holds for these bookings and channels, and no choice of them earns more.
pub fn is_best(bookings: &Bookings, channels: ChannelSet, plan: &Plan) -> bool
    ensures carried { result ≡ true → Carries bookings.now channels (is_accepted plan.now.assigned.items) (channel_at plan.now.assigned.items) }
    ensures best { result ≡ true → IsBest bookings.now channels (pay_of bookings.now (is_accepted plan.now.assigned.items)) }
{
    check(bookings, channels, plan).is_ok()
}
