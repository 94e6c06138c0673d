//! Plans.

ghost use Rattle.std.specs.Prelude.{◌≡◌, ◌↔◌, ◌≤◌, ℕ, IfOk, Err};
ghost use Rattle.bx_base.specs.Bookings.{Carries, IsLawful, pay_of};
ghost use Rattle.bx_base.specs.Channels.{count_of};
ghost use Rattle.bx_base.specs.PlanParts.{IsPlan, parts_of};
ghost use Rattle.bx_base.specs.Plans.{is_accepted, channel_at};
ghost use Rattle.bx_planner.specs.Amending.{IsBestPlan};
ghost use Rattle.bx_planner.specs.Musts.{musts_at, IsTooManyMust};
ghost use Rattle.bx_planner.specs.Choices.{IsBest, IsFirstFitPlan, ProvesBest};
ghost use Rattle.bx_planner.specs.LeastProofs.{IsLeastProof};

use crate::choice::{best_choice, total_of};
use crate::demand::Demand;
use crate::musts::too_many_must;
use bx_base::{Bookings, ChannelSet, Plan};
use bx_colour::colour;
use std::alloc::{AllocError, Global};
use thiserror::Error;

/// Why there is no plan.
#[derive(Clone, Copy, Debug, PartialEq, Eq, Error)]
pub enum NoPlan {
    /// At this moment, in seconds of the day, more bookings run that each plan has to hold than there are channels;
    /// at no earlier one.
    #[error("K1 TooManyMust {0}")]
    TooManyMust(u32),
    /// Memory ran out.
    #[error("Memory")]
    Memory,
}

/// A best plan: channels for bookings that pay the most of all sets that these channels can carry and that have each
/// booking marked to be held (of all feasible choices), and prices that prove it. By a flow of least cost along the line of the
/// bookings (M. C. Carlisle and E. L. Lloyd, On the k-coloring of intervals, 1995), coloured first-fit. `TooManyMust` is tested
/// first, without memory; `Memory` where memory runs out.
pub fn plan(alloc: Global, bookings: &Bookings, channels: ChannelSet) -> Result<Plan, NoPlan>
    ensures musts { (t : ℕ) → (result ≡ Err (NoPlan.TooManyMust t)) ↔ IsTooManyMust bookings.now channels t }
    ensures bookings { IfOk result (λ p. p.bookings ≡ bookings.now) }
    ensures channels { IfOk result (λ p. p.channels ≡ channels) }
    ensures first_fit { IfOk result (λ p. IsFirstFitPlan bookings.now channels p.assigned.items) }
    ensures carried { IfOk result (λ p. Carries bookings.now channels (is_accepted p.assigned.items) (channel_at p.assigned.items)) }
    ensures lawful { IfOk result (λ p. IsLawful bookings.now channels (is_accepted p.assigned.items)) }
    ensures total { IfOk result (λ p. p.total ≡ pay_of bookings.now (is_accepted p.assigned.items)) }
    ensures prices { IfOk result (λ p. ProvesBest bookings.now (count_of channels) p.prices.items p.total) }
    ensures best { IfOk result (λ p. IsBest bookings.now channels p.total) }
    ensures least { IfOk result (λ p. IsLeastProof bookings.now channels p.prices.items (is_accepted p.assigned.items)) }
    ensures limits { IfOk result (λ p. IsPlan (parts_of p)) }
{
    if let Some(moment) = too_many_must(&Demand::fresh(bookings), channels) {
        return Err(NoPlan::TooManyMust(moment));
    }
    match best_plan(alloc, bookings, channels) {
        Ok(plan) => Ok(plan),
        Err(_) => Err(NoPlan::Memory),
    }
}

/// The same where at no moment more bookings have to be held than there are channels.
pub(crate) fn best_plan(
    alloc: Global,
    bookings: &Bookings,
    channels: ChannelSet,
) -> Result<Plan, AllocError>
    requires { (s : ℕ) → musts_at bookings.now s ≤ count_of channels }
    ensures planned { IfOk result (λ p. IsBestPlan bookings.now channels (parts_of p)) }
    ensures limits { IfOk result (λ p. IsPlan (parts_of p)) }
{
    let (accepted, prices) = best_choice(alloc, bookings, channels.count())?;
    let assigned = colour(alloc, bookings, &accepted, channels)?;
    let total = total_of(bookings, &accepted);
    let copy = bookings.copy()?;
    match Plan::new(copy, channels, assigned, prices, total) {
        Some(plan) => Ok(plan),
        None => unreachable!(),
    }
}
