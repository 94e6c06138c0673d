//! A plan that keeps the promises of another.

ghost use Rattle.std.specs.Prelude.{◌≡◌, ◌≤◌, ◌<◌, ◌+◌, ◌↔◌, ℕ, IfOk, IfErr, Err, length};
ghost use Rattle.bx_base.specs.Channels.{count_of};
ghost use Rattle.bx_base.specs.PlanParts.{IsPlan, parts_of};
ghost use Rattle.bx_planner.specs.Amending.{amended, IsNoAmendment, IsBestPlan, KeepsPromises, IsFirstMustTooMany};
ghost use Rattle.bx_planner.specs.Extending.{ExtendsWhereLater};
ghost use Rattle.bx_planner.specs.Musts.{musts_at};
ghost use Rattle.bx_base.specs.declared.bookings.TheConstants.{MAX_BOOKINGS};

use crate::demand::Demand;
use crate::musts::too_many_must;
use crate::planning::best_plan;
use bx_base::{Bookings, ChannelSet, MAX_BOOKINGS, Plan};
use std::alloc::{AllocError, Global};
use thiserror::Error;

/// Why a plan was not amended.
#[derive(Clone, Copy, Debug, PartialEq, Eq, Error)]
pub enum NoAmendment {
    /// Both together have more than 16,000 bookings.
    #[error("K2 TooMany")]
    TooMany,
    /// At this moment, in seconds of the day, more promised and must bookings run than there are channels; at no earlier
    /// one.
    #[error("K1 TooManyMust {0}")]
    TooManyMust(u32),
    /// Memory ran out.
    #[error("Memory")]
    Memory,
}

/// A best plan for the bookings of a plan, followed by more, on the plan's channels: each booking that the plan accepts is
/// promised, so it has to be held, each that it refuses is free, and the new ones keep their marks. It has all that `plan`
/// promises of these bookings, so no promised call is dropped, and nothing better holds all promises. Channels may change, but
/// where the plan is a best one and first fit, as `plan` and `amend` make them, and the new bookings start at a moment or later,
/// none that starts before that moment has another channel, and what was refused stays so (`extended`).
/// The plan need not be proved, or carried; its prices and its total do not matter. `TooMany` is tested first, then
/// `TooManyMust`, both without memory; `Memory` where memory runs out. A refusal leaves both as they are.
pub fn amend(alloc: Global, plan: &Plan, more: &Bookings) -> Result<Plan, NoAmendment>
    ensures full { (result ≡ Err NoAmendment.TooMany) ↔ (MAX_BOOKINGS < length plan.now.bookings + length more.now) }
    ensures musts { (t : ℕ) → (result ≡ Err (NoAmendment.TooManyMust t)) ↔ IsFirstMustTooMany (parts_of plan.now) more.now t }
    ensures planned { IfOk result (λ p. IsBestPlan (amended plan.now.bookings plan.now.assigned.items more.now) plan.now.channels (parts_of p)) }
    ensures limits { IfOk result (λ p. IsPlan (parts_of p)) }
    ensures fail { IfErr result (IsNoAmendment (amended plan.now.bookings plan.now.assigned.items more.now) plan.now.channels) }
    ensures kept { IfOk result (λ p. KeepsPromises plan.now.bookings plan.now.assigned.items p.assigned.items) }
    ensures extended { IfOk result (λ p. ExtendsWhereLater (parts_of plan.now) more.now (parts_of p)) }
{
    if (plan.bookings.len() + more.len()) as usize > MAX_BOOKINGS {
        return Err(NoAmendment::TooMany);
    }
    let demand = Demand::of(plan, more);
    if let Some(moment) = too_many_must(&demand, plan.channels) {
        return Err(NoAmendment::TooManyMust(moment));
    }
    match planned_anew(alloc, &demand, plan.channels) {
        Ok(amended) => Ok(amended),
        Err(_) => Err(NoAmendment::Memory),
    }
}

/// The best plan for all of the demand.
fn planned_anew(
    alloc: Global,
    demand: &Demand<'_>,
    channels: ChannelSet,
) -> Result<Plan, AllocError>
    requires few { length demand.now ≤ MAX_BOOKINGS }
    requires room { (s : ℕ) → musts_at demand.now s ≤ count_of channels }
    ensures planned { IfOk result (λ p. IsBestPlan demand.now channels (parts_of p)) }
    ensures limits { IfOk result (λ p. IsPlan (parts_of p)) }
{
    let bookings = demand.bookings(alloc)?;
    let plan = best_plan(alloc, &bookings, channels)?;
    Ok(plan)
}
