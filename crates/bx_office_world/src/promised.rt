//! The plan of all that is promised.

ghost use Rattle.std.specs.Prelude.{IfOk, IfErr};
ghost use Rattle.bx_base.specs.PlanParts.{parts_of};
ghost use Rattle.bx_office_world.specs.Answers.{IsPromisedPlan, IsNoPromisedPlan};

use crate::fault::NoAnswer;
use bx_base::{ChannelSet, Plan};
use bx_day::Exchange;
use bx_market::promised;
use bx_planner::{NoPlan, plan};
use bx_sales::channels_left;
use std::alloc::Global;

/// A best plan of all that is promised, on the channels that are left, each as a booking that every plan has to hold, with its prices.
/// What is refused has no part in it, nor what has begun on a channel that is in maintenance by now. `TooManyMust` where the channels that
/// are left do not carry what is promised, `Memory` where memory runs out.
pub fn promised_plan(
    alloc: Global,
    exchange: &Exchange,
    channels: ChannelSet,
) -> Result<Plan, NoAnswer>
    ensures plan { IfOk result (λ p. IsPromisedPlan exchange.now channels (parts_of p)) }
    ensures none { IfErr result (IsNoPromisedPlan exchange.now channels) }
{
    let left = channels_left(exchange, channels);
    let Ok(rows) = promised(alloc, exchange, left) else {
        return Err(NoAnswer::Memory);
    };
    match plan(alloc, &rows, left) {
        Ok(plan) => Ok(plan),
        Err(NoPlan::TooManyMust(moment)) => Err(NoAnswer::TooManyMust(moment)),
        Err(NoPlan::Memory) => Err(NoAnswer::Memory),
    }
}
