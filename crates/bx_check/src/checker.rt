//! The check of a plan, fault by fault.

ghost use Rattle.std.specs.Prelude.{◌≡◌, ◌≤◌, ◌<◌, ◌-◌, ◌^◌, ℕ, Bool, length, IfSome, IfNone, IfOk, IfErr};
ghost use Rattle.bx_base.specs.Bookings.{Carries, IsLawful, pay_of};
ghost use Rattle.bx_base.specs.Plans.{is_accepted, channel_at, IsMustLeftOut};
ghost use Rattle.bx_base.specs.PlanParts.{parts_of};
ghost use Rattle.bx_check.specs.Check.{IsOutcome};
ghost use Rattle.bx_check.specs.Faults.{IsBoundAbove};

use crate::apart::first_overlap;
use crate::bound::{bound, is_rising, total_pay};
use bx_base::{Bookings, ChannelSet, Plan};
use thiserror::Error;

/// Why a plan is not proved: the first of these that applies, in the order of the list. Rows are named 1, 2, ..
#[derive(Clone, Copy, Debug, PartialEq, Eq, Error)]
pub enum CheckFault {
    /// The plan states other bookings, or in another order.
    #[error("C1 OtherBookings")]
    OtherBookings,
    /// The plan states other channels in service.
    #[error("C2 OtherChannels")]
    OtherChannels,
    /// The first accepted row whose channel is not in service.
    #[error("C3 NotInService {0}")]
    NotInService(u16),
    /// The first two accepted rows that overlap on one channel.
    #[error("C4 Overlap {0} {1}")]
    Overlap(u16, u16),
    /// The first must row that is not accepted.
    #[error("C8 MustLeftOut {0}")]
    MustLeftOut(u16),
    /// The total is not what the accepted rows pay.
    #[error("C5 WrongTotal")]
    WrongTotal,
    /// The moments of the prices do not rise strictly.
    #[error("C6 PricesOutOfOrder")]
    PricesOutOfOrder,
    /// The prices set a bound above the total, and so prove nothing.
    #[error("C7 NotProved {bound}")]
    NotProved { bound: u64 },
}

/// The first must row that the plan does not accept.
fn first_must_left_out(plan: &Plan) -> Option<u16>
    ensures some { IfSome result (λ b. (1 ≤ b) × (b ≤ length plan.now.bookings) × IsMustLeftOut plan.now.bookings plan.now.assigned.items (b - 1)) }
    ensures least { IfSome result (λ b. (i : ℕ) → i < b - 1 → ¬ IsMustLeftOut plan.now.bookings plan.now.assigned.items i) }
    ensures none { IfNone result ((i : ℕ) → i < length plan.now.bookings → ¬ IsMustLeftOut plan.now.bookings plan.now.assigned.items i) }
{
    for i in 0..plan.bookings.len() {
        if plan.bookings.nth(i).is_must() && plan.assigned[i as usize].is_none() {
            return Some(i + 1);
        }
    }
    None
}

/// The total of the plan, where it is a plan of these bookings and channels in service whose prices prove that no lawful set
/// pays more; else the first fault, in the order of `CheckFault`. Takes no memory: the sums of the prices stand on the stack, so
/// the cost of a row takes two searches by halving, and so do the accepted rows, sorted by channel and start: only where two
/// overlap rows are compared in pairs (M. C. Carlisle and E. L. Lloyd, On the k-coloring of intervals, 1995; the prices are the
/// dual of their flow, and what is compared with the total is the dual objective: weak duality).
pub fn check(bookings: &Bookings, channels: ChannelSet, plan: &Plan) -> Result<u64, CheckFault>
    ensures outcome { IsOutcome bookings.now channels (parts_of plan.now) result }
    // The plan's own channels carry its accepted rows, and these hold each must row.
    ensures carried { IfOk result (λ _. Carries bookings.now channels (is_accepted plan.now.assigned.items) (channel_at plan.now.assigned.items)) }
    ensures lawful { IfOk result (λ _. IsLawful bookings.now channels (is_accepted plan.now.assigned.items)) }
    ensures paid { IfOk result (λ total. total ≡ pay_of bookings.now (is_accepted plan.now.assigned.items)) }
    // Whoever made the plan.
    ensures best { IfOk result (λ total. (set : ℕ → Bool) → IsLawful bookings.now channels set → pay_of bookings.now set ≤ total) }
    // A bound that is not the total is above it, and below 16 * 10 ^ 18.
    ensures above { IfErr result (IsBoundAbove plan.now.total) }
{
    if !bookings.same(&plan.bookings) {
        return Err(CheckFault::OtherBookings);
    }
    if !channels.same(&plan.channels) {
        return Err(CheckFault::OtherChannels);
    }
    if let Some(row) = plan.first_out_of_service() {
        return Err(CheckFault::NotInService(row));
    }
    if let Some((first, second)) = first_overlap(plan) {
        return Err(CheckFault::Overlap(first, second));
    }
    if let Some(row) = first_must_left_out(plan) {
        return Err(CheckFault::MustLeftOut(row));
    }
    if total_pay(&plan.bookings, &plan.assigned) != plan.total {
        return Err(CheckFault::WrongTotal);
    }
    if !is_rising(&plan.prices) {
        return Err(CheckFault::PricesOutOfOrder);
    }
    let bound = bound(&plan.bookings, channels, &plan.assigned, &plan.prices);
    if bound != plan.total {
        return Err(CheckFault::NotProved { bound });
    }
    Ok(bound)
}
