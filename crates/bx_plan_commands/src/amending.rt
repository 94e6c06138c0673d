//! The text of a plan that keeps the promises of another.

ghost use Rattle.std.specs.Prelude.{◌≡◌, ◌<◌, ◌+◌, ◌↔◌, ℕ, Err, IfOk, IfErr, length};
ghost use Rattle.bx_base.specs.PlanParts.{parts_of};
ghost use Rattle.bx_devices.specs.Devices.{writing_of};
ghost use Rattle.bx_plan_commands.specs.Amending.{IsAmended, IsAmendRefusal};
ghost use Rattle.bx_planner.specs.Amending.{amended, IsFirstMustTooMany};
ghost use Rattle.bx_base.specs.declared.bookings.TheConstants.{MAX_BOOKINGS};

use bx_base::{Bookings, Plan};
use bx_devices::Watched;
use bx_planfile::write_plan;
use bx_planner::{NoAmendment, amend};
use std::alloc::Global;
use std::io::Write;
use thiserror::Error;

/// Why no amended plan was written.
#[derive(Clone, Copy, Debug, PartialEq, Eq, Error)]
pub enum AmendFault {
    /// There is none.
    #[error(transparent)]
    Amend(NoAmendment),
    /// A write failed, or took none of what it was given: a prefix of the plan's text was written.
    #[error("F2 CannotWrite")]
    WriteFailed,
}

/// Amends the plan by more bookings, and writes the text of the new plan. Answers the plan. `Amend` with the refusal of `amend`,
/// before which nothing is written, and then `WriteFailed`.
pub fn write_amended<W: Write>(
    alloc: Global,
    plan: &Plan,
    more: &Bookings,
    output: &mut Watched<W>,
) -> Result<Plan, AmendFault>
    ensures amended { IfOk result (λ p. IsAmended (amended plan.now.bookings plan.now.assigned.items more.now)
        plan.now.channels (writing_of W.contents output.old output.new) (parts_of p)) }
    ensures full { (result ≡ Err (AmendFault.Amend NoAmendment.TooMany)) ↔ (MAX_BOOKINGS < length plan.now.bookings + length more.now) }
    ensures musts { (t : ℕ) → (result ≡ Err (AmendFault.Amend (NoAmendment.TooManyMust t))) ↔ IsFirstMustTooMany (parts_of plan.now) more.now t }
    ensures refused { IfErr result (IsAmendRefusal (amended plan.now.bookings plan.now.assigned.items more.now)
        plan.now.channels (writing_of W.contents output.old output.new)) }
{
    let amended = match amend(alloc, plan, more) {
        Ok(amended) => amended,
        Err(fail) => return Err(AmendFault::Amend(fail)),
    };
    match write_plan(&amended, output) {
        Ok(()) => Ok(amended),
        Err(_) => Err(AmendFault::WriteFailed),
    }
}
