//! Reading a plan.

ghost use Rattle.std.specs.Prelude.{◌≡◌, ◌≤◌, ◌+◌, vec_len, IfOk, Ok};
ghost use Rattle.bx_base.specs.PlanParts.{Parts, IsPlan, parts_of};
ghost use Rattle.bx_planfile.specs.Text.{IsTextOf};
ghost use Rattle.bx_planfile.specs.Reading.{Gives, GrowsInTail, Grows, read_tail, read_all};
ghost use Rattle.bx_base.specs.declared.plan.TheConstants.{MAX_PRICES, MAX_TOTAL};

use crate::channel_line::channels_of;
use crate::fault::PlanTextFault;
use crate::fields::line_of;
use crate::lines::{count_of, ends, header_of, total_of};
use crate::lists::{bookings_of, prices_of};
use bx_base::{MAX_BOOKINGS, MAX_PRICES, Plan, Price};
use std::alloc::Global;

/// The prices and the total, from the count of the prices in line `n` to the end.
#[tactic(auto, unfolding(crate::specs::Reading::read_tail))]
fn tail_of(alloc: Global, bytes: &[u8], n: u32) -> Result<(Vec<Price>, u64), PlanTextFault>
    requires { n ≤ MAX_BOOKINGS + 4 }
    ensures value { Gives (λ x. (x.0.items, x.1)) result (read_tail n bytes.now) }
    ensures memory { result ≡ Err PlanTextFault.Memory → GrowsInTail n bytes.now }
    ensures limits { IfOk result (λ x. (vec_len x.0 ≤ MAX_PRICES) × (x.1 ≤ MAX_TOTAL)) }
{
    let (fields, rest) = line_of(bytes, n)?;
    let count = count_of(b"prices", MAX_PRICES as u16, fields, n)?;
    let (prices, rest) = prices_of(alloc, count, rest, n + 1)?;
    let n = n + 1 + u32::from(count);
    let (fields, rest) = line_of(rest, n)?;
    let total = total_of(fields, n)?;
    let (fields, rest) = line_of(rest, n + 1)?;
    let _ = ends(fields, rest, n + 1)?;
    Ok((prices, total))
}

#[tactic(auto, unfolding(crate::specs::Reading::read_head, crate::specs::Reading::read_all))]
fn plan_of(alloc: Global, bytes: &[u8]) -> Result<Plan, PlanTextFault>
    ensures value { Gives parts_of result (read_all bytes.now) }
    ensures memory { result ≡ Err PlanTextFault.Memory → Grows bytes.now }
{
    let (fields, rest) = line_of(bytes, 1)?;
    let version = header_of(fields, 1)?;
    let (fields, rest) = line_of(rest, 2)?;
    let channels = channels_of(fields, 2)?;
    let (fields, rest) = line_of(rest, 3)?;
    let count = count_of(b"bookings", MAX_BOOKINGS as u16, fields, 3)?;
    let (bookings, assigned, rest) = bookings_of(alloc, version, count, rest, 4)?;
    let (prices, total) = tail_of(alloc, rest, 4 + u32::from(count))?;
    Ok(Plan {
        bookings,
        channels,
        assigned,
        prices,
        total,
    })
}

/// The plan that a text of version 1, 2 or 3 states. A booking of a version 1 text is free, and one of a version
/// 1 or 2 text is called outward. Of several faults the first is answered, and within a line its form comes
/// before its values. `Memory` is answered only where memory ran out.
pub fn read_plan(alloc: Global, bytes: &[u8]) -> Result<Plan, PlanTextFault>
    ensures limits { IfOk result (λ plan. IsPlan (parts_of plan)) }
    // What is read is spelled so.
    ensures found { IfOk result (λ plan. IsTextOf bytes.now (parts_of plan)) }
    // What is spelled so is read, unless memory was refused.
    ensures only { (parts : Parts) → IsPlan parts → IsTextOf bytes.now parts → Gives parts_of result (Ok parts) }
    // Want of memory is answered only at a place where the plan grows, so a fault before it comes first.
    ensures memory { result ≡ Err PlanTextFault.Memory → Grows bytes.now }
    // Which fault it is.
    ensures fault { Gives parts_of result (read_all bytes.now) }
{
    plan_of(alloc, bytes)
}
