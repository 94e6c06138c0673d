//! Accepted bookings in the order in which they get their channels.

ghost use Rattle.std.specs.Prelude.{◌≡◌, IfOk, length};
ghost use Rattle.bx_colour.specs.Orders.{IsOrder, IsListed};

use bx_base::Bookings;
use std::alloc::{AllocError, Global};

/// The start and the index of each accepted booking, in the order of (start, row).
pub(crate) fn in_order(
    alloc: Global,
    bookings: &Bookings,
    accepted: &[bool],
) -> Result<Vec<(u32, u16)>, AllocError>
    requires { length accepted.now ≡ length bookings.now }
    ensures { IfOk result (λ v. IsOrder bookings.now accepted.now v.items) }
{
    let mut order = listed(alloc, bookings, accepted)?;
    order.sort_unstable();
    Ok(order)
}

/// The same in the order of the rows.
fn listed(
    alloc: Global,
    bookings: &Bookings,
    accepted: &[bool],
) -> Result<Vec<(u32, u16)>, AllocError>
    requires { length accepted.now ≡ length bookings.now }
    ensures { IfOk result (λ v. IsListed bookings.now accepted.now (length bookings.now) v.items) }
{
    let mut order = Vec::new(alloc);
    for i in 0..bookings.len() {
        if accepted[i as usize] {
            order.push((bookings.nth(i).start(), i))?;
        }
    }
    Ok(order)
}
