//! The bookings at the opening of the day.

ghost use Rattle.std.specs.Prelude.{◌≡◌, IfOk, OnOk, ◌++◌, ◌∷◌, []};
ghost use Rattle.bx_day.specs.Day.{entry_of, entries_from};

use crate::entry::{Entry, Standing};
use bx_base::{Booking, Plan};
use bx_channels::Channel;
use std::alloc::{AllocError, Global};

/// Adds the booking of a row, by the channel that the plan gives it.
fn add(
    entries: &mut Vec<Entry>,
    row: u16,
    booking: Booking,
    assigned: Option<Channel>,
) -> Result<(), AllocError>
    ensures ok { OnOk result (entries.new.items ≡ entries.old.items ++ entry_of row booking assigned ∷ []) }
{
    let mut standing = Standing::Refused;
    let mut number = 0;
    if let Some(channel) = assigned {
        standing = Standing::Unoffered;
        number = channel.number();
    }
    let entry = Entry {
        row,
        reference: row,
        booking,
        channel: number,
        standing,
    };
    match entries.push(entry) {
        Ok(()) => Ok(()),
        Err(_) => Err(AllocError),
    }
}

/// An entry for each row of the plan, in order.
pub(crate) fn entries(alloc: Global, plan: &Plan) -> Result<Vec<Entry>, AllocError>
    ensures { IfOk result (λ v. v.items ≡ entries_from 1 plan.now.bookings plan.now.assigned.items) }
{
    let mut entries = Vec::new(alloc);
    for i in 0..plan.bookings.len() {
        let assigned = plan.assigned[i as usize];
        add(&mut entries, i + 1, plan.bookings.nth(i), assigned)?;
    }
    Ok(entries)
}
