//! The rows that one choice has and another has not.

ghost use Rattle.std.specs.Prelude.{◌≡◌, ◌≤◌, IfOk};
ghost use Rattle.bx_base.specs.Plans.{is_accepted};
ghost use Rattle.bx_planner.specs.Named.{picked};
ghost use Rattle.bx_planner.specs.QuotesInside.{is_apart};
ghost use Rattle.bx_base.specs.declared.bookings.TheConstants.{MAX_BOOKINGS};

use bx_channels::Channel;
use std::alloc::{AllocError, Global};

/// The names of those of so many rows, but for the one at this place, that have a channel in the one assignment and not
/// in the other, in rising order.
pub(crate) fn apart(
    alloc: Global,
    one: &[Option<Channel>],
    other: &[Option<Channel>],
    rows: u16,
    except: u16,
) -> Result<Vec<u16>, AllocError>
    requires { rows ≤ MAX_BOOKINGS }
    ensures { IfOk result (λ v. v.items ≡ picked (is_apart (is_accepted one.now) (is_accepted other.now) except) rows) }
{
    let mut named = Vec::new(alloc);
    for index in 0..rows {
        if index != except && accepts(one, index) && !accepts(other, index) {
            named.push(index + 1)?;
        }
    }
    Ok(named)
}

/// Whether the row at this place has a channel. One after the last has none.
fn accepts(assigned: &[Option<Channel>], index: u16) -> bool
    ensures { result ≡ is_accepted assigned.now index }
{
    let place = index as usize;
    place < assigned.len() && assigned[place].is_some()
}
