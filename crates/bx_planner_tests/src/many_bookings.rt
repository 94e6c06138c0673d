//! Copies of lists of bookings, and the longest list.

use crate::rows::booking_of;
use bx_base::{AddFault, Booking, Bookings};
use std::alloc::Global;
use std::test::Fail;

fn repeated(alloc: Global, booking: Booking, count: u16) -> Option<Bookings> {
    let mut bookings = Bookings::new(alloc);
    for _ in 0..count {
        bookings.push(booking).ok()?;
    }
    Some(bookings)
}

/// Whether a copy is the same, and no longer once it grows, nor once the other grows by another booking.
fn differs_once_changed(bookings: &mut Bookings, one: Booking) -> Option<bool> {
    let mut copy = bookings.copy().ok()?;
    let before = copy.same(bookings);
    copy.push(one.as_must()).ok()?;
    let longer = copy.same(bookings);
    bookings.push(one.as_inward()).ok()?;
    Some(before && !longer && !copy.same(bookings))
}

/// Whether there are 16,000 bookings, this the last, and no more are taken.
fn is_full(bookings: &mut Bookings, last: Booking) -> bool {
    let refused = bookings.push(last) == Err(AddFault::Full);
    let has_last = bookings.len() == 16000 && bookings.get(16000) == Some(last);
    refused && has_last && bookings.get(16001).is_none() && bookings.get(0).is_none()
}

#[test]
fn bookings_up_to_the_limit(rt: HostRuntime) -> Result<(), Fail> {
    let one = booking_of(&(0, 1, 1_000_000_000, false)).ok_or("one")?;
    let mut bookings = repeated(rt.alloc(), one, 15999).ok_or("bookings")?;
    assert!(rt;
        differs_once_changed(&mut bookings, one) == Some(true),
        "copies"
    );
    assert!(rt; is_full(&mut bookings, one.as_inward()), "full");
    Ok(())
}
