//! Faults as they are printed, and answers of a reader of bookings.

use bx_base::Bookings;
use bx_book::StreamFault;
use std::alloc::Global;
use std::fmt::Display;

/// Whether the fault is printed so.
pub(crate) fn is_printed(alloc: Global, fault: &impl Display, printed: &str) -> bool {
    match fault.to_string(alloc) {
        Ok(words) => words.as_str() == printed,
        Err(_) => false,
    }
}

/// Whether the answer is no booking, as `none`, or this fault.
pub(crate) fn is_read_as(
    alloc: Global,
    read: &Result<Bookings, StreamFault>,
    printed: &str,
) -> bool {
    match read {
        Ok(bookings) => bookings.len() == 0 && printed == "none",
        Err(fault) => is_printed(alloc, fault, printed),
    }
}
