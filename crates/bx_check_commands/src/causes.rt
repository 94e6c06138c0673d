//! Why the system did not do what it was asked for.

use std::fmt::Display;
use std::io;

/// Says so on standard error, with what it was asked about, in a line of its own before that of the fault.
pub fn tell_cause<H: Eprint, A: Display>(rt: &H, about: &A, cause: &io::Error) {
    let _ = eprintln!(rt; "cause: {about}: {cause}");
}
