//! Laws of the check.

ghost use Rattle.bx_check.specs.Check.{AreAnswersOne};

/// The check has one answer: two that apply to a plan, for the same bookings and channels, are equal. `check` gives one
/// that applies to each plan, so its faults exclude one another, and their order is that of the definitions.
pub fn one_answer()
    ensures { AreAnswersOne }
{}
