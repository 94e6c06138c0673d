//! Laws of a day whose plan is amended while it runs.

ghost use Rattle.bx_sales.specs.Journal.{IsToldByJournal, HasAmendedPlan, IsOneDayByJournal};
ghost use Rattle.bx_sales.specs.Changes.{IsDayOfChangedPlan, IsSentTheSame, IsDayOfLastChange, HasBookingsAtLast, IsLastChangeCarried};

/// The journal tells the day: where the plan of the morning is first fit, a day that went through events and amendments, in whatever order, is the day
/// of one plan over these events alone: of the morning's bookings as the journal amends them, coloured once. So a restart and an audit need the plan of
/// the morning and the journal, and no plan between.
pub fn told_by_journal()
    ensures { IsToldByJournal }
{}

/// A journal leads from a day to one other day alone, whatever plan the morning had: so a day that is read again from its journal, at a restart or by an
/// audit, is the day that was run.
pub fn one_day_by_journal()
    ensures { IsOneDayByJournal }
{}

/// A day that went through a journal from the opening of a plan that is carried has the bookings of that plan as the journal amends them, and those
/// accepted that it leaves so; it is the day of a last plan of these, which its channels carry, by just these events. So the last plan is read off the
/// day.
pub fn rows_of_an_amended_day()
    ensures { HasAmendedPlan }
{}

/// The day so far depends on what has begun alone. Whatever plan agrees with the day: after the same events its day is this one, changed
/// (`day`), and at each of them the same was sent (`sent`). A plan agrees where each booking that was live, or whose end has come, stands there as it was, but
/// for an end that is yet to come in both; where whatever else it accepts starts later than now, or waits as it does; and where new ones start later.
/// So a booking may be sold, given up, changed or moved, and a call that is up may get another end, while the day runs: it is the day of its
/// last plan, and each law of a day holds of it. However often that happens (`last`, `bookings`, `carried`).
pub fn day_of_a_changed_plan()
    ensures day { IsDayOfChangedPlan }
    ensures sent { IsSentTheSame }
    ensures last { IsDayOfLastChange }
    ensures bookings { HasBookingsAtLast }
    ensures carried { IsLastChangeCarried }
{}
