//! Laws of the definitions, each of which is on a function's contract.

ghost use Rattle.bx_day_openings.specs.Laws.{TellsNoTakeover};

/// No journal that is followed from the opening of a plan is refused by `TookOver`: on the day of a plan each booking has its row as its reference.
pub fn no_takeover()
    ensures { TellsNoTakeover }
{}
