//! Laws of first-fit colourings.

ghost use Rattle.bx_colour.specs.Beside.{IsFirstFitBeside};
ghost use Rattle.bx_colour.specs.ChangedRows.{IsBegunKept};
ghost use Rattle.bx_colour.specs.LaterRows.{AreLaterRowsExtending};

/// First fit goes by the starts: where the first of more rows are those of before, marked as they were, and the others start at
/// moment m or later, the colouring extends the one before from m. So channels of rows that start before m stay.
pub fn later_rows_extend()
    ensures { AreLaterRowsExtending }
{}

/// Where the same rows are accepted that start by moment t, with the same ends or with ends that are later than t in both, first fit gives
/// each of them the channel that it had. So rows that start later may come, go and change, and what has begun may end later or earlier.
pub fn changed_rows_stay()
    ensures { IsBegunKept }
{}

/// Where what has begun keeps the channel that first fit gave it, and what starts later is first fit among the channels that are left, the whole is
/// first fit: each booking has the lowest of the channels that it had to choose from that no earlier overlapping one has.
pub fn beside_is_first_fit()
    ensures { IsFirstFitBeside }
{}
