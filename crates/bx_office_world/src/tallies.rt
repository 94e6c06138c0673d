//! Bookings of a day by what has become of them: how many there are, and what they pay.

ghost use Rattle.std.specs.Prelude.{◌≡◌, ◌≤◌, length};
ghost use Rattle.bx_base.specs.declared.bookings.TheConstants.{MAX_BOOKINGS};
ghost use Rattle.bx_records.specs.Tallies.{IsTallyOf};
ghost use Rattle.bx_office_world.specs.Tallies.{is_such};

use bx_day::{Entry, Standing};
use bx_records::Tally;

/// What has become of a booking, in a word.
#[derive(Clone, Copy, Debug, PartialEq, Eq)]
pub enum Became {
    Refused,
    Waiting,
    Live,
    Carried,
    Unanswered,
    Missed,
}

/// Whether this has become of a booking.
fn is_such(became: Became, standing: &Standing) -> bool
    ensures { result ≡ is_such became standing.now }
{
    match (became, standing) {
        (Became::Refused, Standing::Refused) => true,
        (Became::Waiting, Standing::Unoffered) => true,
        (Became::Live, Standing::OnCall { .. }) => true,
        // A call of no seconds earns nothing.
        (Became::Carried, Standing::Carried { from, until }) => from < until,
        (Became::Unanswered, Standing::Carried { from, until }) => from >= until,
        (Became::Unanswered, Standing::Unanswered) => true,
        (Became::Missed, Standing::Missed) => true,
        _ => false,
    }
}

/// The bookings of which this has become.
pub(crate) fn tally_of(entries: &[Entry], became: Became) -> Tally
    requires { length entries.now ≤ MAX_BOOKINGS }
    ensures { IsTallyOf (is_such became) entries.now result }
{
    let mut tally = Tally::NONE;
    for entry in entries {
        tally.count(entry, is_such(became, &entry.standing));
    }
    tally
}
