//! How many of a day's bookings have become what, and what they pay.

ghost use Rattle.std.specs.Prelude.{◌≡◌, ◌≤◌, ◌==◌, ◌&&◌, length};
ghost use Rattle.bx_base.specs.declared.bookings.TheConstants.{MAX_BOOKINGS};
ghost use Rattle.bx_day_chart.specs.Counting.{has_become, fate_count_of, is_day_over, fate_pay_of};

use bx_day::{Entry, Exchange, Standing};

/// What may have become of a booking.
#[derive(Clone, Copy)]
pub(crate) enum Fate {
    Accepted,
    Waiting,
    Live,
    Carried,
    Unanswered,
    Missed,
}

/// Whether that has become of it.
fn has_become(fate: Fate, standing: &Standing) -> bool
    ensures { result ≡ has_become fate standing.now }
{
    match fate {
        Fate::Accepted => !standing.is_refused(),
        Fate::Waiting => standing.is_waiting(),
        Fate::Live => standing.is_live(),
        Fate::Carried => matches!(standing, Standing::Carried { .. }),
        Fate::Unanswered => matches!(standing, Standing::Unanswered),
        Fate::Missed => matches!(standing, Standing::Missed),
    }
}

/// Of how many of these bookings that has become.
pub(crate) fn count_of(fate: Fate, entries: &[Entry]) -> u64
    requires { length entries.now ≤ MAX_BOOKINGS }
    ensures { result ≡ fate_count_of fate entries.now }
{
    let mut count = 0;
    for entry in entries {
        if has_become(fate, &entry.standing) {
            count += 1;
        }
    }
    count
}

/// What those of which that has become pay.
pub(crate) fn pay_of(fate: Fate, entries: &[Entry]) -> u64
    requires { length entries.now ≤ MAX_BOOKINGS }
    ensures { result ≡ fate_pay_of fate entries.now }
{
    let mut pay = 0;
    for entry in entries {
        if has_become(fate, &entry.standing) {
            pay += entry.booking.pay();
        }
    }
    pay
}

/// Whether the day is over: no booking waits, and none is live.
pub fn is_over(exchange: &Exchange) -> bool
    ensures { result ≡ is_day_over exchange.now }
{
    // Read for the prover alone, which learns a limit from it.
    let _moment = exchange.moment();
    let entries = exchange.entries();
    count_of(Fate::Waiting, entries) == 0 && count_of(Fate::Live, entries) == 0
}
