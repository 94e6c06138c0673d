//! For how many seconds the calls of a day's bookings were carried.

ghost use Rattle.std.specs.Prelude.{◌≡◌, ◌≤◌, length};
ghost use Rattle.bx_base.specs.declared.bookings.TheConstants.{MAX_BOOKINGS};
ghost use Rattle.bx_records.specs.Tallies.{AreLasted};
ghost use Rattle.bx_records.specs.Totals.{active_seconds, booked_seconds, is_carried, is_short};

use bx_day::{Entry, Standing};

/// The seconds of a day's bookings: for how many their calls were carried, for how many those that the plan accepts were booked, and
/// how many calls were carried for fewer seconds than were booked.
#[derive(Clone, Copy)]
pub struct Lasted {
    pub carried: u64,
    pub booked: u64,
    pub short: u64,
}

/// Whether its call is over, and was Active for a second or more.
pub(crate) fn is_carried(standing: &Standing) -> bool
    ensures { result ≡ is_carried standing.now }
{
    match standing {
        Standing::Carried { from, until } => from < until,
        _ => false,
    }
}

/// The seconds for which its call was carried.
fn active_seconds(standing: &Standing) -> u32
    ensures { result ≡ active_seconds standing.now }
{
    match standing {
        Standing::Carried { from, until } => until.saturating_sub(*from),
        _ => 0,
    }
}

/// Those that were booked, where the plan accepts it.
fn booked_seconds(entry: &Entry) -> u32
    ensures { result ≡ booked_seconds entry.now }
{
    match entry.standing {
        Standing::Refused => 0,
        _ => entry.booking.end() - entry.booking.start(),
    }
}

/// Whether its call was carried for fewer seconds than were booked.
fn is_short(entry: &Entry) -> bool
    ensures { result ≡ is_short entry.now }
{
    let booked = entry.booking.end() - entry.booking.start();
    is_carried(&entry.standing) && active_seconds(&entry.standing) < booked
}

/// The seconds of all these bookings, of which a day has so many.
pub(crate) fn lasted_of(entries: &[Entry]) -> Lasted
    requires { length entries.now ≤ MAX_BOOKINGS }
    ensures { AreLasted entries.now result }
{
    let mut lasted = Lasted {
        carried: 0,
        booked: 0,
        short: 0,
    };
    for entry in entries {
        lasted.carried += u64::from(active_seconds(&entry.standing));
        lasted.booked += u64::from(booked_seconds(entry));
        lasted.short += u64::from(is_short(entry));
    }
    lasted
}
