//! A day that has gone through its journal, and how long it goes on.

ghost use Rattle.std.specs.Prelude.{◌≡◌, ◌≤◌, ◌+◌, [], not, length, if◌then◌else◌, IfOk, IfErr};
ghost use Rattle.bx_base.specs.declared.booking.TheConstants.{MAX_MOMENT};
ghost use Rattle.bx_calls.specs.Timers.{clearing_time};
ghost use Rattle.bx_day.specs.Invariant.{is_refused};
ghost use Rattle.bx_day_openings.specs.Openings.{IsLastOfDay, AreDayTurns};
ghost use Rattle.bx_day_openings.specs.Replays.{IsDayThrough, IsDayNoted, IsNoReplayAsRead};
ghost use Rattle.bx_devices.specs.Watching.{device_of};
ghost use Rattle.bx_journal.specs.Follows.{IsFollowedFrom};
ghost use Rattle.bx_day_openings.specs.Selling.{day_goes, tags_go};
ghost use Rattle.bx_devices.specs.Devices.{reading_of};

use crate::fault::DayCommandFault;
use crate::following::journal_read;
use crate::openings::AFTER_THE_LAST;
use crate::selling::Selling;
use bx_base::ChannelSet;
use bx_day::{Entry, Exchange, GivenUp, Standing};
use bx_devices::Watched;
use bx_journal::{JournalFault, Wanted, read_journal};
use bx_sales::Tag;
use std::alloc::Global;
use std::io::Read;

/// An exchange after the events of its journal and what amends its plan, of each sale under which key it was asked for, or none, how bookings were given
/// up, by their rows, and how that was read.
#[derive(Drop)]
pub struct Replayed {
    pub exchange: Exchange,
    pub tags: Vec<Option<Tag>>,
    pub given_up: Vec<Option<GivenUp>>,
    pub whole: Result<u64, JournalFault>,
}

/// The exchange after the events of a journal of this name, where it is the one that is wanted; what it says amends the plan is done again, on the
/// channels in service. A journal that was not begun has no event. It is read once, in pieces, so it may be of any length. `Amendment` where such a line
/// is none of its day; else `Journal`, as `BadLine`, `OtherPlan`, `OtherDay` or `OtherRules`, or `Command`, as `CannotRead` of that name: what stands
/// first in it is answered. `Command`, as `Memory`, where memory runs out before it is read.
pub fn replay_journal<'a, R: Read>(
    alloc: Global,
    name: &'a str,
    journal: &mut Watched<R>,
    wanted: &Wanted,
    channels: ChannelSet,
    exchange: Exchange,
) -> Result<Replayed, DayCommandFault<'a>>
    ensures through { IfOk result (λ r. IsDayThrough channels wanted.now (R.remaining (device_of journal.old)) exchange r.exchange) }
    ensures followed { IfOk result (λ r. IsFollowedFrom (day_goes channels) R.remaining journal.old journal.new wanted.now exchange r.exchange r.whole) }
    ensures tagged { IfOk result (λ r. IsFollowedFrom tags_go R.remaining journal.old journal.new wanted.now [] r.tags.items r.whole) }
    // What is noted of the bookings is noted of the same events.
    ensures noted { IfOk result (λ r.
        IsDayNoted channels wanted.now (R.remaining (device_of journal.old)) exchange r.exchange r.given_up.items) }
    ensures refused { IfErr result (IsNoReplayAsRead name.now wanted.now channels exchange (reading_of R.remaining journal.old journal.new)) }
{
    let mut selling = Selling::new(alloc, channels, exchange)?;
    let whole = read_journal(journal, wanted, &mut selling);
    let sold = selling.into_sold()?;
    journal_read(name, whole)?;
    Ok(Replayed {
        exchange: sold.exchange,
        tags: sold.tags,
        given_up: sold.given_up,
        whole,
    })
}

/// The moment from which on the call of a booking is over: 1 where it is not accepted.
fn over_with(entry: &Entry) -> u32
    ensures limit { (1 ≤ result) × (result ≤ MAX_MOMENT + clearing_time) }
    ensures over { result ≡ (if not (is_refused entry.now.standing) then entry.now.booking.end + clearing_time else 1) }
{
    match entry.standing {
        Standing::Refused => 1,
        _ => entry.booking.end() + AFTER_THE_LAST,
    }
}

/// How many turns it takes until the call of each of these bookings that is accepted is over: 1 where none is accepted.
fn last_turns(entries: &[Entry]) -> u32
    ensures { IsLastOfDay entries.now (length entries.now) result }
{
    let mut turns = 1;
    for index in 0..entries.len() {
        turns = turns.max(over_with(&entries[index]));
    }
    turns
}

/// How many turns a day has that goes on from here: as many as were asked for, or as its accepted bookings need.
pub fn day_turns(exchange: &Exchange, asked: Option<u32>) -> u32
    ensures { AreDayTurns asked exchange.now.entries result }
{
    match asked {
        Some(turns) => turns,
        None => last_turns(exchange.entries()),
    }
}
