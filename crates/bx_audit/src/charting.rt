//! A day that is followed by its journal, with the seconds without a link.

ghost use Rattle.std.specs.Prelude.{IfOk, IfErr};
ghost use Rattle.bx_devices.specs.Watching.{device_of};
ghost use Rattle.bx_audit.specs.Chartings.{IsNotSeenAsRead};
ghost use Rattle.bx_audit.specs.Seen.{IsSeenThrough};
ghost use Rattle.bx_devices.specs.Devices.{reading_of};

use crate::noting::Noting;
use bx_base::ChannelSet;
use bx_day::Exchange;
use bx_day_chart::Outages;
use bx_day_openings::{DayCommandFault, Selling, journal_read};
use bx_devices::Watched;
use bx_journal::{Follower, LoggedEvent, Wanted, read_journal};
use std::alloc::Global;
use std::io::Read;

/// An exchange that follows a journal, and the seconds without a link of that.
#[derive(Drop)]
struct Charting {
    selling: Selling,
    noting: Noting,
}

impl Follower for Charting {
    ghost use Rattle.bx_audit.specs.Chartings.{HasFollowed};
    ghost use Rattle.bx_audit.specs.NotedOn.{charted_nothing, charted_more};

    ghost followed = { HasFollowed };

    fn follow(&mut self, event: &LoggedEvent) {
        self.selling.follow(event);
        self.noting.follow(event);
    }

    ghost follows_none = { charted_nothing };

    ghost follows_on = { charted_more };
}

/// An exchange after its journal, and the outages of its link.
#[derive(Drop)]
pub(crate) struct Seen {
    pub(crate) exchange: Exchange,
    pub(crate) outages: Outages,
}

/// The exchange after the events of a journal of this name, with the outages of its link; what it says amends the plan is done
/// again, on the channels in service. It is read once, in pieces. It is refused as `replay_journal` refuses it, or as `Command`, by `Memory`, where
/// memory ran out as the list of what is given up was made or an outage was noted.
pub(crate) fn seen_by<'a, R: Read>(
    alloc: Global,
    name: &'a str,
    journal: &mut Watched<R>,
    wanted: &Wanted,
    channels: ChannelSet,
    exchange: Exchange,
) -> Result<Seen, DayCommandFault<'a>>
    ensures through { IfOk result (λ s. IsSeenThrough channels wanted.now (R.remaining (device_of journal.old)) exchange s.exchange s.outages.spans.items) }
    ensures refused { IfErr result (IsNotSeenAsRead name.now wanted.now channels exchange (reading_of R.remaining journal.old journal.new)) }
{
    let selling = Selling::new(alloc, channels, exchange)?;
    let mut charting = Charting {
        selling,
        noting: Noting::new(alloc),
    };
    let whole = read_journal(journal, wanted, &mut charting);
    let Charting { selling, noting } = charting;
    let exchange = selling.into_exchange()?;
    journal_read(name, whole)?;
    let outages = noting.into_outages()?;
    Ok(Seen { exchange, outages })
}
