//! Small days, and what is drawn of them.

use bx_base::ChannelSet;
use bx_calendar::Clock;
use bx_cases::Failing;
use bx_chart::ChartFault;
use bx_day::Exchange;
use bx_day_chart::{DaySight, Outages, write_day_chart};
use bx_devices::Watched;
use bx_events::Rules;
use bx_worked_days::{Row, exchange_of};
use std::alloc::Global;

/// What happens: seconds on the link up to a moment, octets that come, or seconds without a link up to a moment.
#[derive(Clone, Copy)]
pub(crate) enum Step {
    Linked(u32),
    Heard(&'static [u8]),
    Without(u32),
}

fn pass(exchange: &mut Exchange, moment: u32) {
    for _second in exchange.moment()..moment {
        let _sent = exchange.tick();
    }
}

fn lose(exchange: &mut Exchange, outages: &mut Outages, moment: u32) -> Option<()> {
    for second in exchange.moment()..moment {
        outages.note(second).ok()?;
        exchange.second_without_link(Rules::Three);
    }
    Some(())
}

/// The day of these bookings after these steps, and its outages.
pub(crate) fn day_of(
    alloc: Global,
    bookings: &[Row],
    steps: &[Step],
) -> Option<(Exchange, Outages)> {
    let mut exchange = exchange_of(alloc, bookings)?;
    let mut outages = Outages::new(alloc);
    for step in steps {
        match *step {
            Step::Linked(moment) => pass(&mut exchange, moment),
            Step::Heard(octets) => {
                let _reply = exchange.receive(octets);
            }
            Step::Without(moment) => lose(&mut exchange, &mut outages, moment)?,
        }
    }
    Some((exchange, outages))
}

/// What is written of such a day, where so many octets can be, and why no more.
pub(crate) fn drawn(
    alloc: Global,
    day: (Exchange, Outages),
    is_over: bool,
    clock: Option<&Clock>,
    octets: u32,
) -> Option<(Vec<u8>, Option<ChartFault>)> {
    let (exchange, outages) = day;
    let sight = DaySight { outages, is_over };
    let channels = ChannelSet::from_numbers(&[1, 2, 3]).ok()?;
    let mut output = Watched::new(Failing::new(Vec::new(alloc), octets, 1));
    let fault = write_day_chart(alloc, &exchange, channels, &sight, clock, &mut output).err();
    Some((output.into_inner().into_inner(), fault))
}
