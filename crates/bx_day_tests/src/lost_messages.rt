//! Drawn days, and the example day, with drawn outages of both ends at once, before each of which messages are lost: a booking that has
//! six seconds of a whole link left at its end is carried to it.

use crate::drawn_days::Drawn;
use crate::example_day::ACCEPTED;
use arrayvec::ArrayVec;
use bx_base::{Booking, Bookings, ChannelSet, Plan};
use bx_cases::SHARE;
use bx_channels::{Channel, Number};
use bx_day::{Exchange, Outcome};
use bx_events::Rules;
use bx_far::Far;
use bx_q931::Octets;
use bx_worked_days::{DayEnd, Row, exchange_of, far_end};
use std::alloc::{AllocError, Global};
use std::test::Fail;

const DAYS: u32 = 1000;

/// What a call takes at most that is carried, from the first second with a link on.
const SECONDS_LEFT: u32 = 6;

/// How often the example day is tried, which is a long one.
const EXAMPLE_DAYS: u32 = DAYS / SHARE / SHARE;

/// When the last booking of the example day ends.
const EXAMPLE_END: u32 = 1440;

/// So often the messages of a second go there and back at most.
const ANSWERS: u32 = 4;

/// The link in a second: all messages come, so many and then no more, or there is none.
#[derive(Clone, Copy, PartialEq, Eq)]
enum Link {
    Whole,
    Cut(u32),
    Lost,
}

/// What is said in a turn, at most twice on each channel.
type Messages = ArrayVec<Octets, 60>;

#[derive(Drop)]
struct Ends {
    exchange: Exchange,
    far: Far,
}

/// What an end answers to those of these messages that come; so many still do.
fn answers<E: DayEnd>(end: &mut E, messages: &[Octets], left: &mut u32) -> Messages {
    let mut said = ArrayVec::new();
    for octets in messages {
        if *left > 0
            && let Some(reply) = end.hear(octets)
            && !said.is_full()
        {
            said.push(reply);
        }
        *left = left.saturating_sub(1);
    }
    said
}

/// Adds messages to others.
fn push_all(said: &mut Messages, messages: ArrayVec<Octets, 30>) {
    for octets in messages {
        if !said.is_full() {
            said.push(octets);
        }
    }
}

impl Ends {
    /// A second of both ends in turns, in which so many messages come. Whether nothing is left of them.
    fn turn(&mut self, most: u32) -> bool {
        let mut left = most;
        let calls = self.exchange.tick();
        let mut said = answers(&mut self.far, &calls, &mut left);
        push_all(&mut said, self.far.tick());
        for _answer in 0..ANSWERS {
            if said.is_empty() {
                break;
            }
            let replies = answers(&mut self.exchange, &said, &mut left);
            said = answers(&mut self.far, &replies, &mut left);
        }
        said.is_empty()
    }

    fn second(&mut self, link: Link) -> bool {
        match link {
            Link::Whole => self.turn(u32::MAX),
            Link::Cut(most) => self.turn(most),
            Link::Lost => {
                self.exchange.second_without_link(Rules::Three);
                self.far.second_without_link();
                true
            }
        }
    }

    /// Whether no channel is in maintenance at either end.
    fn is_in_service(&self) -> bool {
        for number in 1..=31 {
            if let Some(channel) = Channel::new(number)
                && (self.exchange.in_maintenance(channel) || self.far.in_maintenance(channel))
            {
                return false;
            }
        }
        true
    }
}

/// Bookings of channel 1, one after another.
fn drawn_rows(drawn: &mut Drawn) -> [Row; 12] {
    let mut rows = [(0, 1, 1, false); 12];
    let mut from: u32 = 0;
    for place in 0..12 {
        let start = from.wrapping_add(drawn.below(6));
        let end = start.wrapping_add(drawn.below(39)).wrapping_add(2);
        rows[place] = (start, end, 1, false);
        from = end;
    }
    rows
}

fn push_times(links: &mut Vec<Link>, link: Link, times: u32) -> Result<(), AllocError> {
    for _second in 0..times {
        links.push(link).map_err(|_| AllocError)?;
    }
    Ok(())
}

/// The link in each second from moment 1 on; it is whole behind these.
fn drawn_links(alloc: Global, drawn: &mut Drawn, outages: u32) -> Result<Vec<Link>, AllocError> {
    let mut links = Vec::new(alloc);
    for _outage in 0..outages {
        push_times(&mut links, Link::Whole, drawn.below(60))?;
        push_times(&mut links, Link::Cut(drawn.below(7)), 1)?;
        push_times(&mut links, Link::Lost, drawn.below(30).wrapping_add(1))?;
    }
    Ok(links)
}

/// The link in the second to this moment.
fn link_at(links: &[Link], moment: u32) -> Link {
    match links.get((moment as usize).wrapping_sub(1)) {
        Some(link) => *link,
        None => Link::Whole,
    }
}

/// What a booking has of the link: how many seconds in a row it is whole at its end, the last before that apart if it is cut; and
/// whether it is lost in some second.
fn left_at_end(links: &[Link], row: &Row) -> (u32, bool) {
    let mut whole: u32 = 0;
    let mut is_lost = false;
    for moment in row.0.max(1)..row.1 {
        match link_at(links, moment) {
            Link::Whole => whole = whole.wrapping_add(1),
            Link::Cut(_) => {}
            Link::Lost => {
                whole = 0;
                is_lost = true;
            }
        }
    }
    (whole, is_lost)
}

/// Runs a day to its end and a minute beyond. Whether no message is left over at the end of a second.
fn runs(ends: &mut Ends, links: &[Link], end: u32) -> bool {
    let mut right = true;
    for moment in 1..end.saturating_add(60) {
        right &= ends.second(link_at(links, moment));
    }
    right
}

/// Whether each outward booking with so many seconds left is carried to its end, and none that was Active is cut short. Counts those
/// with them that have seconds without a link too.
fn are_carried(exchange: &Exchange, rows: &[Row], links: &[Link], seen: &mut u32) -> bool {
    let mut carried = true;
    for (number, row) in (1..).zip(rows) {
        let (left, is_lost) = left_at_end(links, row);
        match exchange.outcome(number) {
            Some(Outcome::Carried { until, .. }) => carried &= until == row.1,
            _ => carried &= row.3 || left < SECONDS_LEFT,
        }
        if !row.3 && left >= SECONDS_LEFT && is_lost {
            *seen = seen.wrapping_add(1);
        }
    }
    carried
}

/// Whether a day of these bookings, of which the last ends at this moment, goes so, and no channel goes into maintenance.
fn day_goes(mut ends: Ends, rows: &[Row], end: u32, links: &[Link], seen: &mut u32) -> bool {
    let right = runs(&mut ends, links, end);
    let carried = are_carried(&ends.exchange, rows, links, seen);
    right && carried && ends.is_in_service()
}

/// Whether a drawn day goes so.
fn drawn_day_goes(alloc: Global, seed: u32, seen: &mut u32) -> Option<bool> {
    let mut drawn = Drawn::of(seed);
    let rows = drawn_rows(&mut drawn);
    let links = drawn_links(alloc, &mut drawn, 9).ok()?;
    let ends = Ends {
        exchange: exchange_of(alloc, &rows)?,
        far: far_end(alloc)?,
    };
    Some(day_goes(ends, &rows, rows.last()?.1, &links, seen))
}

/// The plan of the example day, of its accepted bookings alone.
fn example_plan(alloc: Global) -> Option<Plan> {
    let mut bookings = Bookings::new(alloc);
    let mut assigned = Vec::new(alloc);
    for row in &ACCEPTED {
        let booking = Booking::new(row.0, row.1, 5, Number::new(b"1234")?)?;
        let directed = if row.3 { booking.as_inward() } else { booking };
        bookings.push(directed).ok()?;
        assigned.push(Channel::new(row.2)).ok()?;
    }
    let mut channels = ChannelSet::empty();
    for number in 1..=31 {
        if let Some(channel) = Channel::new(number) {
            channels = channels.with(channel);
        }
    }
    Plan::new(bookings, channels, assigned, Vec::new(alloc), 0)
}

/// Whether the example day goes so, with drawn outages.
fn example_day_goes(alloc: Global, plan: &Plan, seed: u32, seen: &mut u32) -> Option<bool> {
    if !plan.carried() {
        return None;
    }
    let mut drawn = Drawn::of(seed);
    let links = drawn_links(alloc, &mut drawn, 32).ok()?;
    let ends = Ends {
        exchange: Exchange::new(alloc, plan).ok()?,
        far: far_end(alloc)?,
    };
    Some(day_goes(ends, &ACCEPTED, EXAMPLE_END, &links, seen))
}

#[test]
fn lost_messages(rt: HostRuntime) -> Result<(), Fail> {
    let mut seen = 0;
    for seed in 0..DAYS / SHARE {
        if drawn_day_goes(rt.alloc(), seed, &mut seen) != Some(true) {
            return Err(Fail::new(seed));
        }
    }
    assert!(rt; seen >= DAYS / SHARE, "{seen} bookings with an outage");
    Ok(())
}

#[test]
fn lost_messages_of_the_example_day(rt: HostRuntime) -> Result<(), Fail> {
    let mut seen = 0;
    let Some(plan) = example_plan(rt.alloc()) else {
        return Err(Fail::new(0));
    };
    for seed in 0..EXAMPLE_DAYS {
        if example_day_goes(rt.alloc(), &plan, seed, &mut seen) != Some(true) {
            return Err(Fail::new(seed));
        }
    }
    assert!(rt; seen >= EXAMPLE_DAYS, "{seen} bookings with an outage");
    Ok(())
}
