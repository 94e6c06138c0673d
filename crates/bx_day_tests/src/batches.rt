//! Batches of bookings that customers ask for, and what they are told.

use crate::market_world::MarketWorld;
use bx_base::{Booking, Bookings, ChannelSet, Plan};
use bx_channels::Number;
use bx_day::Exchange;
use bx_market::{Answer, run_market};
use bx_sales::NoSale;
use bx_worked_days::{Row, exchange_of};
use std::alloc::Global;
use std::test::Fail;

const YES: Answer = Answer::Accepted;

const LATE: Answer = Answer::Refused(NoSale::Late);

const FULL: Answer = Answer::Refused(NoSale::Full);

const NO_CHANNEL: Answer = Answer::Refused(NoSale::NoChannel);

/// A booking that is asked for, by its start and its end in seconds, its pay, and whether it is marked as must.
type Asked = (u32, u32, u64, bool);

/// A batch that is asked for at a second of a day, and what is told of each of its bookings.
struct Batch {
    name: &'static str,
    morning: &'static [Row],
    channels: &'static [u8],
    moment: u32,
    asked: &'static [Asked],
    told: &'static [Answer],
}

static BATCHES: [Batch; 15] = [
    Batch {
        name: "two short ones behind a long one pay more than it",
        morning: &[],
        channels: &[1],
        moment: 0,
        asked: &[(10, 40, 5, false), (10, 20, 3, false), (25, 40, 3, false)],
        told: &[NO_CHANNEL, YES, YES],
    },
    Batch {
        name: "a long one pays more than two short ones",
        morning: &[],
        channels: &[1],
        moment: 0,
        asked: &[(10, 20, 3, false), (25, 40, 3, false), (10, 40, 7, false)],
        told: &[NO_CHANNEL, NO_CHANNEL, YES],
    },
    Batch {
        name: "the one in the middle is left out",
        morning: &[],
        channels: &[1],
        moment: 0,
        asked: &[(10, 20, 5, false), (15, 25, 9, false), (20, 30, 5, false)],
        told: &[YES, NO_CHANNEL, YES],
    },
    Batch {
        name: "on two channels the cheapest of three is left out",
        morning: &[],
        channels: &[1, 2],
        moment: 0,
        asked: &[(10, 40, 1, false), (10, 40, 2, false), (10, 40, 3, false)],
        told: &[NO_CHANNEL, YES, YES],
    },
    Batch {
        name: "all fit",
        morning: &[(20, 30, 1, false)],
        channels: &[1, 2],
        moment: 0,
        asked: &[(10, 20, 1, false), (10, 40, 1, false), (30, 40, 1, false)],
        told: &[YES, YES, YES],
    },
    Batch {
        name: "a promise is kept, whatever is paid",
        morning: &[(20, 30, 1, false)],
        channels: &[1],
        moment: 0,
        asked: &[
            (10, 21, 1_000_000_000, false),
            (30, 40, 1, false),
            (5, 20, 1, false),
        ],
        told: &[NO_CHANNEL, YES, YES],
    },
    Batch {
        name: "what the morning refused stays so",
        morning: &[(20, 30, 0, false)],
        channels: &[1],
        moment: 0,
        asked: &[(25, 35, 1, false)],
        told: &[YES],
    },
    Batch {
        name: "a late one keeps none out",
        morning: &[],
        channels: &[1],
        moment: 5,
        asked: &[
            (5, 40, 1000, false),
            (6, 20, 1, false),
            (0, 10, 1000, false),
        ],
        told: &[LATE, YES, LATE],
    },
    Batch {
        name: "a must booking is chosen like another one",
        morning: &[],
        channels: &[1],
        moment: 0,
        asked: &[(10, 40, 1, true), (10, 20, 3, false)],
        told: &[NO_CHANNEL, YES],
    },
    Batch {
        name: "more must bookings than channels",
        morning: &[],
        channels: &[1],
        moment: 0,
        asked: &[(10, 40, 1, true), (10, 40, 3, true), (30, 40, 1, true)],
        told: &[NO_CHANNEL, YES, NO_CHANNEL],
    },
    Batch {
        name: "no channel is in service",
        morning: &[],
        channels: &[],
        moment: 0,
        asked: &[(10, 20, 1, false)],
        told: &[NO_CHANNEL],
    },
    Batch {
        name: "a plan that is not first fit is sold on beside the call that is up",
        morning: &[(1, 30, 2, false)],
        channels: &[1, 2],
        moment: 2,
        asked: &[(10, 20, 1, false), (2, 9, 1, false)],
        told: &[YES, LATE],
    },
    Batch {
        name: "it fits, though no channel is free for all of it",
        morning: &[(10, 20, 1, false), (20, 30, 2, false)],
        channels: &[1, 2],
        moment: 0,
        asked: &[(15, 25, 1, false)],
        told: &[YES],
    },
    Batch {
        name: "a promised one goes to a channel in service",
        morning: &[(20, 30, 3, false)],
        channels: &[1],
        moment: 0,
        asked: &[(25, 35, 1, false), (30, 40, 1, false)],
        told: &[NO_CHANNEL, YES],
    },
    Batch {
        name: "an empty batch",
        morning: &[],
        channels: &[1],
        moment: 0,
        asked: &[],
        told: &[],
    },
];

fn booking_of(asked: &Asked) -> Option<Booking> {
    let booking = Booking::new(asked.0, asked.1, asked.2, Number::new(b"1234")?)?;
    Some(if asked.3 { booking.as_must() } else { booking })
}

fn batch_of(alloc: Global, asked: &[Asked]) -> Option<Bookings> {
    let mut batch = Bookings::new(alloc);
    for row in asked {
        batch.push(booking_of(row)?).ok()?;
    }
    Some(batch)
}

/// What the customer of a batch is told on a day that goes up to a second.
fn world_after(
    alloc: Global,
    exchange: &mut Exchange,
    channels: &[u8],
    moment: u32,
    asked: &[Asked],
) -> Option<MarketWorld> {
    for _second in 0..moment {
        exchange.tick();
    }
    let channels = ChannelSet::from_numbers(channels).ok()?;
    let mut world = MarketWorld::new(batch_of(alloc, asked)?, None);
    run_market(alloc, exchange, &mut world, channels, moment).ok()?;
    Some(world)
}

/// Whether just these answers are told, and each sale is on the disk by then.
fn is_told(world: &MarketWorld, told: &[Answer]) -> bool {
    let sold = told.iter().filter(|answer| **answer == YES).count();
    world.told.as_slice() == told && world.logged == sold && world.synced == sold
}

fn is_told_so(alloc: Global, batch: &Batch) -> Option<bool> {
    let mut exchange = exchange_of(alloc, batch.morning)?;
    let world = world_after(
        alloc,
        &mut exchange,
        batch.channels,
        batch.moment,
        batch.asked,
    )?;
    Some(is_told(&world, batch.told))
}

#[test]
fn batches(rt: HostRuntime) -> Result<(), Fail> {
    for batch in &BATCHES {
        assert_eq!(rt; is_told_so(rt.alloc(), batch), Some(true), "{}", batch.name);
    }
    Ok(())
}

/// A day of so many bookings, all refused.
fn refused_day(alloc: Global, count: usize) -> Option<Exchange> {
    let mut bookings = Bookings::new(alloc);
    let mut assigned = Vec::new(alloc);
    for _row in 0..count {
        bookings.push(booking_of(&(0, 10, 1, false))?).ok()?;
        assigned.push(None).ok()?;
    }
    let channels = ChannelSet::from_numbers(&[1]).ok()?;
    let plan = Plan::new(bookings, channels, assigned, Vec::new(alloc), 0)?;
    if !plan.carried() {
        return None;
    }
    Exchange::new(alloc, &plan).ok()
}

static ASKED_LAST: [Asked; 4] = [
    (0, 10, 9, false),
    (10, 20, 1, false),
    (5, 15, 2, false),
    (30, 40, 9, false),
];

static TOLD_LAST: [Answer; 4] = [LATE, NO_CHANNEL, YES, FULL];

/// A day with two places left: what is asked for after the second booking that starts later finds none.
fn last_places(alloc: Global) -> Option<bool> {
    let mut exchange = refused_day(alloc, 15998)?;
    let world = world_after(alloc, &mut exchange, &[1], 0, &ASKED_LAST)?;
    Some(is_told(&world, &TOLD_LAST))
}

#[test]
fn full_day(rt: HostRuntime) -> Result<(), Fail> {
    assert_eq!(rt;
        last_places(rt.alloc()),
        Some(true),
        "a day with two places left"
    );
    Ok(())
}
