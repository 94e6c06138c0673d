//! The calls that answer for refused bookings, and those of the day.

use crate::world::{Answer, World};
use bx_base::Booking;
use bx_check::check;
use bx_day::Exchange;
use bx_planner::{NoQuote, Quote, explain, next_gain, quote};
use bx_recovery::{Event, replay};
use std::alloc::Global;

fn threshold(given: Result<Quote, NoQuote>) -> Answer {
    match given {
        Ok(quote) => Answer::Right(quote.threshold),
        Err(NoQuote::Memory) => Answer::Refused,
        Err(_) => Answer::Wrong,
    }
}

/// The first booking is asked for once more. It has two channels full of others.
pub fn quoted(alloc: Global, world: &World) -> Answer {
    let Some(booking) = world.bookings.get(1) else {
        return Answer::Wrong;
    };
    match check(&world.plan.bookings, world.plan.channels, &world.plan) {
        Ok(_) => threshold(quote(alloc, &world.plan, &booking)),
        Err(_) => Answer::Wrong,
    }
}

pub fn explained(alloc: Global, world: &World) -> Answer {
    match check(&world.plan.bookings, world.plan.channels, &world.plan) {
        Ok(_) => threshold(explain(alloc, &world.plan, 2)),
        Err(_) => Answer::Wrong,
    }
}

/// What a third channel would add.
pub fn gained(alloc: Global, world: &World) -> Answer {
    match check(&world.plan.bookings, world.plan.channels, &world.plan) {
        Ok(_) => match next_gain(alloc, &world.plan) {
            Ok(gain) => Answer::Right(gain),
            Err(_) => Answer::Refused,
        },
        Err(_) => Answer::Wrong,
    }
}

pub fn opened(alloc: Global, world: &World) -> Answer {
    if !world.plan.carried() {
        return Answer::Wrong;
    }
    match Exchange::new(alloc, &world.plan) {
        Ok(exchange) => Answer::Right(u64::from(exchange.moment())),
        Err(_) => Answer::Refused,
    }
}

/// At the sixth tick the must booking is offered.
pub fn replayed(alloc: Global, world: &World) -> Answer {
    if !world.plan.carried() {
        return Answer::Wrong;
    }
    let events = [Event::Tick; 6];
    match replay(alloc, &world.plan, &events) {
        Ok(replayed) => Answer::Right(replayed.sent.len() as u64),
        Err(_) => Answer::Refused,
    }
}
