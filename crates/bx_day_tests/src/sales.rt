//! A day on which bookings are sold, beside the day of its last plan.

use bx_base::{Booking, ChannelSet};
use bx_channels::{Channel, Number};
use bx_day::{Exchange, Outcome};
use bx_sales::{NoSale, sell};
use bx_worked_days::{Row, exchange_of};
use std::alloc::Global;
use std::test::Fail;

static MORNING: [Row; 3] = [(0, 10, 1, false), (20, 30, 1, false), (20, 40, 2, false)];

/// The bookings that are asked for at second 5, and what is answered.
static ASKED: [(u32, u32, Result<(), NoSale>); 6] = [
    (5, 15, Err(NoSale::Late)),
    (6, 15, Ok(())),
    (20, 25, Ok(())),
    (22, 23, Err(NoSale::NoChannel)),
    (10, 21, Err(NoSale::NoChannel)),
    (10, 20, Ok(())),
];

/// The last plan: what was sold stands after the others, first fit.
static LAST: [Row; 6] = [
    (0, 10, 1, false),
    (20, 30, 1, false),
    (20, 40, 2, false),
    (6, 15, 2, false),
    (20, 25, 3, false),
    (10, 20, 1, false),
];

/// Asks for a booking of number 1234 on channels 1, 2 and 3.
fn ask(alloc: Global, exchange: &mut Exchange, start: u32, end: u32) -> Option<Result<(), NoSale>> {
    let channels = ChannelSet::from_numbers(&[1, 2, 3]).ok()?;
    let booking = Booking::new(start, end, 5, Number::new(b"1234")?)?;
    Some(sell(alloc, exchange, channels, &booking))
}

/// Whether each booking that is asked for gets its answer.
fn are_answered(alloc: Global, exchange: &mut Exchange) -> bool {
    let mut same = true;
    for (start, end, answer) in &ASKED {
        same &= ask(alloc, exchange, *start, *end) == Some(*answer);
    }
    same
}

/// Whether both have the same channels, by what holds them.
pub(crate) fn hold_the_same(one: &Exchange, other: &Exchange) -> bool {
    let mut same = one.moment() == other.moment();
    for number in 1..4 {
        if let Some(channel) = Channel::new(number) {
            same &= one.on_channel(channel) == other.on_channel(channel);
        }
    }
    for row in 1..7 {
        same &= one.outcome(row) == other.outcome(row);
    }
    same
}

/// Whether the days go alike up to a second, of which each tick sends as much.
fn go_alike(one: &mut Exchange, other: &mut Exchange, seconds: u32) -> bool {
    let mut same = hold_the_same(one, other);
    for _second in 0..seconds {
        let sent = one.tick();
        let as_sent = other.tick();
        same &= sent.len() == as_sent.len();
        for (octets, expected) in sent.iter().zip(&as_sent) {
            same &= octets.as_slice() == expected.as_slice();
        }
        same &= hold_the_same(one, other);
    }
    same
}

fn day_goes(alloc: Global) -> Option<bool> {
    let mut exchange = exchange_of(alloc, &MORNING)?;
    let mut last = exchange_of(alloc, &LAST)?;
    for _second in 0..5 {
        exchange.tick();
        last.tick();
    }
    let answered = are_answered(alloc, &mut exchange);
    let alike = go_alike(&mut exchange, &mut last, 90);
    Some(answered && alike && exchange.outcome(6) == Some(Outcome::Unanswered))
}

#[test]
fn sold_bookings(rt: HostRuntime) -> Result<(), Fail> {
    assert_eq!(rt;
        day_goes(rt.alloc()),
        Some(true),
        "a day on which bookings are sold"
    );
    Ok(())
}
