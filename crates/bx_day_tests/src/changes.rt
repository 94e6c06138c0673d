//! A day whose plan changes while it runs, beside the day of its last plan.

use crate::sales::hold_the_same;
use bx_base::{Booking, ChannelSet};
use bx_channels::Number;
use bx_day::{Exchange, Outcome};
use bx_far::Far;
use bx_sales::{NoChange, cancel, change, recolour};
use bx_worked_days::{Row, exchange_of, far_end};
use std::alloc::Global;
use std::test::Fail;

/// The last moment before the plan changes.
const CHANGED: u32 = 5;

static MORNING: [Row; 5] = [
    (0, 20, 1, false),
    (10, 30, 2, false),
    (10, 40, 3, false),
    (25, 35, 1, false),
    (30, 50, 2, false),
];

/// What is wanted of the day.
#[derive(Clone, Copy)]
enum Change {
    /// The booking of this row is given up.
    Cancelled(u16),
    /// It becomes this one.
    Becomes(u16, Row),
    /// What waits is to move to these channels.
    Left([u8; 2]),
}

/// What is asked for, in this order, what it is, and what is answered.
static ASKED: [(&str, Change, Result<(), NoChange>); 16] = [
    (
        "a call that is up",
        Change::Cancelled(1),
        Err(NoChange::Late),
    ),
    ("no row", Change::Cancelled(0), Err(NoChange::NoBooking)),
    (
        "a row beyond the last",
        Change::Cancelled(6),
        Err(NoChange::NoBooking),
    ),
    ("one that waits", Change::Cancelled(2), Ok(())),
    (
        "one that was given up",
        Change::Cancelled(2),
        Err(NoChange::NoBooking),
    ),
    (
        "an end that has come",
        Change::Becomes(1, (0, CHANGED, 1, false)),
        Err(NoChange::Late),
    ),
    (
        "another start of a call that is up",
        Change::Becomes(1, (1, 28, 1, false)),
        Err(NoChange::Late),
    ),
    (
        "a call that is up is called inward",
        Change::Becomes(1, (0, 28, 1, true)),
        Err(NoChange::Late),
    ),
    (
        "a later end of a call that is up",
        Change::Becomes(1, (0, 28, 1, false)),
        Ok(()),
    ),
    (
        "one that was given up comes back",
        Change::Becomes(2, (10, 30, 2, false)),
        Err(NoChange::NoBooking),
    ),
    (
        "one that waits starts now",
        Change::Becomes(5, (CHANGED, 50, 2, false)),
        Err(NoChange::Late),
    ),
    (
        "one that waits starts later",
        Change::Becomes(5, (32, 50, 2, false)),
        Ok(()),
    ),
    (
        "an end beside three others",
        Change::Becomes(1, (0, 36, 1, false)),
        Err(NoChange::NoChannel),
    ),
    (
        "three on two channels",
        Change::Left([1, 3]),
        Err(NoChange::NoChannel),
    ),
    (
        "an earlier end",
        Change::Becomes(4, (25, 30, 1, false)),
        Ok(()),
    ),
    (
        "a channel is taken out under a call",
        Change::Left([2, 3]),
        Ok(()),
    ),
];

/// The last plan: what is up stays on its channel, and what waits is on the two that are left.
static LAST: [Row; 5] = [
    (0, 28, 1, false),
    (10, 30, 0, false),
    (10, 40, 2, false),
    (25, 30, 3, false),
    (32, 50, 3, false),
];

static OUTCOMES: [Outcome; 5] = [
    Outcome::Carried { from: 1, until: 28 },
    Outcome::Refused,
    Outcome::Carried {
        from: 10,
        until: 40,
    },
    Outcome::Carried {
        from: 25,
        until: 30,
    },
    Outcome::Carried {
        from: 32,
        until: 50,
    },
];

/// The exchange, that of the last plan from the morning on, and a far end that hears the first and is heard by both.
#[derive(Drop)]
struct Beside {
    exchange: Exchange,
    last: Exchange,
    far: Far,
}

impl Beside {
    /// Brings a message to both exchanges, and what the first answers to the far end; whether both answer the same.
    fn hear(&mut self, octets: &[u8]) -> bool {
        let answer = self.exchange.receive(octets);
        let expected = self.last.receive(octets);
        if let Some(reply) = &answer {
            let _none = self.far.receive(reply);
        }
        match (&answer, &expected) {
            (Some(one), Some(other)) => one.as_slice() == other.as_slice(),
            (None, None) => true,
            _ => false,
        }
    }

    /// A second of all; whether both exchanges send the same and hold the same.
    fn second(&mut self) -> bool {
        let sent = self.exchange.tick();
        let expected = self.last.tick();
        let mut same = sent.len() == expected.len();
        for (octets, others) in sent.iter().zip(&expected) {
            same &= octets.as_slice() == others.as_slice();
            if let Some(reply) = self.far.receive(octets) {
                same &= self.hear(&reply);
            }
        }
        for octets in self.far.tick() {
            same &= self.hear(&octets);
        }
        same && hold_the_same(&self.exchange, &self.last)
    }
}

/// Whether so many seconds go alike on both exchanges.
fn go_alike(days: &mut Beside, seconds: u32) -> bool {
    let mut same = true;
    for _second in 0..seconds {
        same &= days.second();
    }
    same
}

/// A booking of number 1234, as those of the morning are; its channel is not its own.
pub(crate) fn booking_of(row: &Row) -> Option<Booking> {
    let booking = Booking::new(row.0, row.1, 5, Number::new(b"1234")?)?;
    Some(if row.3 { booking.as_inward() } else { booking })
}

fn ask(alloc: Global, exchange: &mut Exchange, wanted: Change) -> Option<Result<(), NoChange>> {
    let channels = ChannelSet::from_numbers(&[1, 2, 3]).ok()?;
    Some(match wanted {
        Change::Cancelled(row) => cancel(alloc, exchange, channels, row),
        Change::Becomes(row, other) => change(alloc, exchange, channels, row, booking_of(&other)?),
        Change::Left(numbers) => {
            recolour(alloc, exchange, ChannelSet::from_numbers(&numbers).ok()?)
        }
    })
}

/// The name of the first change that is answered otherwise.
fn first_misanswered(alloc: Global, exchange: &mut Exchange) -> Option<&'static str> {
    for (name, change, answer) in &ASKED {
        if ask(alloc, exchange, *change) != Some(*answer) {
            return Some(*name);
        }
    }
    None
}

/// Whether this has become of each booking.
fn have_become(exchange: &Exchange) -> bool {
    let mut same = true;
    for (index, outcome) in OUTCOMES.iter().enumerate() {
        same &= exchange.outcome(index as u16 + 1) == Some(*outcome);
    }
    same
}

#[test]
fn changed_plans(rt: HostRuntime) -> Result<(), Fail> {
    let alloc = rt.alloc();
    let mut days = Beside {
        exchange: exchange_of(alloc, &MORNING).ok_or("the morning")?,
        last: exchange_of(alloc, &LAST).ok_or("the last plan")?,
        far: far_end(alloc).ok_or("the far end")?,
    };
    for _second in 0..CHANGED {
        let _before = days.second();
    }
    assert_eq!(rt;
        first_misanswered(alloc, &mut days.exchange),
        None,
        "what is asked for"
    );
    assert!(rt; go_alike(&mut days, 60), "the day of the last plan");
    assert!(rt; have_become(&days.exchange), "outcomes");
    Ok(())
}
