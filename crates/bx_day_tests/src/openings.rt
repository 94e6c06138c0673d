//! The opening of a day.

use bx_channels::Channel;
use bx_day::{Exchange, Outcome};
use bx_worked_days::{Row, exchange_of};
use std::test::Fail;

static ROWS: [Row; 3] = [(0, 60, 1, false), (0, 50, 0, false), (0, 40, 2, false)];

/// What is told of each row at the opening.
static OUTCOMES: [(u16, Option<Outcome>); 5] = [
    (0, None),
    (1, Some(Outcome::Waiting)),
    (2, Some(Outcome::Refused)),
    (3, Some(Outcome::Waiting)),
    (4, None),
];

/// Whether nothing holds the channel of this number, and it is not in maintenance.
fn is_open(exchange: &Exchange, number: u8) -> bool {
    match Channel::new(number) {
        Some(channel) => {
            exchange.on_channel(channel).is_none() && !exchange.in_maintenance(channel)
        }
        None => false,
    }
}

/// The first row of which something else is told at the opening.
fn first_mistold(exchange: &Exchange) -> Option<u16> {
    for (row, expected) in &OUTCOMES {
        if exchange.outcome(*row) != *expected {
            return Some(*row);
        }
    }
    None
}

#[test]
fn opening_of_a_day(rt: HostRuntime) -> Result<(), Fail> {
    let exchange = exchange_of(rt.alloc(), &ROWS).ok_or("opening")?;
    assert!(rt; exchange.moment() == 0, "moment");
    for number in [1, 2, 31] {
        assert!(rt; is_open(&exchange, number), "channel {number}");
    }
    assert!(rt; first_mistold(&exchange).is_none(), "outcomes");
    Ok(())
}
