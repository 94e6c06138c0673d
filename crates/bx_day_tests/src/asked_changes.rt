//! Changes that customers ask for while the day runs, and what they are told.

use crate::changes::booking_of;
use crate::market_world::MarketWorld;
use bx_base::{Bookings, ChannelSet};
use bx_market::{Request, run_market};
use bx_sales::NoChange;
use bx_worked_days::{Row, exchange_of};
use std::alloc::Global;
use std::test::Fail;

static MORNING: [Row; 2] = [(0, 20, 1, false), (10, 30, 2, false)];

/// What is asked for.
enum Wanted {
    Cancelled(u16),
    Becomes(u16, Row),
}

/// What is asked for at second 5 of the morning's day, on channels 1 to 3, what is told, and whether it is in the journal.
struct Asked {
    name: &'static str,
    wanted: Wanted,
    told: Result<(), NoChange>,
}

static ASKED: [Asked; 6] = [
    Asked {
        name: "one that waits is given up",
        wanted: Wanted::Cancelled(2),
        told: Ok(()),
    },
    Asked {
        name: "a call that is up is not given up",
        wanted: Wanted::Cancelled(1),
        told: Err(NoChange::Late),
    },
    Asked {
        name: "no such row",
        wanted: Wanted::Cancelled(3),
        told: Err(NoChange::NoBooking),
    },
    Asked {
        name: "a call that is up goes on",
        wanted: Wanted::Becomes(1, (0, 40, 1, false)),
        told: Ok(()),
    },
    Asked {
        name: "a call that is up has no other start",
        wanted: Wanted::Becomes(1, (6, 40, 1, false)),
        told: Err(NoChange::Late),
    },
    Asked {
        name: "one that waits starts earlier",
        wanted: Wanted::Becomes(2, (6, 30, 2, false)),
        told: Ok(()),
    },
];

fn request_of(wanted: &Wanted) -> Option<Request> {
    Some(match wanted {
        Wanted::Cancelled(row) => Request::Cancel(*row),
        Wanted::Becomes(row, other) => Request::Change(*row, booking_of(other)?),
    })
}

/// Whether this is told, and what is done is on the disk by then, and nothing else.
fn is_told_so(alloc: Global, asked: &Asked) -> Option<bool> {
    let mut exchange = exchange_of(alloc, &MORNING)?;
    for _second in 0..5 {
        exchange.tick();
    }
    let channels = ChannelSet::from_numbers(&[1, 2, 3]).ok()?;
    let mut world = MarketWorld::new(Bookings::new(alloc), Some(request_of(&asked.wanted)?));
    run_market(alloc, &mut exchange, &mut world, channels, 5).ok()?;
    let logged = usize::from(asked.told.is_ok());
    Some(world.changed == Some(asked.told) && world.logged == logged && world.synced == logged)
}

#[test]
fn asked_changes(rt: HostRuntime) -> Result<(), Fail> {
    for asked in &ASKED {
        assert_eq!(rt; is_told_so(rt.alloc(), asked), Some(true), "{}", asked.name);
    }
    Ok(())
}
