//! What is told of rows that were given up, and of others that are noted so.

use crate::booked_days::tells_of;
use bx_cases::messages::{CONNECT, FAR_RELEASE};
use bx_day::{Exchange, GivenUp};
use bx_worked_days::{Row, TICK, exchange_of, goes_through};
use std::alloc::Global;
use std::test::Fail;

const CANCELLED: Option<GivenUp> = Some(GivenUp::Cancelled);

const DROPPED: Option<GivenUp> = Some(GivenUp::Dropped);

/// One is carried, two are refused, one is live, and one waits.
static ROWS: [Row; 5] = [
    (0, 3, 1, false),
    (10, 20, 0, false),
    (0, 60, 2, false),
    (60, 90, 1, false),
    (30, 40, 0, true),
];

/// The day up to the answer to its first call's end.
static STEPS: [&[u8]; 5] = [TICK, CONNECT, TICK, TICK, FAR_RELEASE];

/// Which rows are noted, by their numbers, and what is told then.
type Case = (&'static str, &'static [Option<GivenUp>], &'static str);

static CASES: [Case; 10] = [
    (
        "no list",
        &[],
        "1 carried 1 3\n2 refused\n3 live\n4 waiting\n5 refused\nmaintenance none\n",
    ),
    (
        "no row",
        &[None, None, None, None, None, None],
        "1 carried 1 3\n2 refused\n3 live\n4 waiting\n5 refused\nmaintenance none\n",
    ),
    (
        "a refused row cancelled",
        &[None, None, CANCELLED, None, None, None],
        "1 carried 1 3\n2 cancelled\n3 live\n4 waiting\n5 refused\nmaintenance none\n",
    ),
    (
        "a refused row dropped",
        &[None, None, DROPPED, None, None, None],
        "1 carried 1 3\n2 dropped\n3 live\n4 waiting\n5 refused\nmaintenance none\n",
    ),
    (
        "both refused rows, in a list that ends with the last",
        &[None, None, DROPPED, None, None, CANCELLED],
        "1 carried 1 3\n2 dropped\n3 live\n4 waiting\n5 cancelled\nmaintenance none\n",
    ),
    (
        "a list that ends before the last row",
        &[None, None, CANCELLED],
        "1 carried 1 3\n2 cancelled\n3 live\n4 waiting\n5 refused\nmaintenance none\n",
    ),
    (
        "a waiting row",
        &[None, None, None, None, CANCELLED, None],
        "1 carried 1 3\n2 refused\n3 live\n4 waiting\n5 refused\nmaintenance none\n",
    ),
    (
        "a carried row and a live one",
        &[None, DROPPED, None, CANCELLED, None, None],
        "1 carried 1 3\n2 refused\n3 live\n4 waiting\n5 refused\nmaintenance none\n",
    ),
    (
        "the place of no row, and one beyond the last",
        &[CANCELLED, None, None, None, None, None, DROPPED],
        "1 carried 1 3\n2 refused\n3 live\n4 waiting\n5 refused\nmaintenance none\n",
    ),
    (
        "all of them",
        &[DROPPED, DROPPED, DROPPED, DROPPED, DROPPED, DROPPED],
        "1 carried 1 3\n2 dropped\n3 live\n4 waiting\n5 dropped\nmaintenance none\n",
    ),
];

/// The exchange of that day.
fn gone_on(alloc: Global) -> Option<Exchange> {
    let mut exchange = exchange_of(alloc, &ROWS)?;
    goes_through(&mut exchange, &STEPS);
    Some(exchange)
}

#[test]
fn what_was_given_up_is_told_so(rt: HostRuntime) -> Result<(), Fail> {
    let exchange = gone_on(rt.alloc()).ok_or("opening")?;
    for (name, given_up, text) in &CASES {
        assert!(rt; tells_of(rt.alloc(), &exchange, given_up, text), "{name}");
    }
    Ok(())
}
