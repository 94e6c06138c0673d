//! A live day with an office beside it that sells nothing below a rate of each started minute.

use crate::offices::{
    AMENDED_ROWS, KEYED, QUIET, ROWS, Ran, SOLD_BEFORE, SOLD_SO, TAG, client, is_told_so, opened,
    ran_after, ran_with,
};
use bx_base::ChannelSet;
use bx_calendar::Day;
use bx_office_door::SharedDoor;
use bx_office_world::Opened;
use bx_sales::none_given_up;
use bx_worked_days::{Row, exchange_of};
use std::alloc::Global;
use std::test::Fail;

/// What an office is opened with at this rate, on a day of 600 seconds.
fn opened_at(rate: u32) -> Option<Opened> {
    Some(Opened {
        channels: ChannelSet::from_numbers(&[1, 2, 3]).ok()?,
        day: Day::new("2026-01-05", "UTC0").ok()?,
        last: 600,
        rate,
        clock: None,
    })
}

/// Runs a day of these bookings for four seconds, with an office at this rate.
fn ran_at(alloc: Global, door: &SharedDoor, rows: &[Row], rate: u32) -> Option<Ran> {
    let (Some(opened), Some(exchange)) = (opened_at(rate), exchange_of(alloc, rows)) else {
        return None;
    };
    ran_with(alloc, door, &opened, exchange, QUIET)
}

/// One of two started minutes that pays 6, one that pays 5, and one that starts after the day.
const BATCH: &str =
    "Content-Type: text/csv\r\nContent-Length: 168\r\n\r\nstart,end,number,pay\n2026-01-05T00:01:40Z,2026-01-05T00:02:41Z,1234,6\n2026-01-05T00:05:00Z,2026-01-05T00:06:01Z,1234,5\n2026-01-05T00:10:01Z,2026-01-05T00:11:00Z,1234,9\n";

/// The same under a key.
const KEYED_BATCH: &str =
    "Idempotency-Key: a-1\r\nContent-Type: text/csv\r\nContent-Length: 168\r\n\r\nstart,end,number,pay\n2026-01-05T00:01:40Z,2026-01-05T00:02:41Z,1234,6\n2026-01-05T00:05:00Z,2026-01-05T00:06:01Z,1234,5\n2026-01-05T00:10:01Z,2026-01-05T00:11:00Z,1234,9\n";

/// A batch at a rate: its name, the rate, how many are sold, and what its customer is told.
type Rated = (&'static str, u32, u32, &'static str);

static RATED: [Rated; 3] = [
    (
        "the first at the rate",
        3,
        1,
        "\r\n\r\nrow,answer,plan row,reason\n1,accepted,3,\n2,refused,,BelowRate\n3,refused,,AfterTheDay\n",
    ),
    (
        "a rate more",
        4,
        0,
        "\r\n\r\nrow,answer,plan row,reason\n1,refused,,BelowRate\n2,refused,,BelowRate\n3,refused,,AfterTheDay\n",
    ),
    (
        "without a rate",
        0,
        2,
        "\r\n\r\nrow,answer,plan row,reason\n1,accepted,3,\n2,accepted,4,\n3,refused,,AfterTheDay\n",
    ),
];

#[test]
fn a_batch_is_sold_from_the_rate_on(rt: HostRuntime) -> Result<(), Fail> {
    let alloc = rt.alloc();
    for case in &RATED {
        let (door, port) = opened(&rt, alloc)?;
        let mut customer = client(&rt, alloc, port, "POST /bookings", BATCH)?;
        let ran = Some((2 + case.2 as usize, case.2, case.2));
        assert!(rt; ran_at(alloc, &door, &ROWS, case.1) == ran, "{}", case.0);
        assert!(rt;
            is_told_so(&mut customer, "HTTP/1.1 200 OK\r\n", case.3),
            "{}",
            case.0
        );
    }
    Ok(())
}

#[test]
fn what_was_told_at_a_rate_is_told_again(rt: HostRuntime) -> Result<(), Fail> {
    let alloc = rt.alloc();
    for case in &RATED {
        let (door, port) = opened(&rt, alloc)?;
        let mut customer = client(&rt, alloc, port, "POST /bookings", KEYED_BATCH)?;
        let mut again = client(&rt, alloc, port, "POST /bookings", KEYED_BATCH)?;
        let ran = Some((2 + case.2 as usize, case.2, case.2));
        assert!(rt; ran_at(alloc, &door, &ROWS, case.1) == ran, "{}", case.0);
        assert!(rt;
            is_told_so(&mut customer, "HTTP/1.1 200 OK\r\n", case.3),
            "{}",
            case.0
        );
        assert!(rt;
            is_told_so(&mut again, "HTTP/1.1 200 OK\r\n", case.3),
            "{} again",
            case.0
        );
    }
    Ok(())
}

#[test]
fn what_was_sold_before_a_start_is_told_at_a_higher_rate(rt: HostRuntime) -> Result<(), Fail> {
    let alloc = rt.alloc();
    let (door, port) = opened(&rt, alloc)?;
    let mut again = client(&rt, alloc, port, "POST /bookings", KEYED)?;
    let (Some(opened), Some(exchange)) = (opened_at(1000), exchange_of(alloc, &SOLD_BEFORE)) else {
        return Err(Fail::from("no exchange"));
    };
    let tags = [Some(TAG), Some(TAG)];
    let none = none_given_up(alloc)?;
    assert!(rt;
        ran_after(alloc, &door, &opened, exchange, &tags, none, QUIET) == Some((4, 0, 0)),
        "nothing more is sold"
    );
    assert!(rt;
        is_told_so(&mut again, "HTTP/1.1 200 OK\r\n", SOLD_SO),
        "told again"
    );
    Ok(())
}

/// What is asked for at a rate of 6: the name of the case, the line of the request and its rest, how many lines are logged, how the answer begins,
/// and how it ends.
type Asked = (
    &'static str,
    &'static str,
    &'static str,
    u32,
    &'static str,
    &'static str,
);

static ASKED: [Asked; 5] = [
    (
        "a booking changed to the rate",
        "PUT /bookings/4",
        "Content-Type: text/csv\r\nContent-Length: 70\r\n\r\nstart,end,number,pay\n2026-01-05T00:05:00Z,2026-01-05T00:06:00Z,1234,6\n",
        1,
        "HTTP/1.1 200 OK\r\n",
        "\r\n\r\nrow,answer,plan row,reason\n1,changed,4,\n",
    ),
    (
        "a booking changed below the rate",
        "PUT /bookings/4",
        "Content-Type: text/csv\r\nContent-Length: 70\r\n\r\nstart,end,number,pay\n2026-01-05T00:05:00Z,2026-01-05T00:06:01Z,1234,6\n",
        0,
        "HTTP/1.1 409 Conflict\r\n",
        "\r\n\r\nBelowRate\n",
    ),
    (
        "a booking changed below the rate that begins after the day then",
        "PUT /bookings/4",
        "Content-Type: text/csv\r\nContent-Length: 70\r\n\r\nstart,end,number,pay\n2026-01-05T00:10:01Z,2026-01-05T00:11:01Z,1234,5\n",
        0,
        "HTTP/1.1 409 Conflict\r\n",
        "\r\n\r\nAfterTheDay\n",
    ),
    (
        "a quote",
        "GET /quote?start=2026-01-05T00:05:00Z&end=2026-01-05T00:06:01Z",
        "\r\n",
        0,
        "HTTP/1.1 200 OK\r\n",
        "\r\n\r\nits seconds cost 0\ntaken above 11\ninstead of none\nbesides none\n",
    ),
    (
        "a booking cancelled",
        "DELETE /bookings/4",
        "\r\n",
        1,
        "HTTP/1.1 200 OK\r\n",
        "\r\n\r\nrow,answer,plan row,reason\n1,cancelled,4,\n",
    ),
];

#[test]
fn changes_and_quotes_know_the_rate(rt: HostRuntime) -> Result<(), Fail> {
    let alloc = rt.alloc();
    for case in &ASKED {
        let (door, port) = opened(&rt, alloc)?;
        let mut customer = client(&rt, alloc, port, case.1, case.2)?;
        assert!(rt;
            ran_at(alloc, &door, &AMENDED_ROWS, 6) == Some((5, case.3, case.3)),
            "{}",
            case.0
        );
        assert!(rt; is_told_so(&mut customer, case.4, case.5), "{}", case.0);
    }
    Ok(())
}
