//! A live day with an office beside it, on which a channel is lost.

use crate::offices::{Ran, client, is_told_of, is_told_so, opened, ran_with, until};
use bx_base::ChannelSet;
use bx_calendar::Day;
use bx_cases::messages::CONNECT;
use bx_day::Exchange;
use bx_office_door::SharedDoor;
use bx_office_world::Opened;
use bx_worked_days::{Row, TICK, exchange_of, goes_through};
use std::alloc::Global;
use std::test::Fail;

/// Of the call of the first nothing more is heard. The second waits on its channel, and overlaps two that wait on another one; the last
/// waits on it too.
static ROWS: [Row; 5] = [
    (0, 60, 1, false),
    (150, 160, 1, false),
    (150, 155, 2, false),
    (155, 160, 2, false),
    (170, 180, 1, false),
];

/// The exchange when channel 1 has just been given up.
fn lost(alloc: Global) -> Option<Exchange> {
    let mut exchange = exchange_of(alloc, &ROWS)?;
    goes_through(&mut exchange, &[TICK, CONNECT]);
    for _second in 0..97u32 {
        let _sent = exchange.tick();
    }
    Some(exchange)
}

/// Runs that day on for four seconds, on the channels 1 and 2, with an office at this door.
fn ran_on(alloc: Global, door: &SharedDoor) -> Option<Ran> {
    let opened = Opened {
        channels: ChannelSet::from_numbers(&[1, 2]).ok()?,
        day: Day::new("2026-01-05", "UTC0").ok()?,
        last: 600,
        rate: 0,
        clock: None,
    };
    let exchange = lost(alloc)?;
    ran_with(alloc, door, &opened, exchange, until(102))
}

/// What is asked for: the name of the case, the line of the request and its rest, how many bookings the day has then, how many lines are
/// logged, and how the answer ends.
type Asked = (
    &'static str,
    &'static str,
    &'static str,
    usize,
    u32,
    &'static str,
);

static ASKED: [Asked; 5] = [
    (
        "the outcomes",
        "GET /outcomes",
        "\r\n",
        5,
        2,
        "\r\n\r\n1 carried 1 60\n2 dropped\n3 waiting\n4 waiting\n5 waiting\nmaintenance 1\n",
    ),
    (
        "a quote beside what was kept",
        "GET /quote?start=2026-01-05T00:02:30Z&end=2026-01-05T00:02:40Z",
        "\r\n",
        5,
        2,
        "\r\n\r\nQ1 NoChannel 150\n",
    ),
    (
        "a quote where the channel is free that is left",
        "GET /quote?start=2026-01-05T00:02:40Z&end=2026-01-05T00:02:50Z",
        "\r\n",
        5,
        2,
        "\r\n\r\nits seconds cost 0\ntaken above 0\ninstead of none\nbesides none\n",
    ),
    (
        "free times",
        "GET /free?length=10",
        "\r\n",
        5,
        2,
        "\r\n\r\nfrom,until\n100,140\n160,160\n180,600\n",
    ),
    (
        "bookings, of which one has no channel",
        "POST /bookings",
        "Content-Type: text/csv\r\nContent-Length: 119\r\n\r\nstart,end,number,pay\n2026-01-05T00:02:30Z,2026-01-05T00:02:40Z,1234,9\n2026-01-05T00:03:00Z,2026-01-05T00:03:10Z,1234,5\n",
        6,
        3,
        "\r\n\r\nrow,answer,plan row,reason\n1,refused,,NoChannel\n2,accepted,6,\n",
    ),
];

#[test]
fn who_asks_is_told_of_the_channels_that_are_left(rt: HostRuntime) -> Result<(), Fail> {
    let alloc = rt.alloc();
    for case in &ASKED {
        let (door, port) = opened(&rt, alloc)?;
        let mut customer = client(&rt, alloc, port, case.1, case.2)?;
        assert!(rt;
            ran_on(alloc, &door) == Some((case.3, case.4, case.4)),
            "{}",
            case.0
        );
        assert!(rt;
            is_told_so(&mut customer, "HTTP/1.1 200 OK\r\n", case.5),
            "{}",
            case.0
        );
    }
    Ok(())
}

#[test]
fn what_is_given_up_for_want_of_a_channel_is_counted(rt: HostRuntime) -> Result<(), Fail> {
    let alloc = rt.alloc();
    let (door, port) = opened(&rt, alloc)?;
    let mut monitor = client(&rt, alloc, port, "GET /metrics", "\r\n")?;
    assert!(rt; ran_on(alloc, &door) == Some((5, 2, 2)), "left");
    assert!(rt;
        is_told_of(&mut monitor, "\nbx_bookings_dropped 1\n"),
        "counted"
    );
    Ok(())
}
