//! A live day with an office beside it, over sockets of this machine and in one thread.

use crate::quiet_world::QuietWorld;
use bx_base::ChannelSet;
use bx_calendar::Day;
use bx_day::{Exchange, GivenUp};
use bx_events::Amendment;
use bx_live::Begin;
use bx_market::run_market;
use bx_office::Address;
use bx_office_door::{Door, Entrance, Listening, SharedDoor};
use bx_office_world::{Ledger, Office, OfficeWorld, Opened};
use bx_sales::{Tag, none_given_up, note};
use bx_worked_days::{Row, exchange_of};
use std::alloc::Global;
use std::io;
use std::io::{Read, Write};
use std::net::{Net, TcpListener, TcpStream};
use std::test::Fail;
use std::time::Duration;

/// One booking is promised on each of the channels 1 and 2.
pub(crate) static ROWS: [Row; 2] = [(100, 200, 1, false), (100, 200, 2, false)];

/// A door at a port that the system has chosen, and the port.
pub(crate) fn opened<H: Net<Listener = TcpListener, Stream = TcpStream>>(
    rt: &H,
    alloc: Global,
) -> io::Result<(SharedDoor, u16)> {
    let listener = TcpListener::bind(rt, "127.0.0.1:0")?;
    listener.set_nonblocking(true)?;
    let port = listener.local_addr()?.port();
    let office = Entrance {
        address: Address::Port(port),
        listening: Listening::Port(listener),
    };
    let door = Door::new(alloc, office, None, 0);
    match SharedDoor::new(alloc, door) {
        Ok(door) => Ok((door, port)),
        Err(_) => Err(io::Error::from(io::ErrorKind::OutOfMemory)),
    }
}

/// A client that has sent a head with this line, these fields and this body.
pub(crate) fn client<H: Net<Listener = TcpListener, Stream = TcpStream>>(
    rt: &H,
    alloc: Global,
    port: u16,
    line: &str,
    rest: &str,
) -> Result<TcpStream, Fail> {
    let mut stream = TcpStream::connect(rt, ("127.0.0.1", port))?;
    stream.set_read_timeout(Some(Duration::from_millis(100)))?;
    let text = format!(in alloc; "{line} HTTP/1.1\r\nHost: localhost:{port}\r\n{rest}")?;
    stream.write_all(text.as_bytes())?;
    Ok(stream)
}

/// Whether a client gets an answer that begins and ends so.
pub(crate) fn is_told_so(stream: &mut TcpStream, prefix: &str, back: &str) -> bool {
    let mut room = [0u8; 4096];
    match stream.read(&mut room) {
        Ok(count) if count <= 4096 => {
            let text = &room[..count];
            text.starts_with(prefix.as_bytes()) && text.ends_with(back.as_bytes())
        }
        _ => false,
    }
}

/// How an answer begins, up to the second of its date, and how many octets the rest of the date has.
const BEGINS: &str = "HTTP/1.1 200 OK\r\ndate: Thu, 01 Jan 1970 00:00:";

const DATE_ENDS: usize = 8;

/// Whether a client gets an answer with just this after its date, which is in the first minute.
fn is_told(stream: &mut TcpStream, expected: &str) -> bool {
    let mut room = [0u8; 4096];
    match stream.read(&mut room) {
        Ok(count) if count <= 4096 && count >= BEGINS.len() + DATE_ENDS => {
            let text = &room[..count];
            text.starts_with(BEGINS.as_bytes())
                && &text[BEGINS.len() + DATE_ENDS..] == expected.as_bytes()
        }
        _ => false,
    }
}

/// Whether a client gets this somewhere.
pub(crate) fn is_told_of(stream: &mut TcpStream, words: &str) -> bool {
    let mut room = [0u8; 4096];
    match stream.read(&mut room) {
        Ok(count) if count <= 4096 => room[..count]
            .windows(words.len().max(1))
            .any(|part| part == words.as_bytes()),
        _ => false,
    }
}

/// Whether a client is sent away.
fn is_sent_away(stream: &mut TcpStream) -> bool {
    let mut room = [0u8; 16];
    matches!(stream.read(&mut room), Ok(0))
}

/// How a day goes: for some seconds, each of which lasts so many for the clients, how they begin, and whether a call is cleared once by the far end.
#[derive(Clone, Copy)]
pub(crate) struct Run {
    seconds: u32,
    pace: u32,
    begin: Begin,
    is_cleared: bool,
}

/// Four seconds without a link.
pub(crate) const QUIET: Run = Run {
    seconds: 4,
    pace: 1,
    begin: Begin::Alone,
    is_cleared: false,
};

/// Seconds without a link, up to this one.
pub(crate) const fn until(seconds: u32) -> Run {
    Run {
        seconds,
        pace: 1,
        begin: Begin::Alone,
        is_cleared: false,
    }
}

/// What has become of a run: how many bookings the day has, and how many were sold in the journal and on the disk.
pub(crate) type Ran = (usize, u32, u32);

/// Runs a day with an office at this door, which was opened with this.
pub(crate) fn ran_with<'a>(
    alloc: Global,
    door: &SharedDoor,
    opened: &'a Opened,
    exchange: Exchange,
    run: Run,
) -> Option<Ran> {
    let given_up = none_given_up(alloc).ok()?;
    ran_after(alloc, door, opened, exchange, &[], given_up, run)
}

/// The same, where the last bookings of the day were sold before, under these keys, and these rows were given up.
pub(crate) fn ran_after<'a>(
    alloc: Global,
    door: &SharedDoor,
    opened: &'a Opened,
    mut exchange: Exchange,
    tags: &[Option<Tag>],
    given_up: Vec<Option<GivenUp>>,
    run: Run,
) -> Option<Ran> {
    let ledger = Ledger::of(alloc, &exchange, tags);
    let mut quiet = QuietWorld::new(door.clone().ok()?, run.pace);
    quiet.begin = run.begin;
    quiet.is_cleared = run.is_cleared;
    let mut world = OfficeWorld {
        world: quiet,
        office: Office::new(alloc, door.clone().ok()?, opened, ledger, given_up),
    };
    run_market(
        alloc,
        &mut exchange,
        &mut world,
        opened.channels,
        run.seconds,
    )
    .ok()?;
    Some((
        exchange.entries().len(),
        world.world.sold,
        world.world.synced,
    ))
}

/// Runs a day on channels 1, 2 and 3 with an office at this door.
fn ran(alloc: Global, door: &SharedDoor, run: Run) -> Option<Ran> {
    ran_on(alloc, door, &ROWS, run)
}

/// The same of a day of these bookings.
fn ran_on(alloc: Global, door: &SharedDoor, rows: &[Row], run: Run) -> Option<Ran> {
    let opened = Opened {
        channels: ChannelSet::from_numbers(&[1, 2, 3]).ok()?,
        day: Day::new("2026-01-05", "UTC0").ok()?,
        last: 600,
        rate: 0,
        clock: None,
    };
    let exchange = exchange_of(alloc, rows)?;
    ran_with(alloc, door, &opened, exchange, run)
}

/// Two bookings for which there is one channel, of which the first pays more, and one that starts later.
const BATCH: &str =
    "Content-Type: text/csv\r\nContent-Length: 168\r\n\r\nstart,end,number,pay\n2026-01-05T00:01:40Z,2026-01-05T00:02:00Z,1234,9\n2026-01-05T00:01:40Z,2026-01-05T00:02:00Z,1234,5\n2026-01-05T00:10:00Z,2026-01-05T00:11:00Z,1234,5\n";

/// The same from a page of another origin.
const FOREIGN: &str =
    "Origin: http://example.org\r\nContent-Type: text/csv\r\nContent-Length: 168\r\n\r\nstart,end,number,pay\n2026-01-05T00:01:40Z,2026-01-05T00:02:00Z,1234,9\n2026-01-05T00:01:40Z,2026-01-05T00:02:00Z,1234,5\n2026-01-05T00:10:00Z,2026-01-05T00:11:00Z,1234,5\n";

/// What who sent them is told.
const SOLD: &str =
    "content-type: text/csv; charset=utf-8\r\ncache-control: no-store\r\nx-content-type-options: nosniff\r\ncross-origin-resource-policy: same-origin\r\ncontent-security-policy: default-src 'none'; script-src 'self'; style-src 'self'; img-src 'self'; connect-src 'self'; base-uri 'none'; form-action 'none'; frame-ancestors 'none'\r\nvary: origin\r\ncontent-length: 76\r\n\r\nrow,answer,plan row,reason\n1,accepted,3,\n2,refused,,NoChannel\n3,accepted,4,\n";

/// What who asks for the outcomes is told.
const OUTCOMES: &str =
    "content-type: text/plain; charset=utf-8\r\ncache-control: no-store\r\nx-content-type-options: nosniff\r\ncross-origin-resource-policy: same-origin\r\ncontent-security-policy: default-src 'none'; script-src 'self'; style-src 'self'; img-src 'self'; connect-src 'self'; base-uri 'none'; form-action 'none'; frame-ancestors 'none'\r\nvary: origin\r\ncontent-length: 37\r\n\r\n1 waiting\n2 waiting\nmaintenance none\n";

#[test]
fn a_customer_is_sold_to_and_told(rt: HostRuntime) -> Result<(), Fail> {
    let alloc = rt.alloc();
    let (door, port) = opened(&rt, alloc)?;
    let mut customer = client(&rt, alloc, port, "POST /bookings", BATCH)?;
    assert!(rt; ran(alloc, &door, QUIET) == Some((4, 2, 2)), "sold");
    assert!(rt; is_told(&mut customer, SOLD), "told");
    Ok(())
}

/// The same batch under a key, in quotes and without, another one under it, and the same under another key.
pub(crate) const KEYED: &str =
    "Idempotency-Key: \"a-1\"\r\nContent-Type: text/csv\r\nContent-Length: 168\r\n\r\nstart,end,number,pay\n2026-01-05T00:01:40Z,2026-01-05T00:02:00Z,1234,9\n2026-01-05T00:01:40Z,2026-01-05T00:02:00Z,1234,5\n2026-01-05T00:10:00Z,2026-01-05T00:11:00Z,1234,5\n";

const KEYED_AGAIN: &str =
    "Content-Type: text/csv\r\nIdempotency-Key: a-1\r\nContent-Length: 168\r\n\r\nstart,end,number,pay\n2026-01-05T00:01:40Z,2026-01-05T00:02:00Z,1234,9\n2026-01-05T00:01:40Z,2026-01-05T00:02:00Z,1234,5\n2026-01-05T00:10:00Z,2026-01-05T00:11:00Z,1234,5\n";

const OTHER_BODY: &str =
    "Content-Type: text/csv\r\nIdempotency-Key: a-1\r\nContent-Length: 70\r\n\r\nstart,end,number,pay\n2026-01-05T00:10:00Z,2026-01-05T00:11:00Z,1234,5\n";

#[test]
fn under_a_key_it_is_sold_once(rt: HostRuntime) -> Result<(), Fail> {
    let alloc = rt.alloc();
    let (door, port) = opened(&rt, alloc)?;
    let mut customer = client(&rt, alloc, port, "POST /bookings", KEYED)?;
    let mut again = client(&rt, alloc, port, "POST /bookings", KEYED_AGAIN)?;
    let mut other = client(&rt, alloc, port, "POST /bookings", OTHER_BODY)?;
    assert!(rt; ran(alloc, &door, QUIET) == Some((4, 2, 2)), "sold once");
    assert!(rt; is_told(&mut customer, SOLD), "told");
    assert!(rt; is_told(&mut again, SOLD), "told the same again");
    assert!(rt;
        is_told_so(
            &mut other,
            "HTTP/1.1 422 Unprocessable Content\r\n",
            "\r\n\r\nunder this key other bookings were asked for\n"
        ),
        "other bookings"
    );
    Ok(())
}

/// The second and the third booking of the batch, as a day has them on which they were sold before.
pub(crate) static SOLD_BEFORE: [Row; 4] = [
    (100, 200, 1, false),
    (100, 200, 2, false),
    (100, 120, 3, false),
    (600, 660, 1, false),
];

/// The key, and the batch: the digits of their digests.
pub(crate) const TAG: Tag = Tag {
    key: *b"2f8fe63a6224321de5d0a24cf30067d3",
    body: *b"10d039e90c62ba828bf7e5702bb54c21",
};

/// What who asks again is told then: why the first was refused is not known any more.
pub(crate) const SOLD_SO: &str =
    "\r\n\r\nrow,answer,plan row,reason\n1,refused,,Memory\n2,accepted,3,\n3,accepted,4,\n";

#[test]
fn what_was_sold_under_a_key_before_a_start_is_told_again(rt: HostRuntime) -> Result<(), Fail> {
    let alloc = rt.alloc();
    let (door, port) = opened(&rt, alloc)?;
    let mut again = client(&rt, alloc, port, "POST /bookings", KEYED)?;
    let mut other = client(&rt, alloc, port, "POST /bookings", OTHER_BODY)?;
    let opened = Opened {
        channels: ChannelSet::from_numbers(&[1, 2, 3])?,
        day: Day::new("2026-01-05", "UTC0")?,
        last: 600,
        rate: 0,
        clock: None,
    };
    let Some(exchange) = exchange_of(alloc, &SOLD_BEFORE) else {
        return Err(Fail::from("no exchange"));
    };
    let tags = [Some(TAG), Some(TAG)];
    let none = none_given_up(alloc)?;
    assert!(rt;
        ran_after(alloc, &door, &opened, exchange, &tags, none, QUIET) == Some((4, 0, 0)),
        "nothing more is sold"
    );
    assert!(rt;
        is_told_so(&mut again, "HTTP/1.1 200 OK\r\n", SOLD_SO),
        "told again"
    );
    assert!(rt;
        is_told_so(
            &mut other,
            "HTTP/1.1 422 Unprocessable Content\r\n",
            "\r\n\r\nunder this key other bookings were asked for\n"
        ),
        "other bookings"
    );
    Ok(())
}

/// One of two seconds, one that starts in the last second of the day, and one that starts after it.
const ON_THE_EDGE: &str =
    "Content-Type: text/csv\r\nContent-Length: 168\r\n\r\nstart,end,number,pay\n2026-01-05T00:01:40Z,2026-01-05T00:01:42Z,1234,5\n2026-01-05T00:10:00Z,2026-01-05T00:11:00Z,1234,5\n2026-01-05T00:10:01Z,2026-01-05T00:11:00Z,1234,9\n";

#[test]
fn what_is_short_or_after_the_day_is_told(rt: HostRuntime) -> Result<(), Fail> {
    let alloc = rt.alloc();
    let (door, port) = opened(&rt, alloc)?;
    let mut customer = client(&rt, alloc, port, "POST /bookings", ON_THE_EDGE)?;
    assert!(rt; ran(alloc, &door, QUIET) == Some((4, 2, 2)), "sold");
    assert!(rt;
        is_told_so(
            &mut customer,
            "HTTP/1.1 200 OK\r\ndate: Thu, 01 Jan 1970 00:00:01 GMT\r\ncontent-type: text/csv; charset=utf-8\r\n",
            "\r\n\r\nrow,answer,plan row,reason\n1,accepted,3,TooShort\n2,accepted,4,\n3,refused,,AfterTheDay\n"
        ),
        "told"
    );
    Ok(())
}

#[test]
fn who_has_hung_up_is_not_sold_to(rt: HostRuntime) -> Result<(), Fail> {
    let alloc = rt.alloc();
    let (door, port) = opened(&rt, alloc)?;
    let customer = client(&rt, alloc, port, "POST /bookings", BATCH)?;
    drop(customer);
    let mut another = client(&rt, alloc, port, "GET /healthz", "\r\n")?;
    assert!(rt;
        ran(alloc, &door, QUIET) == Some((2, 0, 0)),
        "nothing is sold"
    );
    assert!(rt;
        is_told_so(
            &mut another,
            "HTTP/1.1 200 OK\r\ndate: Thu, 01 Jan 1970 00:00:01 GMT\r\ncontent-type: text/plain",
            "\r\n\r\nin time\nlink none\nlate seconds 0\nchannels in maintenance 0\n"
        ),
        "told its own"
    );
    Ok(())
}

#[test]
fn sixteen_are_told(rt: HostRuntime) -> Result<(), Fail> {
    let alloc = rt.alloc();
    let (door, port) = opened(&rt, alloc)?;
    let mut clients = Vec::new(alloc);
    for _client in 0..16u32 {
        clients.push(client(&rt, alloc, port, "GET /outcomes", "\r\n")?)?;
    }
    assert!(rt;
        ran(alloc, &door, QUIET) == Some((2, 0, 0)),
        "nothing is sold"
    );
    let mut told = 0u32;
    for stream in &mut clients {
        if is_told(stream, OUTCOMES) && told < 16 {
            told += 1;
        }
    }
    assert!(rt; told == 16, "{told}");
    Ok(())
}

#[test]
fn one_long_answer_is_given_a_second_of_a_full_day(rt: HostRuntime) -> Result<(), Fail> {
    let alloc = rt.alloc();
    let (door, port) = opened(&rt, alloc)?;
    let rows = vec![in alloc; (100, 200, 0, false); 4_001]?;
    let mut first = client(&rt, alloc, port, "GET /plan", "\r\n")?;
    let mut second = client(&rt, alloc, port, "GET /chart.svg", "\r\n")?;
    let mut third = client(&rt, alloc, port, "GET /outcomes", "\r\n")?;
    assert!(rt;
        ran_on(alloc, &door, &rows, QUIET) == Some((4_001, 0, 0)),
        "nothing is sold"
    );
    assert!(rt;
        is_told_of(
            &mut first,
            "date: Thu, 01 Jan 1970 00:00:01 GMT\r\ncontent-type: text/plain"
        ),
        "in the first second"
    );
    assert!(rt;
        is_told_of(
            &mut second,
            "date: Thu, 01 Jan 1970 00:00:02 GMT\r\ncontent-type: image/svg+xml"
        ),
        "in the second one"
    );
    assert!(rt;
        is_told_of(
            &mut third,
            "date: Thu, 01 Jan 1970 00:00:03 GMT\r\ncontent-type: text/plain"
        ),
        "in the third one"
    );
    Ok(())
}

#[test]
fn free_times_are_told_to_who_asks(rt: HostRuntime) -> Result<(), Fail> {
    let alloc = rt.alloc();
    let (door, port) = opened(&rt, alloc)?;
    let mut asking = client(&rt, alloc, port, "GET /free?length=60", "\r\n")?;
    let mut another = client(&rt, alloc, port, "GET /free", "\r\n")?;
    assert!(rt;
        ran(alloc, &door, QUIET) == Some((2, 0, 0)),
        "nothing is sold"
    );
    assert!(rt;
        is_told_so(
            &mut asking,
            "HTTP/1.1 200 OK\r\ndate: Thu, 01 Jan 1970 00:00:01 GMT\r\ncontent-type: text/csv; charset=utf-8\r\n",
            "\r\n\r\nfrom,until\n2,600\n"
        ),
        "told"
    );
    assert!(rt;
        is_told_so(
            &mut another,
            "HTTP/1.1 400 Bad Request\r\ndate: Thu, 01 Jan 1970 00:00:01 GMT\r\ncontent-type: text/plain",
            "\r\n\r\nno length of 1 to 200000 seconds\n"
        ),
        "no length"
    );
    Ok(())
}

#[test]
fn a_slow_one_delays_nobody(rt: HostRuntime) -> Result<(), Fail> {
    let alloc = rt.alloc();
    let (door, port) = opened(&rt, alloc)?;
    let mut slow = client(&rt, alloc, port, "GET /plan", "")?;
    let mut quick = client(&rt, alloc, port, "GET /outcomes", "\r\n")?;
    assert!(rt;
        ran(alloc, &door, Run { pace: 11, ..QUIET }) == Some((2, 0, 0)),
        "nothing is sold"
    );
    assert!(rt; is_told(&mut quick, OUTCOMES), "told");
    assert!(rt; is_sent_away(&mut slow), "sent away");
    Ok(())
}

#[test]
fn a_hostile_page_buys_nothing(rt: HostRuntime) -> Result<(), Fail> {
    let alloc = rt.alloc();
    let (door, port) = opened(&rt, alloc)?;
    let mut page = client(&rt, alloc, port, "POST /bookings", FOREIGN)?;
    let mut noise = client(&rt, alloc, port, "start,end,number,pay", "\r\n")?;
    assert!(rt;
        ran(alloc, &door, QUIET) == Some((2, 0, 0)),
        "nothing is sold"
    );
    assert!(rt;
        is_told_so(
            &mut page,
            "HTTP/1.1 403 Forbidden\r\n",
            "\r\n\r\nanother origin\n"
        ),
        "refused"
    );
    assert!(rt;
        is_told_so(
            &mut noise,
            "HTTP/1.1 400 Bad Request\r\n",
            "\r\n\r\nno request of HTTP/1.1\n"
        ),
        "no request"
    );
    Ok(())
}

#[test]
fn faults_of_bookings_are_told(rt: HostRuntime) -> Result<(), Fail> {
    let alloc = rt.alloc();
    let (door, port) = opened(&rt, alloc)?;
    let mut customer = client(
        &rt,
        alloc,
        port,
        "POST /bookings",
        "Content-Type: text/csv\r\nContent-Length: 22\r\n\r\nstart,end,number,pay\nx",
    )?;
    assert!(rt;
        ran(alloc, &door, QUIET) == Some((2, 0, 0)),
        "nothing is sold"
    );
    assert!(rt;
        is_told_so(
            &mut customer,
            "HTTP/1.1 400 Bad Request\r\n",
            "\r\n\r\nB2 WrongColumns 1\n"
        ),
        "told"
    );
    Ok(())
}

#[test]
fn a_quote_without_its_end_is_told(rt: HostRuntime) -> Result<(), Fail> {
    let alloc = rt.alloc();
    let (door, port) = opened(&rt, alloc)?;
    let mut asking = client(
        &rt,
        alloc,
        port,
        "GET /quote?start=2026-01-05T00:00:10Z",
        "\r\n",
    )?;
    assert!(rt;
        ran(alloc, &door, QUIET) == Some((2, 0, 0)),
        "nothing is sold"
    );
    assert!(rt;
        is_told_so(
            &mut asking,
            "HTTP/1.1 400 Bad Request\r\n",
            "\r\n\r\nno start or no end\n"
        ),
        "told"
    );
    Ok(())
}

#[test]
fn a_late_second_is_told(rt: HostRuntime) -> Result<(), Fail> {
    let alloc = rt.alloc();
    let (door, port) = opened(&rt, alloc)?;
    let mut asking = client(&rt, alloc, port, "GET /healthz", "\r\n")?;
    let late = Run {
        begin: Begin::Late,
        ..QUIET
    };
    assert!(rt;
        ran(alloc, &door, late) == Some((2, 0, 0)),
        "nothing is sold"
    );
    assert!(rt;
        is_told_so(
            &mut asking,
            "HTTP/1.1 503 Service Unavailable\r\n",
            "\r\n\r\nlate\nlink none\nlate seconds 1\nchannels in maintenance 0\n"
        ),
        "late"
    );
    Ok(())
}

#[test]
fn a_cause_is_counted(rt: HostRuntime) -> Result<(), Fail> {
    let alloc = rt.alloc();
    let (door, port) = opened(&rt, alloc)?;
    let mut asking = client(&rt, alloc, port, "GET /metrics", "\r\n")?;
    let joined = Run {
        begin: Begin::Joined,
        is_cleared: true,
        ..QUIET
    };
    assert!(rt;
        ran(alloc, &door, joined) == Some((2, 0, 0)),
        "nothing is sold"
    );
    assert!(rt;
        is_told_of(&mut asking, "\nbx_clearings_received{cause=\"17\"} 1\n"),
        "counted"
    );
    Ok(())
}

#[test]
fn a_picture_is_drawn(rt: HostRuntime) -> Result<(), Fail> {
    let alloc = rt.alloc();
    let (door, port) = opened(&rt, alloc)?;
    let mut asking = client(&rt, alloc, port, "GET /chart.svg", "\r\n")?;
    assert!(rt;
        ran(alloc, &door, QUIET) == Some((2, 0, 0)),
        "nothing is sold"
    );
    assert!(rt;
        is_told_so(
            &mut asking,
            "HTTP/1.1 200 OK\r\ndate: Thu, 01 Jan 1970 00:00:01 GMT\r\ncontent-type: image/svg+xml\r\n",
            ""
        ),
        "a picture"
    );
    Ok(())
}

#[test]
fn an_outage_is_drawn(rt: HostRuntime) -> Result<(), Fail> {
    let alloc = rt.alloc();
    for (begin, words) in [
        (Begin::Alone, "outages of the link: 1</text>"),
        (Begin::Joined, "outages of the link: 0</text>"),
    ] {
        let (door, port) = opened(&rt, alloc)?;
        let mut asking = client(&rt, alloc, port, "GET /chart.svg", "\r\n")?;
        let run = Run { begin, ..QUIET };
        assert!(rt;
            ran(alloc, &door, run) == Some((2, 0, 0)),
            "nothing is sold"
        );
        assert!(rt; is_told_of(&mut asking, words), "{words}");
    }
    Ok(())
}

/// What is counted of a batch of which two bookings are sold, and of its answer.
const COUNTED: &str =
    "\nbx_answers 1\n# TYPE bx_bookings_sold gauge\n# HELP bx_bookings_sold Bookings that were sold.\nbx_bookings_sold 2\n";

#[test]
fn what_was_sold_and_answered_is_counted(rt: HostRuntime) -> Result<(), Fail> {
    let alloc = rt.alloc();
    let (door, port) = opened(&rt, alloc)?;
    let _customer = client(&rt, alloc, port, "POST /bookings", BATCH)?;
    let mut asking = client(&rt, alloc, port, "GET /metrics", "\r\n")?;
    assert!(rt; ran(alloc, &door, QUIET) == Some((4, 2, 2)), "sold");
    assert!(rt; is_told_of(&mut asking, COUNTED), "counted");
    Ok(())
}

/// Whether a call could be carried: the name of the case, how the seconds begin, the last second of the day, the channels in service, how the
/// answer begins, and how it ends.
type Ready = (
    &'static str,
    Begin,
    u32,
    &'static [u8],
    &'static str,
    &'static str,
);

static READY: [Ready; 5] = [
    (
        "ready",
        Begin::Joined,
        600,
        &[1, 2, 3],
        "HTTP/1.1 200 OK\r\n",
        "\r\n\r\nready\n",
    ),
    (
        "without a link",
        Begin::Alone,
        600,
        &[1, 2, 3],
        "HTTP/1.1 503 Service Unavailable\r\n",
        "\r\nretry-after: 1\r\ncontent-length: 8\r\n\r\nno link\n",
    ),
    (
        "late",
        Begin::Late,
        600,
        &[1, 2, 3],
        "HTTP/1.1 503 Service Unavailable\r\n",
        "\r\n\r\nno link\n",
    ),
    (
        "without a channel",
        Begin::Joined,
        600,
        &[],
        "HTTP/1.1 503 Service Unavailable\r\n",
        "\r\n\r\nno channel\n",
    ),
    (
        "in the last second",
        Begin::Joined,
        1,
        &[1, 2, 3],
        "HTTP/1.1 503 Service Unavailable\r\n",
        "\r\n\r\nthe day is over\n",
    ),
];

/// Runs a day of four seconds that begin so, with an office that is opened for channels until a last second.
fn ran_until(alloc: Global, door: &SharedDoor, ready: &Ready) -> Option<Ran> {
    let opened = Opened {
        channels: ChannelSet::from_numbers(ready.3).ok()?,
        day: Day::new("2026-01-05", "UTC0").ok()?,
        last: ready.2,
        rate: 0,
        clock: None,
    };
    let run = Run {
        begin: ready.1,
        ..QUIET
    };
    ran_with(alloc, door, &opened, exchange_of(alloc, &ROWS)?, run)
}

#[test]
fn whether_a_call_could_be_carried_is_told(rt: HostRuntime) -> Result<(), Fail> {
    let alloc = rt.alloc();
    for ready in &READY {
        let (door, port) = opened(&rt, alloc)?;
        let mut asking = client(&rt, alloc, port, "GET /ready", "\r\n")?;
        assert!(rt; ran_until(alloc, &door, ready).is_some(), "{}", ready.0);
        assert!(rt; is_told_so(&mut asking, ready.4, ready.5), "{}", ready.0);
    }
    Ok(())
}

/// Three bookings at once, one later, and one that begins with the day.
pub(crate) static AMENDED_ROWS: [Row; 5] = [
    (100, 200, 1, false),
    (100, 200, 2, false),
    (100, 200, 3, false),
    (300, 400, 1, false),
    (0, 60, 1, false),
];

/// A change that is asked for: the name of the case, the line of the request and its rest, how many lines are logged, how the answer begins, and
/// how it ends.
type Amended = (
    &'static str,
    &'static str,
    &'static str,
    u32,
    &'static str,
    &'static str,
);

static AMENDED: [Amended; 12] = [
    (
        "a booking cancelled",
        "DELETE /bookings/1",
        "\r\n",
        1,
        "HTTP/1.1 200 OK\r\ndate: Thu, 01 Jan 1970 00:00:01 GMT\r\ncontent-type: text/csv; charset=utf-8\r\n",
        "\r\n\r\nrow,answer,plan row,reason\n1,cancelled,1,\n",
    ),
    (
        "the last row cancelled",
        "DELETE /bookings/4",
        "\r\n",
        1,
        "HTTP/1.1 200 OK\r\ndate: Thu, 01 Jan 1970 00:00:01 GMT\r\ncontent-type: text/csv; charset=utf-8\r\n",
        "\r\n\r\nrow,answer,plan row,reason\n1,cancelled,4,\n",
    ),
    (
        "a row cancelled that is none",
        "DELETE /bookings/6",
        "\r\n",
        0,
        "HTTP/1.1 404 Not Found\r\n",
        "\r\n\r\nNoBooking\n",
    ),
    (
        "a booking cancelled that has begun",
        "DELETE /bookings/5",
        "\r\n",
        0,
        "HTTP/1.1 409 Conflict\r\n",
        "\r\n\r\nLate\n",
    ),
    (
        "a booking changed",
        "PUT /bookings/4",
        "Content-Type: text/csv\r\nContent-Length: 70\r\n\r\nstart,end,number,pay\n2026-01-05T00:05:00Z,2026-01-05T00:06:00Z,1234,5\n",
        1,
        "HTTP/1.1 200 OK\r\ndate: Thu, 01 Jan 1970 00:00:01 GMT\r\ncontent-type: text/csv; charset=utf-8\r\n",
        "\r\n\r\nrow,answer,plan row,reason\n1,changed,4,\n",
    ),
    (
        "a row changed that is none",
        "PUT /bookings/6",
        "Content-Type: text/csv\r\nContent-Length: 70\r\n\r\nstart,end,number,pay\n2026-01-05T00:05:00Z,2026-01-05T00:06:00Z,1234,5\n",
        0,
        "HTTP/1.1 404 Not Found\r\n",
        "\r\n\r\nNoBooking\n",
    ),
    (
        "a booking changed that begins now then",
        "PUT /bookings/4",
        "Content-Type: text/csv\r\nContent-Length: 70\r\n\r\nstart,end,number,pay\n2026-01-05T00:00:00Z,2026-01-05T00:06:00Z,1234,5\n",
        0,
        "HTTP/1.1 409 Conflict\r\n",
        "\r\n\r\nLate\n",
    ),
    (
        "a booking changed for which there is no channel",
        "PUT /bookings/4",
        "Content-Type: text/csv\r\nContent-Length: 70\r\n\r\nstart,end,number,pay\n2026-01-05T00:02:00Z,2026-01-05T00:03:00Z,1234,5\n",
        0,
        "HTTP/1.1 409 Conflict\r\n",
        "\r\n\r\nNoChannel\n",
    ),
    (
        "a booking changed that begins after the day then",
        "PUT /bookings/4",
        "Content-Type: text/csv\r\nContent-Length: 70\r\n\r\nstart,end,number,pay\n2026-01-05T00:10:01Z,2026-01-05T00:11:00Z,1234,5\n",
        0,
        "HTTP/1.1 409 Conflict\r\n",
        "\r\n\r\nAfterTheDay\n",
    ),
    (
        "a booking changed into two",
        "PUT /bookings/4",
        "Content-Type: text/csv\r\nContent-Length: 119\r\n\r\nstart,end,number,pay\n2026-01-05T00:05:00Z,2026-01-05T00:06:00Z,1234,5\n2026-01-05T00:05:00Z,2026-01-05T00:06:00Z,1234,5\n",
        0,
        "HTTP/1.1 400 Bad Request\r\n",
        "\r\n\r\nnot one booking\n",
    ),
    (
        "a booking changed into none",
        "PUT /bookings/4",
        "Content-Type: text/csv\r\nContent-Length: 21\r\n\r\nstart,end,number,pay\n",
        0,
        "HTTP/1.1 400 Bad Request\r\n",
        "\r\n\r\nnot one booking\n",
    ),
    (
        "a booking changed with a fault",
        "PUT /bookings/4",
        "Content-Type: text/csv\r\nContent-Length: 22\r\n\r\nstart,end,number,pay\nx",
        0,
        "HTTP/1.1 400 Bad Request\r\n",
        "\r\n\r\nB2 WrongColumns 1\n",
    ),
];

/// Runs such a day for four seconds.
fn ran_amended(alloc: Global, door: &SharedDoor) -> Option<Ran> {
    let opened = Opened {
        channels: ChannelSet::from_numbers(&[1, 2, 3]).ok()?,
        day: Day::new("2026-01-05", "UTC0").ok()?,
        last: 600,
        rate: 0,
        clock: None,
    };
    let exchange = exchange_of(alloc, &AMENDED_ROWS)?;
    ran_with(alloc, door, &opened, exchange, QUIET)
}

#[test]
fn changes_are_made_and_told(rt: HostRuntime) -> Result<(), Fail> {
    let alloc = rt.alloc();
    for case in &AMENDED {
        let (door, port) = opened(&rt, alloc)?;
        let mut customer = client(&rt, alloc, port, case.1, case.2)?;
        assert!(rt;
            ran_amended(alloc, &door) == Some((5, case.3, case.3)),
            "{}",
            case.0
        );
        assert!(rt; is_told_so(&mut customer, case.4, case.5), "{}", case.0);
    }
    Ok(())
}

/// One booking, at a moment at which all channels are taken.
const ONE_MORE: &str =
    "Content-Type: text/csv\r\nContent-Length: 70\r\n\r\nstart,end,number,pay\n2026-01-05T00:01:40Z,2026-01-05T00:02:00Z,1234,5\n";

#[test]
fn what_is_given_up_is_sold_again(rt: HostRuntime) -> Result<(), Fail> {
    let alloc = rt.alloc();
    let (door, port) = opened(&rt, alloc)?;
    let mut before = client(&rt, alloc, port, "POST /bookings", ONE_MORE)?;
    let mut cancelling = client(&rt, alloc, port, "DELETE /bookings/2", "\r\n")?;
    let mut again = client(&rt, alloc, port, "DELETE /bookings/2", "\r\n")?;
    let mut after = client(&rt, alloc, port, "POST /bookings", ONE_MORE)?;
    assert!(rt; ran_amended(alloc, &door) == Some((6, 2, 2)), "logged");
    assert!(rt;
        is_told_so(
            &mut before,
            "HTTP/1.1 200 OK\r\n",
            "\n1,refused,,NoChannel\n"
        ),
        "before"
    );
    assert!(rt;
        is_told_so(&mut cancelling, "HTTP/1.1 200 OK\r\n", "\n1,cancelled,2,\n"),
        "cancelled"
    );
    assert!(rt;
        is_told_so(
            &mut again,
            "HTTP/1.1 404 Not Found\r\n",
            "\r\n\r\nNoBooking\n"
        ),
        "cancelled again"
    );
    assert!(rt;
        is_told_so(&mut after, "HTTP/1.1 200 OK\r\n", "\n1,accepted,6,\n"),
        "after"
    );
    Ok(())
}

#[test]
fn what_is_given_up_is_told_of_the_day(rt: HostRuntime) -> Result<(), Fail> {
    let alloc = rt.alloc();
    let (door, port) = opened(&rt, alloc)?;
    let _customer = client(&rt, alloc, port, "POST /bookings", ONE_MORE)?;
    let mut before = client(&rt, alloc, port, "GET /outcomes", "\r\n")?;
    let _cancelling = client(&rt, alloc, port, "DELETE /bookings/3", "\r\n")?;
    let _another = client(&rt, alloc, port, "DELETE /bookings/1", "\r\n")?;
    let mut after = client(&rt, alloc, port, "GET /outcomes", "\r\n")?;
    assert!(rt; ran(alloc, &door, QUIET) == Some((3, 3, 3)), "logged");
    assert!(rt;
        is_told_so(
            &mut before,
            "HTTP/1.1 200 OK\r\n",
            "\r\n\r\n1 waiting\n2 waiting\n3 waiting\nmaintenance none\n"
        ),
        "before"
    );
    assert!(rt;
        is_told_so(
            &mut after,
            "HTTP/1.1 200 OK\r\n",
            "\r\n\r\n1 cancelled\n2 waiting\n3 cancelled\nmaintenance none\n"
        ),
        "after"
    );
    Ok(())
}

/// The plan accepts one booking; the others were given up, or were refused from the first.
static GIVEN_UP_BEFORE: [Row; 4] = [
    (100, 200, 0, false),
    (100, 200, 2, false),
    (100, 200, 0, false),
    (100, 200, 0, false),
];

#[test]
fn what_was_given_up_before_a_start_is_told_of_the_day(rt: HostRuntime) -> Result<(), Fail> {
    let alloc = rt.alloc();
    let (door, port) = opened(&rt, alloc)?;
    let mut asking = client(&rt, alloc, port, "GET /outcomes", "\r\n")?;
    let opened = Opened {
        channels: ChannelSet::from_numbers(&[1, 2, 3])?,
        day: Day::new("2026-01-05", "UTC0")?,
        last: 600,
        rate: 0,
        clock: None,
    };
    let Some(exchange) = exchange_of(alloc, &GIVEN_UP_BEFORE) else {
        return Err(Fail::from("no exchange"));
    };
    let mut given_up = none_given_up(alloc)?;
    note(&mut given_up, Amendment::Cancelled, b"1");
    note(&mut given_up, Amendment::Dropped, b"4");
    assert!(rt;
        ran_after(alloc, &door, &opened, exchange, &[], given_up, QUIET) == Some((4, 0, 0)),
        "nothing is sold"
    );
    assert!(rt;
        is_told_so(
            &mut asking,
            "HTTP/1.1 200 OK\r\n",
            "\r\n\r\n1 cancelled\n2 waiting\n3 refused\n4 dropped\nmaintenance none\n"
        ),
        "told"
    );
    Ok(())
}
