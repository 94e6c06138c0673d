//! Clients at the door, over sockets of this machine and in one thread. The clock is what a test says.

use bx_office::{Address, Allowed, Kind, Reply, Route, Status};
use bx_office_door::{Door, Entrance, Listening};
use std::alloc::Global;
use std::fs::remove_file;
use std::io;
use std::io::{Read, Write};
use std::net::{Net, TcpListener, TcpStream};
use std::os::unix::net::{UnixListener, UnixStream};
use std::test::Fail;
use std::time::Duration;

/// A second, in nanoseconds.
const SECOND: u128 = 1_000_000_000;

/// Where clients come in, and its port.
fn entrance<H: Net<Listener = TcpListener, Stream = TcpStream>>(
    rt: &H,
) -> io::Result<(Entrance, u16)> {
    let listener = TcpListener::bind(rt, "127.0.0.1:0")?;
    listener.set_nonblocking(true)?;
    let port = listener.local_addr()?.port();
    let entrance = Entrance {
        address: Address::Port(port),
        listening: Listening::Port(listener),
    };
    Ok((entrance, port))
}

/// A door at a port that the system has chosen, and the port. Its day has begun.
fn opened<H: Net<Listener = TcpListener, Stream = TcpStream>>(
    rt: &H,
    alloc: Global,
) -> io::Result<(Door, u16)> {
    opened_until(rt, alloc, 0)
}

/// The same for a day that begins then.
fn opened_until<H: Net<Listener = TcpListener, Stream = TcpStream>>(
    rt: &H,
    alloc: Global,
    opens: u128,
) -> io::Result<(Door, u16)> {
    let (office, port) = entrance(rt)?;
    let door = Door::new(alloc, office, None, opens);
    Ok((door, port))
}

/// A door with a counter, and the ports of the two.
fn with_counter<H: Net<Listener = TcpListener, Stream = TcpStream>>(
    rt: &H,
    alloc: Global,
) -> io::Result<(Door, u16, u16)> {
    let (office, port) = entrance(rt)?;
    let (counter, counter_port) = entrance(rt)?;
    let door = Door::new(alloc, office, Some(counter), 0);
    Ok((door, port, counter_port))
}

/// A client that has sent this.
fn client<H: Net<Listener = TcpListener, Stream = TcpStream>>(
    rt: &H,
    port: u16,
    sent: &[u8],
) -> io::Result<TcpStream> {
    let mut stream = TcpStream::connect(rt, ("127.0.0.1", port))?;
    stream.set_read_timeout(Some(Duration::from_millis(100)))?;
    stream.write_all(sent)?;
    Ok(stream)
}

/// A request for this path of a door at this port.
fn request(alloc: Global, path: &str, port: u16) -> Result<Vec<u8>, Fail> {
    let text = format!(in alloc; "GET {path} HTTP/1.1\r\nHost: localhost:{port}\r\n\r\n")?;
    let mut octets = Vec::new(alloc);
    octets.extend_from_slice(text.as_bytes())?;
    Ok(octets)
}

/// Attends the door until the client has something or its end: whether what it has begins so. Where it is the end, it begins with nothing.
fn begins(door: &mut Door, stream: &mut TcpStream, now: u128, prefix: &[u8]) -> bool {
    let mut room = [0u8; 4096];
    for _turn in 0..50u32 {
        door.attend(now, false);
        match stream.read(&mut room) {
            Ok(count) => return count >= prefix.len() && &room[..prefix.len()] == prefix,
            Err(_) => {}
        }
    }
    false
}

/// Attends the door until somebody asks: what is asked for, which is answered.
fn asks(door: &mut Door, now: u128) -> Option<Route> {
    for _turn in 0..1000u32 {
        door.attend(now, false);
        if let Some((number, route)) = door.asked() {
            door.answer(
                number,
                Reply {
                    status: Status::Fine,
                    kind: Kind::Text,
                    allowed: Allowed::Unsaid,
                    body: b"a plan\n",
                },
            );
            return Some(route);
        }
    }
    None
}

#[test]
fn the_page_needs_nothing_of_the_day(rt: HostRuntime) -> Result<(), Fail> {
    let (mut door, port) = opened(&rt, rt.alloc())?;
    let sent = request(rt.alloc(), "/", port)?;
    let mut stream = client(&rt, port, &sent)?;
    assert!(rt;
        begins(
            &mut door,
            &mut stream,
            0,
            b"HTTP/1.1 200 OK\r\ndate: Thu, 01 Jan 1970 00:00:00 GMT\r\ncontent-type: text/html"
        ),
        "the page"
    );
    Ok(())
}

#[test]
fn a_request_waits_for_its_answer(rt: HostRuntime) -> Result<(), Fail> {
    let (mut door, port) = opened(&rt, rt.alloc())?;
    let sent = request(rt.alloc(), "/plan", port)?;
    let mut stream = client(&rt, port, &sent)?;
    assert!(rt; asks(&mut door, 0) == Some(Route::Plan), "asked");
    assert!(rt;
        begins(
            &mut door,
            &mut stream,
            20 * SECOND,
            b"HTTP/1.1 200 OK\r\ndate: Thu, 01 Jan 1970 00:00:00 GMT\r\ncontent-type: text/plain"
        ),
        "answered"
    );
    Ok(())
}

#[test]
fn a_slow_client_is_sent_away(rt: HostRuntime) -> Result<(), Fail> {
    let (mut door, port) = opened(&rt, rt.alloc())?;
    let mut slow = client(&rt, port, b"GET /plan HTTP/1.1\r\n")?;
    for _turn in 0..100u32 {
        door.attend(0, false);
    }
    let sent = request(rt.alloc(), "/", port)?;
    let mut quick = client(&rt, port, &sent)?;
    assert!(rt;
        begins(&mut door, &mut quick, 10 * SECOND, b"HTTP/1.1 200 OK"),
        "beside it"
    );
    assert!(rt; begins(&mut door, &mut slow, 11 * SECOND, b""), "sent away");
    Ok(())
}

#[test]
fn who_asks_again_at_the_last_moment_is_heard(rt: HostRuntime) -> Result<(), Fail> {
    let (mut door, port) = opened(&rt, rt.alloc())?;
    let sent = request(rt.alloc(), "/plan", port)?;
    let mut kept = client(&rt, port, &sent)?;
    assert!(rt; asks(&mut door, 0) == Some(Route::Plan), "asked");
    assert!(rt;
        begins(&mut door, &mut kept, SECOND, b"HTTP/1.1 200 OK"),
        "answered"
    );
    kept.write_all(&sent)?;
    assert!(rt;
        asks(&mut door, 12 * SECOND) == Some(Route::Plan),
        "asked again"
    );
    assert!(rt;
        begins(&mut door, &mut kept, 12 * SECOND, b"HTTP/1.1 200 OK"),
        "answered again"
    );
    assert!(rt; begins(&mut door, &mut kept, 23 * SECOND, b""), "sent away");
    Ok(())
}

#[test]
fn a_request_has_its_time_from_its_first_octet(rt: HostRuntime) -> Result<(), Fail> {
    let (mut door, port) = opened(&rt, rt.alloc())?;
    let rest = format!(in rt.alloc(); " HTTP/1.1\r\nHost: localhost:{port}\r\n\r\n")?;
    let mut late = client(&rt, port, b"")?;
    for _turn in 0..100u32 {
        door.attend(0, false);
    }
    late.write_all(b"GET /")?;
    for _turn in 0..100u32 {
        door.attend(9 * SECOND, false);
    }
    late.write_all(rest.as_bytes())?;
    assert!(rt;
        begins(&mut door, &mut late, 18 * SECOND, b"HTTP/1.1 200 OK"),
        "answered"
    );
    Ok(())
}

#[test]
fn a_body_that_comes_slowly_has_more_time(rt: HostRuntime) -> Result<(), Fail> {
    let (mut door, port) = opened(&rt, rt.alloc())?;
    let head = format!(in rt.alloc();
        "POST /bookings HTTP/1.1\r\nHost: localhost:{port}\r\nContent-Type: text/csv\r\nContent-Length: 50000\r\n\r\n"
    )?;
    let mut slow = client(&rt, port, head.as_bytes())?;
    for _piece in 0..8u32 {
        slow.write_all(&[b'1'; 4096])?;
    }
    for _turn in 0..100u32 {
        door.attend(0, false);
    }
    assert!(rt;
        !begins(&mut door, &mut slow, 11 * SECOND, b""),
        "it has more time"
    );
    assert!(rt;
        begins(
            &mut door,
            &mut slow,
            13 * SECOND,
            b"HTTP/1.1 408 Request Timeout\r\n"
        ),
        "it is too slow"
    );
    Ok(())
}

#[test]
fn a_foreign_page_is_refused(rt: HostRuntime) -> Result<(), Fail> {
    let (mut door, port) = opened(&rt, rt.alloc())?;
    let mut stream = client(
        &rt,
        port,
        b"GET /plan HTTP/1.1\r\nHost: example.org\r\n\r\n",
    )?;
    assert!(rt;
        begins(&mut door, &mut stream, 0, b"HTTP/1.1 403 Forbidden\r\n"),
        "refused"
    );
    assert!(rt; door.asked().is_none(), "nothing is asked");
    Ok(())
}

/// What is told whoever comes beyond the places.
const CROWDED: &[u8] =
    b"HTTP/1.1 503 Service Unavailable\r\ndate: Thu, 01 Jan 1970 00:00:00 GMT\r\ncontent-type: text/plain; charset=utf-8\r\ncache-control: no-store\r\nx-content-type-options: nosniff\r\ncross-origin-resource-policy: same-origin\r\ncontent-security-policy: default-src 'none'; script-src 'self'; style-src 'self'; img-src 'self'; connect-src 'self'; base-uri 'none'; form-action 'none'; frame-ancestors 'none'\r\nretry-after: 1\r\nconnection: close\r\ncontent-length: 21\r\n\r\ntoo many at the door\n";

/// So many clients who have come, and say nothing.
fn silent<H: Net<Listener = TcpListener, Stream = TcpStream>>(
    rt: &H,
    alloc: Global,
    door: &mut Door,
    port: u16,
    count: u32,
) -> Result<Vec<TcpStream>, Fail> {
    let mut clients = Vec::new(alloc);
    for _client in 0..count {
        clients.push(client(rt, port, b"")?)?;
    }
    for _turn in 0..100u32 {
        door.attend(0, false);
    }
    Ok(clients)
}

#[test]
fn whoever_comes_beyond_the_places_is_told_when_to_ask_again(rt: HostRuntime) -> Result<(), Fail> {
    let (mut door, port) = opened(&rt, rt.alloc())?;
    let _silent = silent(&rt, rt.alloc(), &mut door, port, 64)?;
    let sent = request(rt.alloc(), "/", port)?;
    let mut one = client(&rt, port, &sent)?;
    assert!(rt; begins(&mut door, &mut one, 0, CROWDED), "a page");
    let sent = request(rt.alloc(), "/plan", port)?;
    let mut two = client(&rt, port, &sent)?;
    assert!(rt; begins(&mut door, &mut two, 0, CROWDED), "a plan");
    assert!(rt; door.asked().is_none(), "nothing is asked");
    Ok(())
}

#[test]
fn a_monitor_is_answered_beyond_the_places(rt: HostRuntime) -> Result<(), Fail> {
    let (mut door, port) = opened(&rt, rt.alloc())?;
    let _silent = silent(&rt, rt.alloc(), &mut door, port, 64)?;
    let health = request(rt.alloc(), "/healthz", port)?;
    let _one = client(&rt, port, &health)?;
    assert!(rt; asks(&mut door, 0) == Some(Route::Health), "health");
    let figures = request(rt.alloc(), "/metrics", port)?;
    let _two = client(&rt, port, &figures)?;
    assert!(rt; asks(&mut door, 0) == Some(Route::Metrics), "figures");
    Ok(())
}

#[test]
fn customers_are_told_nothing_of_the_day(rt: HostRuntime) -> Result<(), Fail> {
    let (mut door, port, counter) = with_counter(&rt, rt.alloc())?;
    let plan = request(rt.alloc(), "/plan", counter)?;
    let mut one = client(&rt, counter, &plan)?;
    assert!(rt;
        begins(&mut door, &mut one, 0, b"HTTP/1.1 404 Not Found\r\n"),
        "the plan at the counter"
    );
    let quote = request(rt.alloc(), "/quote?start=1&end=2", counter)?;
    let _two = client(&rt, counter, &quote)?;
    assert!(rt;
        asks(&mut door, 0) == Some(Route::Quote),
        "a quote at the counter"
    );
    let plan = request(rt.alloc(), "/plan", port)?;
    let _three = client(&rt, port, &plan)?;
    assert!(rt;
        asks(&mut door, 0) == Some(Route::Plan),
        "the plan at the office"
    );
    Ok(())
}

#[test]
fn customers_leave_places_for_operators(rt: HostRuntime) -> Result<(), Fail> {
    let (mut door, port, counter) = with_counter(&rt, rt.alloc())?;
    let _silent = silent(&rt, rt.alloc(), &mut door, counter, 100)?;
    let plan = request(rt.alloc(), "/plan", port)?;
    let _one = client(&rt, port, &plan)?;
    assert!(rt;
        asks(&mut door, 0) == Some(Route::Plan),
        "an operator is let in"
    );
    let page = request(rt.alloc(), "/", counter)?;
    let mut last = client(&rt, counter, &page)?;
    assert!(rt;
        !begins(&mut door, &mut last, SECOND, b""),
        "a customer waits"
    );
    for _turn in 0..20u32 {
        door.attend(SECOND + 1, false);
    }
    assert!(rt;
        begins(&mut door, &mut last, 2 * SECOND + 2, b"HTTP/1.1 200 OK"),
        "the silent ones are sent away"
    );
    Ok(())
}

#[test]
fn a_hundred_silent_ones_hold_the_door_for_a_second(rt: HostRuntime) -> Result<(), Fail> {
    let (mut door, port) = opened(&rt, rt.alloc())?;
    let _silent = silent(&rt, rt.alloc(), &mut door, port, 100)?;
    let sent = request(rt.alloc(), "/", port)?;
    let mut last = client(&rt, port, &sent)?;
    for _turn in 0..20u32 {
        door.attend(SECOND, false);
    }
    assert!(rt; !begins(&mut door, &mut last, SECOND, b""), "it waits");
    assert!(rt;
        begins(&mut door, &mut last, SECOND + 1, b"HTTP/1.1 200 OK"),
        "they are sent away"
    );
    Ok(())
}

#[test]
fn who_says_nothing_stays_where_nobody_waits(rt: HostRuntime) -> Result<(), Fail> {
    let (mut door, port) = opened(&rt, rt.alloc())?;
    let mut one = client(&rt, port, b"")?;
    let _others = silent(&rt, rt.alloc(), &mut door, port, 63)?;
    assert!(rt; !begins(&mut door, &mut one, 9 * SECOND, b""), "it stays");
    assert!(rt;
        begins(&mut door, &mut one, 11 * SECOND, b""),
        "it is sent away"
    );
    Ok(())
}

#[test]
fn eight_long_bodies_are_kept_at_a_time(rt: HostRuntime) -> Result<(), Fail> {
    let (mut door, port) = opened(&rt, rt.alloc())?;
    let head = format!(in rt.alloc();
        "POST /bookings HTTP/1.1\r\nHost: localhost:{port}\r\nContent-Type: text/csv\r\nContent-Length: 4194304\r\nExpect: 100-continue\r\n\r\n"
    )?;
    let mut clients = Vec::new(rt.alloc());
    for _client in 0..8u32 {
        let mut stream = client(&rt, port, head.as_bytes())?;
        assert!(rt;
            begins(&mut door, &mut stream, 0, b"HTTP/1.1 100 Continue\r\n\r\n"),
            "wanted"
        );
        clients.push(stream)?;
    }
    let mut ninth = client(&rt, port, head.as_bytes())?;
    assert!(rt;
        begins(
            &mut door,
            &mut ninth,
            0,
            b"HTTP/1.1 503 Service Unavailable\r\n"
        ),
        "too many"
    );
    drop(clients.pop());
    let mut tenth = client(&rt, port, head.as_bytes())?;
    assert!(rt;
        begins(
            &mut door,
            &mut tenth,
            SECOND,
            b"HTTP/1.1 100 Continue\r\n\r\n"
        ),
        "one has left"
    );
    Ok(())
}

/// What who asks before the day begins is answered: the name of the case, the path, whether the other end was heard, how the answer begins, and
/// how it ends.
type Early = (&'static str, &'static str, bool, &'static str, &'static str);

static EARLY: [Early; 10] = [
    ("the page", "/", true, "HTTP/1.1 200 OK\r\n", "</html>\n"),
    (
        "health with a link",
        "/healthz",
        true,
        "HTTP/1.1 200 OK\r\n",
        "\r\n\r\nnot begun\nlink up\nlate seconds 0\nchannels in maintenance 0\n",
    ),
    (
        "health without one",
        "/healthz",
        false,
        "HTTP/1.1 200 OK\r\n",
        "\r\n\r\nnot begun\nlink none\nlate seconds 0\nchannels in maintenance 0\n",
    ),
    (
        "figures",
        "/metrics",
        true,
        "HTTP/1.1 200 OK\r\n",
        "\r\n\r\n# EOF\n",
    ),
    (
        "ready",
        "/ready",
        true,
        "HTTP/1.1 503 Service Unavailable\r\n",
        "\r\nretry-after: 7\r\ncontent-length: 22\r\n\r\nthe day has not begun\n",
    ),
    (
        "the plan",
        "/plan",
        true,
        "HTTP/1.1 503 Service Unavailable\r\n",
        "\r\nretry-after: 7\r\ncontent-length: 22\r\n\r\nthe day has not begun\n",
    ),
    (
        "a quote",
        "/quote?start=2026-01-05T00:00:10Z",
        true,
        "HTTP/1.1 503 Service Unavailable\r\n",
        "\r\nretry-after: 7\r\ncontent-length: 22\r\n\r\nthe day has not begun\n",
    ),
    (
        "the outcomes",
        "/outcomes",
        true,
        "HTTP/1.1 503 Service Unavailable\r\n",
        "\r\nretry-after: 7\r\ncontent-length: 22\r\n\r\nthe day has not begun\n",
    ),
    (
        "the records",
        "/records",
        true,
        "HTTP/1.1 503 Service Unavailable\r\n",
        "\r\nretry-after: 7\r\ncontent-length: 22\r\n\r\nthe day has not begun\n",
    ),
    (
        "the picture",
        "/chart.svg",
        true,
        "HTTP/1.1 503 Service Unavailable\r\n",
        "\r\nretry-after: 7\r\ncontent-length: 22\r\n\r\nthe day has not begun\n",
    ),
];

/// Attends the door until the client has something: whether what it has begins and ends so.
fn is_told(
    door: &mut Door,
    stream: &mut TcpStream,
    now: u128,
    is_heard: bool,
    ends: (&str, &str),
) -> bool {
    let mut room = [0u8; 8192];
    for _turn in 0..50u32 {
        door.attend(now, is_heard);
        match stream.read(&mut room) {
            Ok(count) if count <= 8192 => {
                let text = &room[..count];
                return text.starts_with(ends.0.as_bytes()) && text.ends_with(ends.1.as_bytes());
            }
            _ => {}
        }
    }
    false
}

#[test]
fn before_the_day_all_are_answered_at_once(rt: HostRuntime) -> Result<(), Fail> {
    let (mut door, port) = opened_until(&rt, rt.alloc(), 10 * SECOND)?;
    let mut figures = Vec::new(rt.alloc());
    figures.extend_from_slice(b"# EOF\n")?;
    door.keep_figures(Some(figures));
    for early in &EARLY {
        let sent = request(rt.alloc(), early.1, port)?;
        let mut stream = client(&rt, port, &sent)?;
        assert!(rt;
            is_told(
                &mut door,
                &mut stream,
                3 * SECOND + 1,
                early.2,
                (early.3, early.4)
            ),
            "{}",
            early.0
        );
        assert!(rt; door.asked().is_none(), "{} waits", early.0);
    }
    assert!(rt; door.answers() == 0, "none is of the day");
    Ok(())
}

#[test]
fn once_the_day_has_begun_a_request_waits(rt: HostRuntime) -> Result<(), Fail> {
    let (mut door, port) = opened_until(&rt, rt.alloc(), 10 * SECOND)?;
    let sent = request(rt.alloc(), "/plan", port)?;
    let _stream = client(&rt, port, &sent)?;
    assert!(rt; asks(&mut door, 10 * SECOND) == Some(Route::Plan), "asked");
    Ok(())
}

#[test]
fn figures_that_are_not_kept_are_put_off(rt: HostRuntime) -> Result<(), Fail> {
    let (mut door, port) = opened_until(&rt, rt.alloc(), 10 * SECOND)?;
    let sent = request(rt.alloc(), "/metrics", port)?;
    let mut stream = client(&rt, port, &sent)?;
    assert!(rt;
        is_told(
            &mut door,
            &mut stream,
            9 * SECOND + 1,
            false,
            (
                "HTTP/1.1 503 Service Unavailable\r\n",
                "\r\nretry-after: 1\r\ncontent-length: 22\r\n\r\nthe day has not begun\n"
            )
        ),
        "put off"
    );
    Ok(())
}

/// Attends the door until somebody asks: the number of who does.
fn who_asks(door: &mut Door) -> Option<u64> {
    for _turn in 0..1000u32 {
        door.attend(0, false);
        if let Some((number, _)) = door.asked() {
            return Some(number);
        }
    }
    None
}

#[test]
fn who_has_hung_up_is_no_customer(rt: HostRuntime) -> Result<(), Fail> {
    let (mut door, port) = opened(&rt, rt.alloc())?;
    let sent = request(rt.alloc(), "/plan", port)?;
    let one = client(&rt, port, &sent)?;
    assert!(rt; who_asks(&mut door) == Some(1), "it asks");
    assert!(rt;
        door.customer(1).map(|customer| customer.number()) == Some(1),
        "it is there"
    );
    drop(one);
    assert!(rt; door.customer(1).is_none(), "it is there no more");
    assert!(rt; door.client(1).is_none(), "it is sent away");
    assert!(rt; door.customer(1).is_none(), "nobody is there");
    Ok(())
}

#[test]
fn who_has_hung_up_at_a_path_is_no_customer(rt: HostRuntime) -> Result<(), Fail> {
    let path = format!(in rt.alloc(); "bx-hung-up.sock")?;
    let _ = remove_file(&rt, path.as_str());
    let listener = UnixListener::bind(&rt, path.as_str())?;
    listener.set_nonblocking(true)?;
    let office = Entrance {
        address: Address::Socket,
        listening: Listening::Path(listener),
    };
    let mut door = Door::new(rt.alloc(), office, None, 0);
    let mut one = UnixStream::connect(&rt, path.as_str())?;
    one.write_all(b"GET /plan HTTP/1.1\r\nHost: localhost\r\n\r\n")?;
    assert!(rt; who_asks(&mut door) == Some(1), "it asks");
    assert!(rt;
        door.customer(1).map(|customer| customer.number()) == Some(1),
        "it is there"
    );
    drop(one);
    assert!(rt; door.customer(1).is_none(), "it is there no more");
    let _ = remove_file(&rt, path.as_str());
    Ok(())
}
