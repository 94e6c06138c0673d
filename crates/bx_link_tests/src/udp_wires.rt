//! Two wires over UDP on this host, towards one another.

use bx_line_world::{UdpWire, Wire};
use std::alloc::{AllocError, Global};
use std::net::UdpSocket;
use std::test::Fail;
use std::time::{Duration, SystemTime};

/// Nanoseconds for a frame that was sent, and for one that nobody sent.
const LONG: u64 = 2_000_000_000;

const SHORT: u64 = 50_000_000;

/// Nanoseconds by which two readings of a clock may differ that come one right after the other.
const NEAR: u128 = 5_000_000_000;

/// A frame: its first octet, which no other one has, and how many there are. Each octet is three above that before it.
struct Frame {
    first: u8,
    length: u16,
}

/// The frames in the order in which they are sent. Those of a data link have 3 to 264 octets.
static FRAMES: [Frame; 7] = [
    Frame {
        first: 10,
        length: 3,
    },
    Frame {
        first: 20,
        length: 264,
    },
    Frame {
        first: 30,
        length: 4,
    },
    Frame {
        first: 40,
        length: 130,
    },
    Frame {
        first: 50,
        length: 5,
    },
    Frame {
        first: 60,
        length: 263,
    },
    Frame {
        first: 70,
        length: 3,
    },
];

impl Frame {
    fn octets(&self, alloc: Global) -> Result<Vec<u8>, AllocError> {
        let mut octets = Vec::new(alloc);
        let mut octet = self.first;
        for _ in 0..self.length {
            octets.push(octet)?;
            octet = octet.wrapping_add(3);
        }
        Ok(octets)
    }
}

/// Two sockets that are connected to one another.
fn sockets(rt: &HostRuntime) -> Result<(UdpSocket, UdpSocket), Fail> {
    let near = UdpSocket::bind(rt, "127.0.0.1:0")?;
    let distant = UdpSocket::bind(rt, "127.0.0.1:0")?;
    near.connect(distant.local_addr()?)?;
    distant.connect(near.local_addr()?)?;
    Ok((near, distant))
}

/// Sends all frames over one wire.
fn send_all<W: Wire>(alloc: Global, wire: &mut W) -> Result<(), AllocError> {
    for frame in &FRAMES {
        wire.send(&frame.octets(alloc)?);
    }
    Ok(())
}

/// The first octet of the first frame that the other wire does not give in its turn and whole.
fn first_lost<W: Wire>(alloc: Global, wire: &mut W) -> Result<Option<u8>, AllocError> {
    let mut room = [0; 300];
    for frame in &FRAMES {
        let octets = frame.octets(alloc)?;
        match wire.receive(&mut room, LONG) {
            Some(count) if room[..count] == octets[..] => (),
            _ => return Ok(Some(frame.first)),
        }
    }
    Ok(None)
}

/// Each frame comes whole, once and in its turn, both ways, and nothing after the last.
#[test]
fn frames_come_whole_and_once(rt: HostRuntime) -> Result<(), Fail> {
    let (near, distant) = sockets(&rt)?;
    let mut near = UdpWire::new(&rt, near);
    let mut distant = UdpWire::new(&rt, distant);
    let mut room = [0; 300];
    send_all(rt.alloc(), &mut near)?;
    assert_eq!(rt; first_lost(rt.alloc(), &mut distant)?, None);
    assert_eq!(rt; distant.receive(&mut room, SHORT), None);
    send_all(rt.alloc(), &mut distant)?;
    assert_eq!(rt; first_lost(rt.alloc(), &mut near)?, None);
    assert_eq!(rt; near.receive(&mut room, SHORT), None);
    Ok(())
}

/// Nanoseconds since 1970-01-01T00:00:00Z by the system's clock.
fn system_clock(rt: &HostRuntime) -> Option<u128> {
    let now = SystemTime::now(rt).ok()?;
    let since: Duration = now.duration_since(SystemTime::UNIX_EPOCH).ok()?;
    Some(since.as_nanos())
}

/// The clock beside a wire is the system's.
#[test]
fn the_clock_of_the_system(rt: HostRuntime) -> Result<(), Fail> {
    let (near, _distant) = sockets(&rt)?;
    let mut near = UdpWire::new(&rt, near);
    let shown = near.shown();
    let now = system_clock(&rt);
    let is_near = matches!(now, Some(now) if now.abs_diff(shown) < NEAR);
    assert!(rt; is_near, "{shown}");
    Ok(())
}
