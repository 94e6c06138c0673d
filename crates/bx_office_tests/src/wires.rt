//! How long a wire with a door beside it waits at once.

use bx_line_world::Wire;
use bx_office::Address;
use bx_office_door::{Door, Entrance, Listening, OfficeWire, SharedDoor};
use std::alloc::Global;
use std::net::{Net, TcpListener, TcpStream};
use std::test::Fail;

/// A wire on which nothing comes, and which keeps how long it was waited for last.
#[derive(Drop)]
struct QuietWire {
    waited: u64,
}

impl Wire for QuietWire {
    ghost did = { λ s acts t. Unit {0} };

    fn shown(&mut self) -> u128 {
        0
    }

    fn send(&mut self, _octets: &[u8]) {}

    fn receive(&mut self, _room: &mut [u8], wait: u64) -> Option<usize> {
        self.waited = wait;
        None
    }

    ghost did_nothing = { λ s. tt };

    ghost did_more = { λ s t u xs ys p q. tt };
}

/// A wait: its name, how long a frame is waited for, and how long at once, in nanoseconds.
type Wait = (&'static str, u64, u64);

static WAITS: [Wait; 6] = [
    ("none", 0, 0),
    ("the least", 50_000, 50_000),
    ("a slice", 10_000_000, 10_000_000),
    ("two slices", 20_000_000, 20_000_000),
    ("more than two", 20_000_001, 10_000_000),
    ("a second", 1_000_000_000, 10_000_000),
];

/// A wire with a door beside it, at a port that the system has chosen.
fn beside<H: Net<Listener = TcpListener, Stream = TcpStream>>(
    rt: &H,
    alloc: Global,
) -> Result<OfficeWire<QuietWire, SharedDoor>, Fail> {
    let listening = Listening::at_port(rt, 0)?;
    let address = Address::Port(0);
    let door = Door::new(alloc, Entrance { address, listening }, None, 0);
    let shared = SharedDoor::new(alloc, door)?;
    Ok(OfficeWire::new(QuietWire { waited: 0 }, shared))
}

/// How long is waited at once of such a wait.
fn waited(wire: &mut OfficeWire<QuietWire, SharedDoor>, wait: u64) -> u64 {
    let mut room = [0u8; 16];
    let _none = wire.receive(&mut room, wait);
    wire.wire.waited
}

#[test]
fn one_slice_is_waited_at_once(rt: HostRuntime) -> Result<(), Fail> {
    let mut wire = beside(&rt, rt.alloc())?;
    for wait in &WAITS {
        assert!(rt; waited(&mut wire, wait.1) == wait.2, "{}", wait.0);
    }
    Ok(())
}
