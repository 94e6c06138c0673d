//! A wire over UDP: one frame a datagram, between two ends that are connected on one host.

ghost use Rattle.std.specs.Prelude.{◌≡◌};

use crate::wire::Wire;
use std::net::UdpSocket;
use std::rt::Clock;
use std::time::{Duration, SystemTime};

/// A connected socket, with the system's clock and its last reading.
#[derive(Drop)]
pub struct UdpWire<'a, H> {
    rt: &'a H,
    socket: UdpSocket,
    last: u128,
}

impl<'a, H> UdpWire<'a, H> {
    /// A wire over a socket that is connected.
    pub fn new(rt: &'a H, socket: UdpSocket) -> Self {
        UdpWire {
            rt,
            socket,
            last: 0,
        }
    }
}

impl<'a, H: Clock> Wire for UdpWire<'a, H> {
    ghost did = { λ s acts t. Unit {0} };

    /// A clock that cannot be read shows what it last showed.
    fn shown(&mut self) -> u128 {
        if let Ok(now) = SystemTime::now(self.rt)
            && let Ok(since) = now.duration_since(SystemTime::UNIX_EPOCH)
        {
            self.last = since.as_nanos();
        }
        self.last
    }

    fn send(&mut self, octets: &[u8]) {
        let _ = self.socket.send(octets);
    }

    fn receive(&mut self, room: &mut [u8], wait: u64) -> Option<usize> {
        let wait = Duration::from_nanos(wait.max(1_000));
        self.socket.set_read_timeout(Some(wait)).ok()?;
        self.socket.recv(room).ok()
    }

    ghost did_nothing = { λ s. tt };

    ghost did_more = { λ u v w xs ys p q. tt };
}
