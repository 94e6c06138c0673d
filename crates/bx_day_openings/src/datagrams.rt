//! What opens sockets for datagrams.

ghost use Rattle.std.specs.Prelude.{IfOk, OnOk};

use std::io;
use std::net::{Net, SocketAddrV4, UdpSocket};

/// A system with sockets for datagrams: each call is one of its own, and at which address it is asked stands in what is proved of those who
/// ask.
pub trait Datagrams {
    ghost use Rattle.std.specs.declared.net.socket_addr.SocketAddrV4.{SocketAddrV4};
    ghost use Rattle.std.specs.declared.net.udp.UdpSocket.{UdpSocket};

    /// It has given this socket for this address.
    ghost hears_at: { Self → SocketAddrV4 → UdpSocket → Type 0 };

    /// It has said that this socket speaks with this address alone.
    ghost speaks_with: { Self → SocketAddrV4 → UdpSocket → Type 0 };

    /// A socket there.
    fn hear_at(&self, place: SocketAddrV4) -> io::Result<UdpSocket>
        ensures { IfOk result (λ socket. hears_at self.now place socket) };

    /// Lets a socket speak with that address alone.
    fn speak_with(&self, place: SocketAddrV4, socket: &UdpSocket) -> io::Result<()>
        ensures { OnOk result (speaks_with self.now place socket.now) };
}

impl<H: Net> Datagrams for H {
    ghost hears_at = { λ system place socket. Unit {0} };

    ghost speaks_with = { λ system place socket. Unit {0} };

    fn hear_at(&self, place: SocketAddrV4) -> io::Result<UdpSocket> {
        UdpSocket::bind(self, place)
    }

    fn speak_with(&self, place: SocketAddrV4, socket: &UdpSocket) -> io::Result<()> {
        socket.connect(place)
    }
}
