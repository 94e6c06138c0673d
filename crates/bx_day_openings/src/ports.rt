//! What opens ports, and connects to them.

ghost use Rattle.std.specs.Prelude.{IfOk};

use std::io;
use std::net::{Net, SocketAddrV4, TcpListener, TcpStream};

/// A system that listens at ports, and connects to them: each call is one of its own, and at which address it is asked stands in what is
/// proved of those who ask.
pub trait Ports {
    ghost use Rattle.std.specs.declared.net.socket_addr.SocketAddrV4.{SocketAddrV4};
    ghost use Rattle.std.specs.declared.net.tcp.TcpListener.{TcpListener};
    ghost use Rattle.std.specs.declared.net.tcp.TcpStream.{TcpStream};

    /// It has given this listener for this address.
    ghost listens_at: { Self → SocketAddrV4 → TcpListener → Type 0 };

    /// It has given this connection for a peer of this listener.
    ghost lets_in: { Self → TcpListener → TcpStream → Type 0 };

    /// It has given this connection to this address.
    ghost reaches: { Self → SocketAddrV4 → TcpStream → Type 0 };

    /// Listens there. The port 0 is one that the system chooses.
    fn listen_at(&self, place: SocketAddrV4) -> io::Result<TcpListener>
        ensures { IfOk result (λ listener. listens_at self.now place listener) };

    /// The next peer that connects. Waits for it.
    fn let_in(&self, listener: &TcpListener) -> io::Result<TcpStream>
        ensures { IfOk result (λ stream. lets_in self.now listener.now stream) };

    /// Connects there.
    fn reach(&self, place: SocketAddrV4) -> io::Result<TcpStream>
        ensures { IfOk result (λ stream. reaches self.now place stream) };
}

impl<H: Net<Listener = TcpListener, Stream = TcpStream>> Ports for H {
    ghost listens_at = { λ system place listener. Unit {0} };

    ghost lets_in = { λ system listener stream. Unit {0} };

    ghost reaches = { λ system place stream. Unit {0} };

    fn listen_at(&self, place: SocketAddrV4) -> io::Result<TcpListener> {
        TcpListener::bind(self, place)
    }

    fn let_in(&self, listener: &TcpListener) -> io::Result<TcpStream> {
        let (stream, _) = listener.accept()?;
        Ok(stream)
    }

    fn reach(&self, place: SocketAddrV4) -> io::Result<TcpStream> {
        TcpStream::connect(self, place)
    }
}
