//! What opens a port.

ghost use Rattle.std.specs.Prelude.{ℕ, List, IfOk};

use std::io;
use std::net::{Ipv4Addr, Net, TcpListener, TcpStream};

/// A system that listens at ports.
pub trait Listens {
    ghost use Rattle.std.specs.declared.net.tcp.TcpListener.{TcpListener};

    /// It has given this listener for this port of the address of these octets.
    ghost listens: { Self → List ℕ → ℕ → TcpListener → Type 0 };

    /// Listens there. The port 0 is one that the system chooses.
    fn listen(&self, address: [u8; 4], port: u16) -> io::Result<TcpListener>
        ensures { IfOk result (λ listener. listens self.now address port listener) };
}

impl<H: Net<Listener = TcpListener, Stream = TcpStream>> Listens for H {
    ghost listens = { λ system address port listener. Unit {0} };

    fn listen(&self, address: [u8; 4], port: u16) -> io::Result<TcpListener> {
        TcpListener::bind(self, (Ipv4Addr::from(address), port))
    }
}
