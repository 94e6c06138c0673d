//! What opens Unix sockets, and connects to them.

ghost use Rattle.std.specs.Prelude.{ℕ, List, IfOk, IsTrue};

use std::fs::Files;
use std::net::Net;
use std::os::unix::fs::FileTypeExt;
use std::os::unix::net::{UnixListener, UnixStream};
use std::{fs, io};

/// A system that listens on Unix sockets, and connects to them: each call is one of its own. The file of a path is removed by one that
/// may be asked only where it was said that this is the file of a socket, and that nobody listens there.
pub trait Paths {
    ghost use Rattle.std.specs.declared.net.unix.UnixListener.{UnixListener};
    ghost use Rattle.std.specs.declared.net.unix.UnixStream.{UnixStream};

    /// It has given this listener for the socket of this path.
    ghost listens_on: { Self → List ℕ → UnixListener → Type 0 };

    /// It has given this connection for a peer of this listener.
    ghost lets_in_on: { Self → UnixListener → UnixStream → Type 0 };

    /// It has given this connection to the socket of this path.
    ghost reaches_on: { Self → List ℕ → UnixStream → Type 0 };

    /// It has said that the file of this path is that of a socket.
    ghost has_socket: { Self → List ℕ → Type 0 };

    /// It has said that nobody listens there.
    ghost is_left: { Self → List ℕ → Type 0 };

    /// Listens there.
    fn listen_on(&self, path: &str) -> io::Result<UnixListener>
        ensures { IfOk result (λ listener. listens_on self.now path.now listener) };

    /// The next peer that connects. Waits for it.
    fn let_in_on(&self, listener: &UnixListener) -> io::Result<UnixStream>
        ensures { IfOk result (λ stream. lets_in_on self.now listener.now stream) };

    /// Connects there.
    fn reach_on(&self, path: &str) -> io::Result<UnixStream>
        ensures { IfOk result (λ stream. reaches_on self.now path.now stream) };

    /// Whether the file of this path is that of a socket.
    fn has_socket(&self, path: &str) -> io::Result<bool>
        ensures { IfOk result (λ told. IsTrue told → has_socket self.now path.now) };

    /// Whether nobody listens there.
    fn is_left(&self, path: &str) -> bool
        ensures { IsTrue result → is_left self.now path.now };

    /// Removes the file of a socket on which nobody listens.
    fn remove_socket(&self, path: &str) -> io::Result<()>
        requires socket { has_socket self.now path.now }
        requires left { is_left self.now path.now };
}

impl<H: Files + Net> Paths for H {
    ghost listens_on = { λ system path listener. Unit {0} };

    ghost lets_in_on = { λ system listener stream. Unit {0} };

    ghost reaches_on = { λ system path stream. Unit {0} };

    ghost has_socket = { λ system path. Unit {0} };

    ghost is_left = { λ system path. Unit {0} };

    fn listen_on(&self, path: &str) -> io::Result<UnixListener> {
        UnixListener::bind(self, path)
    }

    fn let_in_on(&self, listener: &UnixListener) -> io::Result<UnixStream> {
        let (stream, _) = listener.accept()?;
        Ok(stream)
    }

    fn reach_on(&self, path: &str) -> io::Result<UnixStream> {
        UnixStream::connect(self, path)
    }

    fn has_socket(&self, path: &str) -> io::Result<bool> {
        Ok(fs::symlink_metadata(self, path)?.file_type().is_socket())
    }

    fn is_left(&self, path: &str) -> bool {
        UnixStream::connect(self, path).is_err()
    }

    fn remove_socket(&self, path: &str) -> io::Result<()> {
        fs::remove_file(self, path)
    }
}
