//! Sockets that never wait.

ghost use Rattle.std.specs.Prelude.{◌≡◌, ◌≤◌, ℕ, IfOk, length};
ghost use Rattle.bx_office_door.specs.Streams.{IsCome, octet_count};
ghost use Rattle.bx_office_door.specs.Unmets.{unmet_of};

use crate::listens::Listens;
use std::io;
use std::io::{ErrorKind, Read, Write};
use std::net::{Shutdown, TcpListener, TcpStream};
use std::os::fd::OwnedFd;
use std::os::unix::net::UnixListener;

/// What a socket has.
#[derive(Clone, Copy, Debug, PartialEq, Eq)]
pub enum Came {
    /// Nothing yet.
    Nothing,
    /// So many octets.
    Octets(usize),
    /// Nothing more: the other side has ended, or the socket failed.
    End,
}

/// The most octets that are read at once.
const ROOM: usize = 4096;

/// A connection that never waits, with what its last read and its last write came to. One at a path is held as one at a port is, which can look
/// at what is there without taking it.
#[derive(Drop)]
pub struct Stream {
    socket: TcpStream,
    /// What was read last stands at its start.
    room: [u8; 4096],
    /// How many octets these are.
    count: usize,
    came: Came,
    went: Came,
    ghost within: { count ≤ 4096 },
}

/// How many octets came, or went.
fn octet_count(came: Came) -> usize
    ensures { result ≡ octet_count came }
{
    match came {
        Came::Octets(count) => count,
        _ => 0,
    }
}

/// What a read or a write came to.
fn came_of(done: io::Result<usize>) -> Came
    ensures { (most : ℕ) → IfOk done (λ count. count ≤ most) → IsCome result most }
{
    match done {
        Ok(0) => Came::End,
        Ok(count) => Came::Octets(count),
        Err(fault) => match fault.kind() {
            ErrorKind::WouldBlock | ErrorKind::Interrupted => Came::Nothing,
            _ => Came::End,
        },
    }
}

impl Stream {
    ghost use Rattle.bx_office_door.specs.Received.{last_octets};

    /// A connection of which nothing was read yet, and to which nothing was written.
    fn new(socket: TcpStream) -> Stream {
        Stream {
            socket,
            room: [0; 4096],
            count: 0,
            came: Came::Nothing,
            went: Came::Nothing,
        }
    }

    /// Reads what is there, at most so many octets.
    pub fn receive(&mut self, most: usize) -> Came
        ensures came { result ≡ self.new.came }
        ensures counted { self.new.count ≡ octet_count result }
        ensures within { IsCome result most }
    {
        let most = most.min(ROOM);
        let room = &mut self.room[..];
        self.came = came_of(self.socket.read(&mut room[..most]));
        self.count = octet_count(self.came);
        self.came
    }

    /// The octets that were read last.
    pub fn octets(&self) -> &[u8]
        ensures { result.now ≡ last_octets self.now }
    {
        &self.room[..self.count]
    }

    /// Writes what there is room for.
    pub fn send(&mut self, octets: &[u8]) -> Came
        ensures went { result ≡ self.new.went }
        ensures within { IsCome result (length octets.now) }
    {
        self.went = came_of(self.socket.write(octets));
        self.went
    }

    /// Says that nothing more is written.
    pub fn shut(&self) {
        let _ = self.socket.shutdown(Shutdown::Write);
    }

    /// Whether the other side has closed its own, or the socket failed. Nothing is taken of what is there to be read.
    pub fn has_closed(&self) -> bool {
        let mut room = [0u8; 1];
        matches!(came_of(self.socket.peek(&mut room)), Came::End)
    }
}

/// The address of the loopback interface.
const LOOPBACK: [u8; 4] = [127, 0, 0, 1];

/// A listener that never waits.
#[derive(Drop)]
pub enum Listening {
    Port(TcpListener),
    Path(UnixListener),
}

/// Why no client was let in.
#[derive(Clone, Copy, Debug, PartialEq, Eq)]
pub enum Unmet {
    /// None waits, or the one that did is gone.
    Nobody,
    /// The process or the system has no file descriptor left for whoever waits. Linux says so where nobody waits too.
    NoDescriptor,
}

/// The process has no file descriptor left (`EMFILE` of Linux, accept(2)).
const NONE_OF_PROCESS: i32 = 24;

/// The system has none left (`ENFILE`).
const NONE_OF_SYSTEM: i32 = 23;

/// Why no client was let in where the system says this number.
fn unmet_of(fault: Option<i32>) -> Unmet
    ensures { result ≡ unmet_of fault }
{
    if fault == Some(NONE_OF_PROCESS) || fault == Some(NONE_OF_SYSTEM) {
        Unmet::NoDescriptor
    } else {
        Unmet::Nobody
    }
}

impl Listening {
    ghost use Rattle.bx_office_door.specs.Listening.{IsAtPort};

    /// Listens at a port of the loopback interface. The port 0 is one that the system chooses.
    pub fn at_port<H: Listens>(rt: &H, port: u16) -> io::Result<Listening>
        ensures { IfOk result (IsAtPort (H.listens rt.now) port) }
    {
        let listener = rt.listen(LOOPBACK, port)?;
        listener.set_nonblocking(true)?;
        Ok(Listening::Port(listener))
    }

    /// The next client, whose socket never waits.
    fn accepted(&self) -> io::Result<TcpStream> {
        match self {
            Listening::Port(listener) => {
                let (stream, _) = listener.accept()?;
                stream.set_nonblocking(true)?;
                Ok(stream)
            }
            Listening::Path(listener) => {
                let (stream, _) = listener.accept()?;
                stream.set_nonblocking(true)?;
                Ok(TcpStream::from(OwnedFd::from(stream)))
            }
        }
    }

    /// The next client, where one waits; else why there is none.
    pub fn accept(&self) -> Result<Stream, Unmet> {
        match self.accepted() {
            Ok(socket) => Ok(Stream::new(socket)),
            Err(fault) => Err(unmet_of(fault.raw_os_error())),
        }
    }
}
