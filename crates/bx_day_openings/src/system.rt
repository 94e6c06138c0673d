//! The system that a day runs on.

use std::fs::Files;
use std::net::{Net, TcpListener, TcpStream};
use std::rt::Clock;

/// A system with files, memory, a clock, standard error and sockets.
pub trait System: Files
    + AllocGlobal
    + Clock
    + Eprint
    + Net<Listener = TcpListener, Stream = TcpStream> {}

impl<
    H: Files + AllocGlobal + Clock + Eprint + Net<Listener = TcpListener, Stream = TcpStream>,
> System for H {}
