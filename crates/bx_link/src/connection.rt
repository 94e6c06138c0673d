//! What an end reads from and writes to.

use bx_devices::Watched;
use std::io::{Read, Write};

/// An end of a connection.
#[derive(Drop)]
pub struct Connection<R: Read, W: Write> {
    pub reader: Watched<R>,
    pub writer: Watched<W>,
}
