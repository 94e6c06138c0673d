//! Packets, and the header of the file that they stand in.

ghost use Rattle.std.specs.Prelude.{◌≡◌, ◌≤◌, ◌+◌, ◌++◌, length};
ghost use Rattle.arrayvec.specs.ArrayVec.{array_vec_len};
ghost use Rattle.bx_text.specs.Writing.{Writes};
ghost use Rattle.bx_capture.specs.Packets.{file_header, direction_number, tags, packet};

use arrayvec::ArrayVec;
use bx_devices::{Watched, WriteFailed, write_octets};
use bx_q931::Octets;
use std::io::Write;

/// Which way a message went, as it is seen from the end that keeps the capture.
#[derive(Clone, Copy, Debug, PartialEq, Eq)]
pub enum Direction {
    /// The end sent it.
    Sent,
    /// The end received it.
    Received,
}

/// How many octets the tags of a packet have.
const TAGS: u32 = 20;

/// Writes what stands at the start of a capture file. `WriteFailed` where a write failed, or took nothing: then the writer is
/// faulted, and a prefix of it was written.
pub fn write_file_header<W: Write>(file: &mut Watched<W>) -> Result<(), WriteFailed>
    ensures { Writes W.contents file.old file.new result file_header }
{
    write_octets(
        file,
        &[
            0xA1, 0xB2, 0xC3, 0xD4, 0, 2, 0, 4, 0, 0, 0, 0, 0, 0, 0, 0, 0, 0, 0xFF, 0xFF, 0, 0, 0,
            252,
        ],
    )
}

/// The number of a direction.
fn number_of(direction: Direction) -> u8
    ensures { result ≡ direction_number direction }
{
    match direction {
        Direction::Sent => 0,
        Direction::Received => 1,
    }
}

/// What an exported PDU says of itself: the dissector that reads it, and its direction.
fn tags(direction: Direction) -> [u8; 20]
    ensures { result ≡ tags direction }
{
    let number = number_of(direction);
    [
        0, 12, 0, 4, b'q', b'9', b'3', b'1', 0, 35, 0, 4, 0, 0, 0, number, 0, 0, 0, 0,
    ]
}

/// Puts octets after those of a packet.
fn add(packet: &mut ArrayVec<u8, 296>, octets: &[u8])
    requires { array_vec_len packet.old + length octets.now ≤ 296 }
    ensures { packet.new.items ≡ packet.old.items ++ octets.now }
{
    match packet.try_extend_from_slice(octets) {
        Ok(()) => {}
        Err(_) => unreachable!(),
    }
}

/// The octets of a packet.
fn packet_octets(second: u32, direction: Direction, message: &Octets) -> ArrayVec<u8, 296>
    ensures { result.items ≡ packet second direction message.now.items }
{
    let octets = message.as_slice();
    let count = octets.len() as u32 + TAGS;
    let mut packet = ArrayVec::new();
    add(&mut packet, &second.to_be_bytes());
    add(&mut packet, &[0, 0, 0, 0]);
    add(&mut packet, &count.to_be_bytes());
    add(&mut packet, &count.to_be_bytes());
    add(&mut packet, &tags(direction));
    add(&mut packet, octets);
    packet
}

/// Writes the packet of a message at this second, in one write where the writer takes it whole. `WriteFailed` where a write
/// failed, or took nothing: then the writer is faulted, and a prefix of the packet was written.
pub fn write_packet<W: Write>(
    file: &mut Watched<W>,
    second: u32,
    direction: Direction,
    message: &Octets,
) -> Result<(), WriteFailed>
    ensures { Writes W.contents file.old file.new result (packet second direction message.now.items) }
{
    write_octets(file, &packet_octets(second, direction, message))
}
