//! The octets of frames that are sent.

ghost use Rattle.std.specs.Prelude.{◌≡◌, ◌≤◌, ◌+◌, ◌∷◌, [], length};
ghost use Rattle.arrayvec.specs.ArrayVec.{array_vec_len};
ghost use Rattle.bx_lapd.specs.Codec.{bit_of, address, supervisory_octet, unnumbered_octet, is_command, frame_octets, sent_octets};

use crate::check_sequence::check_sequence;
use crate::frame::Frame;
use crate::words::{Supervisory, Unnumbered};
use arrayvec::ArrayVec;

/// The octets of a frame with its check sequence.
pub type FrameOctets = ArrayVec<u8, 266>;

fn bit(is_set: bool) -> u8
    ensures value { result ≡ bit_of is_set }
    ensures small { result ≤ 1 }
{
    if is_set { 1 } else { 0 }
}

/// The first octet of the address: the second is always 1.
fn first_octet(network: bool, command: bool) -> u8
    ensures { address network command ≡ result ∷ 1 ∷ [] }
{
    match (network, command) {
        (true, true) | (false, false) => 2,
        (true, false) | (false, true) => 0,
    }
}

fn octet_of_supervisory(kind: Supervisory) -> u8
    ensures { result ≡ supervisory_octet kind }
{
    match kind {
        Supervisory::ReceiveReady => 1,
        Supervisory::ReceiveNotReady => 5,
        Supervisory::Reject => 9,
    }
}

fn octet_of_unnumbered(kind: Unnumbered) -> u8
    ensures value { result ≡ unnumbered_octet kind }
    ensures small { result ≤ 0xAF }
{
    match kind {
        Unnumbered::Sabme => 0x6F,
        Unnumbered::Dm => 0x0F,
        Unnumbered::Ui => 0x03,
        Unnumbered::Disc => 0x43,
        Unnumbered::Ua => 0x63,
        Unnumbered::Frmr => 0x87,
        Unnumbered::Xid => 0xAF,
    }
}

fn is_sent_as_command(kind: Unnumbered) -> bool
    ensures { result ≡ is_command kind }
{
    match kind {
        Unnumbered::Sabme | Unnumbered::Disc | Unnumbered::Ui | Unnumbered::Xid => true,
        Unnumbered::Dm | Unnumbered::Ua | Unnumbered::Frmr => false,
    }
}

/// The octets of a frame without its check sequence.
fn unchecked_octets(network: bool, frame: &Frame) -> FrameOctets
    ensures octets { result.items ≡ frame_octets network frame.now }
    ensures few { array_vec_len result ≤ 264 }
{
    let mut octets = FrameOctets::new();
    match frame {
        Frame::Information {
            poll,
            sent,
            received,
            message,
        } => {
            octets.push(first_octet(network, true));
            octets.push(1);
            octets.push(2 * (*sent % 128));
            octets.push(2 * (*received % 128) + bit(*poll));
            match octets.try_extend_from_slice(message.as_slice()) {
                Ok(()) => octets,
                Err(_) => unreachable!(),
            }
        }
        Frame::Numbered {
            kind,
            command,
            poll,
            received,
        } => {
            octets.push(first_octet(network, *command));
            octets.push(1);
            octets.push(octet_of_supervisory(*kind));
            octets.push(2 * (*received % 128) + bit(*poll));
            octets
        }
        Frame::Plain { kind, poll } => {
            octets.push(first_octet(network, is_sent_as_command(*kind)));
            octets.push(1);
            octets.push(octet_of_unnumbered(*kind) + 16 * bit(*poll));
            octets
        }
    }
}

/// The octets of a frame that this side sends, the network or the user, with its check sequence.
pub fn write_frame(network: bool, frame: &Frame) -> FrameOctets
    ensures { result.items ≡ sent_octets network frame.now }
{
    let mut octets = unchecked_octets(network, frame);
    let check = check_sequence(octets.as_slice());
    octets.push((check % 256) as u8);
    octets.push((check / 256) as u8);
    octets
}
