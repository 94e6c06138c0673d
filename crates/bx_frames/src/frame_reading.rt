//! Reading the next frame.

ghost use Rattle.std.specs.Prelude.{◌≡◌, ◌≤◌, true, length, Some, IfOk};
ghost use Rattle.bx_frames.specs.Frames.{octet_in, octets_in, length_in, fits, frame_of, kind_in, frame_in};
ghost use Rattle.bx_frames.specs.Inside.{ComesAs};
ghost use Rattle.bx_frames.specs.Reading.{MayCome, Reads};

use crate::fault::LinkFault;
use crate::frame::{Frame, FrameKind, Receiver};
use crate::octet_reading::read_exact_octets;
use arrayvec::ArrayVec;
use bx_devices::Watched;
use bx_q931::{MAX_MESSAGE, Octets};
use std::io::Read;

/// Reads one octet.
fn read_octet<R: Read>(r: &mut Watched<R>) -> Result<u8, LinkFault>
    ensures { Reads R.remaining r.old r.new result octet_in }
{
    let mut buf = [0u8; 1];
    match read_exact_octets(r, &mut buf) {
        Ok(0) => Err(LinkFault::EndedInFrame),
        Ok(_) => Ok(buf[0]),
        Err(_) => Err(LinkFault::ReadFailed),
    }
}

/// Reads the length of a frame's contents.
fn read_length<R: Read>(r: &mut Watched<R>) -> Result<u16, LinkFault>
    ensures { Reads R.remaining r.old r.new result length_in }
{
    let high = read_octet(r)?;
    let low = read_octet(r)?;
    Ok(u16::from_be_bytes([high, low]))
}

/// Reads contents of so many octets.
fn read_octets<R: Read>(r: &mut Watched<R>, count: usize) -> Result<Octets, LinkFault>
    requires { count ≤ MAX_MESSAGE }
    ensures read { Reads R.remaining r.old r.new result (octets_in count) }
    ensures count { IfOk result (λ o. length o.items ≡ count) }
{
    let mut buf = [0u8; MAX_MESSAGE];
    let part = &mut buf[..count];
    match read_exact_octets(r, part) {
        Ok(n) if n < count => Err(LinkFault::EndedInFrame),
        Ok(_) => match ArrayVec::try_from(&buf[..count]) {
            Ok(octets) => Ok(octets),
            Err(_) => unreachable!(),
        },
        Err(_) => Err(LinkFault::ReadFailed),
    }
}

/// What contents of this kind carry.
fn carried(kind: FrameKind, octets: Octets) -> Frame
    requires { fits kind (length octets.items) ≡ true }
    ensures { result ≡ frame_of kind octets }
{
    match kind {
        FrameKind::Message => Frame::Message(octets),
        FrameKind::EndOfTurn => {
            let moment = [octets[0], octets[1], octets[2], octets[3]];
            Frame::EndOfTurn(u32::from_be_bytes(moment))
        }
        FrameKind::EndOfDay => Frame::EndOfDay,
    }
}

/// Reads what stands after the kind of a frame. So many messages may still come in this turn.
fn read_after_kind<R: Read>(
    r: &mut Watched<R>,
    kind: FrameKind,
    room: u32,
) -> Result<Frame, LinkFault>
    ensures read { Reads R.remaining r.old r.new result (kind_in (Some kind) room) }
    ensures comes { IfOk result (λ f. ComesAs kind room f) }
{
    let length = read_length(r)? as usize;
    if !kind.fits(length) {
        return Err(LinkFault::BadLength);
    }
    if kind == FrameKind::Message && room == 0 {
        return Err(LinkFault::MoreThan64Messages);
    }
    let octets = read_octets(r, length)?;
    Ok(carried(kind, octets))
}

/// Reads the next frame, and nothing after it. So many messages may still come in this turn. The first fault is answered as soon
/// as it is read: `UnknownKind`, which the kind's octet alone decides; `EndedInFrame` where the input ends before the frame does;
/// and `BadLength` and `MoreThan64Messages` before the contents are read. Where a read fails it is `ReadFailed`.
pub fn read_frame<R: Read>(
    r: &mut Watched<R>,
    receiver: Receiver,
    room: u32,
) -> Result<Frame, LinkFault>
    ensures read { Reads R.remaining r.old r.new result (frame_in receiver room) }
    ensures comes { IfOk result (λ f. MayCome receiver room f) }
{
    let octet = read_octet(r)?;
    match FrameKind::of(receiver, octet) {
        Some(kind) => read_after_kind(r, kind, room),
        None => Err(LinkFault::UnknownKind),
    }
}
