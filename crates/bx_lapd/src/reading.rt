//! Octets that come, read as frames.

ghost use Rattle.bx_lapd.specs.Bounds.{IsFrame};
ghost use Rattle.std.specs.Prelude.{IfOk, ◌≡◌, ◌≤◌, ◌<◌, length};
ghost use Rattle.bx_lapd.specs.Codec.{supervisory_of, unnumbered_of, may_be, fault_of_length, read_kind, read_information, read_supervisory, read_sequenced, read_control, read_body, is_checked, read_octets};

use crate::check_sequence::check_sequence;
use crate::frame::Frame;
use crate::refusal::{Invalid, Refusal};
use crate::words::{ErrorCode, Supervisory, Unnumbered};
use arrayvec::ArrayVec;
use bx_q931::MAX_MESSAGE;

fn supervisory(octet: u8) -> Option<Supervisory>
    ensures { result ≡ supervisory_of octet }
{
    match octet {
        1 => Some(Supervisory::ReceiveReady),
        5 => Some(Supervisory::ReceiveNotReady),
        9 => Some(Supervisory::Reject),
        _ => None,
    }
}

fn unnumbered(octet: u8) -> Option<Unnumbered>
    ensures { result ≡ unnumbered_of octet }
{
    match octet {
        0x6F => Some(Unnumbered::Sabme),
        0x0F => Some(Unnumbered::Dm),
        0x03 => Some(Unnumbered::Ui),
        0x43 => Some(Unnumbered::Disc),
        0x63 => Some(Unnumbered::Ua),
        0x87 => Some(Unnumbered::Frmr),
        0xAF => Some(Unnumbered::Xid),
        _ => None,
    }
}

/// Whether it may come as a command, or as a response.
fn may_come(kind: Unnumbered, command: bool) -> bool
    ensures { result ≡ may_be kind command }
{
    match kind {
        Unnumbered::Sabme | Unnumbered::Disc | Unnumbered::Ui => command,
        Unnumbered::Xid => true,
        Unnumbered::Dm | Unnumbered::Ua | Unnumbered::Frmr => !command,
    }
}

/// What an information field of so many octets is refused for.
fn length_fault(kind: Unnumbered, length: usize) -> Option<ErrorCode>
    ensures { result ≡ fault_of_length kind length }
{
    match kind {
        Unnumbered::Ui | Unnumbered::Xid if length > MAX_MESSAGE => Some(ErrorCode::TooLong),
        Unnumbered::Ui | Unnumbered::Xid => None,
        Unnumbered::Frmr if length == 5 => None,
        Unnumbered::Frmr => Some(ErrorCode::WrongSize),
        _ if length == 0 => None,
        _ => Some(ErrorCode::UnexpectedInformation),
    }
}

fn read_unnumbered(octet: u8, command: bool, poll: bool, length: usize) -> Result<Frame, Refusal>
    ensures read { result ≡ read_kind (unnumbered_of octet) command poll length }
    ensures within { IfOk result IsFrame }
{
    let Some(kind) = unnumbered(octet) else {
        return Err(Refusal::Faulty(ErrorCode::UnknownControl));
    };
    if !may_come(kind, command) {
        return Err(Refusal::Faulty(ErrorCode::UnknownControl));
    }
    match length_fault(kind, length) {
        Some(code) => Err(Refusal::Faulty(code)),
        None => Ok(Frame::Plain { kind, poll }),
    }
}

fn read_message(
    command: bool,
    poll: bool,
    sent: u8,
    received: u8,
    info: &[u8],
) -> Result<Frame, Refusal>
    requires sent { sent < 128 }
    requires received { received < 128 }
    ensures read { result ≡ read_information command poll sent received info.now }
    ensures within { IfOk result IsFrame }
{
    if !command {
        return Err(Refusal::Faulty(ErrorCode::UnknownControl));
    }
    if info.len() > MAX_MESSAGE {
        return Err(Refusal::Faulty(ErrorCode::TooLong));
    }
    match ArrayVec::try_from(info) {
        Ok(message) => Ok(Frame::Information {
            poll,
            sent,
            received,
            message,
        }),
        Err(_) => unreachable!(),
    }
}

fn read_number(
    octet: u8,
    command: bool,
    poll: bool,
    received: u8,
    length: usize,
) -> Result<Frame, Refusal>
    requires { received < 128 }
    ensures read { result ≡ read_supervisory (supervisory_of octet) command poll received length }
    ensures within { IfOk result IsFrame }
{
    let Some(kind) = supervisory(octet) else {
        return Err(Refusal::Faulty(ErrorCode::UnknownControl));
    };
    if length > 0 {
        return Err(Refusal::Faulty(ErrorCode::UnexpectedInformation));
    }
    Ok(Frame::Numbered {
        kind,
        command,
        poll,
        received,
    })
}

/// After the address.
fn read_control(command: bool, control: u8, rest: &[u8]) -> Result<Frame, Refusal>
    ensures read { result ≡ read_control command control rest.now }
    ensures within { IfOk result IsFrame }
{
    if control % 4 == 3 {
        let poll = control / 16 % 2 == 1;
        return read_unnumbered(control & 0xEF, command, poll, rest.len());
    }
    let Some((second, info)) = rest.split_first() else {
        return Err(Refusal::Dropped(Invalid::Short));
    };
    let poll = *second % 2 == 1;
    let received = *second / 2;
    if control % 2 == 0 {
        read_message(command, poll, control / 2, received, info)
    } else {
        read_number(control, command, poll, received, info.len())
    }
}

/// A frame without its check sequence.
fn read_body(network: bool, body: &[u8]) -> Result<Frame, Refusal>
    ensures read { result ≡ read_body network body.now }
    ensures within { IfOk result IsFrame }
{
    let [first, second, control, rest @ ..] = body else {
        return Err(Refusal::Dropped(Invalid::Short));
    };
    if *first % 2 == 1 || *second % 2 == 0 {
        return Err(Refusal::Dropped(Invalid::Address));
    }
    if *first / 4 != 0 || *second / 2 != 0 {
        return Err(Refusal::Dropped(Invalid::OtherLink));
    }
    let from_network_bit = if *first == 2 { network } else { !network };
    read_control(!from_network_bit, *control, rest)
}

/// Reads the octets that came to this side, the network or the user, as a frame of the link.
pub fn read_frame(network: bool, octets: &[u8]) -> Result<Frame, Refusal>
    ensures read { result ≡ read_octets network octets.now }
    ensures within { IfOk result IsFrame }
{
    if octets.len() < 5 {
        return Err(Refusal::Dropped(Invalid::Short));
    }
    let (body, check) = octets.split_at(octets.len() - 2);
    let [low, high] = check else {
        return Err(Refusal::Dropped(Invalid::Short));
    };
    if u16::from(*low) + 256 * u16::from(*high) != check_sequence(body) {
        return Err(Refusal::Dropped(Invalid::Check));
    }
    read_body(network, body)
}
