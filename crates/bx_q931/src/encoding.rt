//! The octets of a message that is sent.

ghost use Rattle.std.specs.Prelude.{◌≡◌, ◌+◌, ◌≤◌, ◌<◌, length, ◌++◌, [], if◌then◌else◌, option_map, IfSome};
ghost use Rattle.arrayvec.specs.ArrayVec.{array_vec_len};
ghost use Rattle.bx_channels.specs.ChannelNumbers.{IsChannel};
ghost use Rattle.bx_channels.specs.Numbers.{IsNumber};
ghost use Rattle.bx_q931.specs.Messages.{message_at};
ghost use Rattle.bx_q931.specs.Outgoing.{header_octets, bearer_contents, cause_contents, state_contents, channel_contents, called_contents, out_octets, message_of};
ghost use Rattle.bx_q931.specs.Inside.{optional_octets};
ghost use Rattle.bx_q931.specs.Parts.{HasParts};

use crate::kind::Kind;
use crate::message::{
    BEARER_CAPABILITY, CALL_STATE, CALLED_PARTY_NUMBER, CAUSE, CHANNEL_IDENTIFICATION,
    SENDING_COMPLETE,
};
use crate::out::Out;
use crate::reading::{DISCRIMINATOR, MAX_MESSAGE};
use arrayvec::ArrayVec;
use bx_channels::{Channel, Number};

/// The octets of a message, without memory of their own.
pub type Octets = ArrayVec<u8, MAX_MESSAGE>;

/// A message again.
pub fn copied(message: &Octets) -> Octets
    ensures { result ≡ message.now }
{
    let mut copy = Octets::new();
    match copy.try_extend_from_slice(message.as_slice()) {
        Ok(()) => copy,
        Err(_) => unreachable!(),
    }
}

pub(crate) fn push_all(octets: &mut Octets, more: &[u8])
    requires { array_vec_len octets.old + length more.now ≤ MAX_MESSAGE }
    ensures { octets.new.items ≡ octets.old.items ++ more.now }
{
    for octet in more {
        octets.push(*octet);
    }
}

pub(crate) fn push_header(octets: &mut Octets, reference: u16, flag: bool, kind: Kind)
    requires room { array_vec_len octets.old + 5 ≤ MAX_MESSAGE }
    requires limit { reference ≤ 32767 }
    ensures { octets.new.items ≡ octets.old.items ++ header_octets reference flag kind }
{
    let [high, low] = reference.to_be_bytes();
    let flag_bit = if flag { 0x80 } else { 0 };
    push_all(
        octets,
        &[DISCRIMINATOR, 2, flag_bit + high, low, kind.octet()],
    );
}

fn push_sending_complete(octets: &mut Octets, there: bool)
    requires { array_vec_len octets.old + 1 ≤ MAX_MESSAGE }
    ensures items { octets.new.items ≡ octets.old.items ++ optional_octets 0xA1 (if there then Some [] else None) }
    ensures len { array_vec_len octets.new ≤ array_vec_len octets.old + 1 }
{
    if there {
        octets.push(SENDING_COMPLETE);
    }
}

fn push_bearer(octets: &mut Octets, there: bool)
    requires { array_vec_len octets.old + 4 ≤ MAX_MESSAGE }
    ensures items { octets.new.items ≡ octets.old.items ++ optional_octets 0x04 (if there then Some bearer_contents else None) }
    ensures len { array_vec_len octets.new ≤ array_vec_len octets.old + 4 }
{
    if there {
        push_all(octets, &[BEARER_CAPABILITY, 2, 0x88, 0x90]);
    }
}

fn push_cause(octets: &mut Octets, cause: Option<(u8, u8)>)
    requires room { array_vec_len octets.old + 4 ≤ MAX_MESSAGE }
    requires limits { IfSome cause (λ c. (c.0 < 16) × (c.1 < 128)) }
    ensures items { octets.new.items ≡ octets.old.items ++ optional_octets 0x08 (option_map cause_contents cause) }
    ensures len { array_vec_len octets.new ≤ array_vec_len octets.old + 4 }
{
    if let Some((location, value)) = cause {
        push_all(octets, &[CAUSE, 2, 0x80 + location, 0x80 + value]);
    }
}

fn push_state(octets: &mut Octets, state: Option<u8>)
    requires { array_vec_len octets.old + 3 ≤ MAX_MESSAGE }
    ensures items { octets.new.items ≡ octets.old.items ++ optional_octets 0x14 (option_map state_contents state) }
    ensures len { array_vec_len octets.new ≤ array_vec_len octets.old + 3 }
{
    if let Some(state) = state {
        push_all(octets, &[CALL_STATE, 1, state]);
    }
}

fn push_channel(octets: &mut Octets, channel: Option<(Channel, bool)>)
    requires { array_vec_len octets.old + 5 ≤ MAX_MESSAGE }
    ensures items { octets.new.items ≡ octets.old.items ++ optional_octets 0x18 (option_map channel_contents channel) }
    ensures len { array_vec_len octets.new ≤ array_vec_len octets.old + 5 }
    ensures channel { IfSome channel (λ c. IsChannel c.0) }
{
    if let Some((channel, exclusive)) = channel {
        let form = if exclusive { 0xA9 } else { 0xA1 };
        let number = channel.number();
        push_all(
            octets,
            &[CHANNEL_IDENTIFICATION, 3, form, 0x83, 0x80 + number],
        );
    }
}

fn push_called(octets: &mut Octets, called: Option<Number>)
    requires { array_vec_len octets.old + 18 ≤ MAX_MESSAGE }
    ensures items { octets.new.items ≡ octets.old.items ++ optional_octets 0x70 (option_map called_contents called) }
    ensures called { IfSome called IsNumber }
{
    if let Some(number) = called {
        let digits = number.digits();
        let len = digits.len() as u8 + 1;
        push_all(octets, &[CALLED_PARTY_NUMBER, len, 0x81]);
        push_all(octets, digits);
    }
}

/// The octets of a message (ITU-T Q.931, clause 4): at most 40, sending complete first and then the
/// other elements in rising order of their identifiers.
pub fn encode(out: &Out) -> Octets
    ensures octets { result.items ≡ out_octets out.now }
    ensures limit { array_vec_len result ≤ 40 }
    ensures read { message_at result.items ≡ Ok (message_of out.now) }
    ensures parts { HasParts (message_of out.now) out.now }
{
    let mut octets = Octets::new();
    push_header(&mut octets, out.reference, out.flag, out.kind);
    push_sending_complete(&mut octets, out.sending_complete);
    push_bearer(&mut octets, out.bearer);
    push_cause(&mut octets, out.cause);
    push_state(&mut octets, out.state);
    push_channel(&mut octets, out.channel);
    push_called(&mut octets, out.called);
    octets
}
