//! Reading a message.

ghost use Rattle.std.specs.Prelude.{◌≡◌, ◌↔◌, ◌≤◌};
ghost use Rattle.bx_q931.specs.Grammar.{IsMessage, IsMessageFaultOf};
ghost use Rattle.bx_q931.specs.Messages.{PlainMessage, body_at, message_at};

use crate::fault::MessageFault;
use crate::items::are_items;
use crate::kind::Kind;
use crate::message::Message;
use crate::reference::Reference;

/// The most octets of a message.
pub const MAX_MESSAGE: usize = 260;

/// The protocol discriminator of Q.931 (4.2).
pub const DISCRIMINATOR: u8 = 8;

/// After the length of the reference: the reference, the type and the items.
fn body(rest: &[u8], len: usize) -> Result<Message<'_>, MessageFault>
    requires { len ≤ 2 }
    ensures { result ≡ body_at len rest.now }
{
    if rest.len() < len {
        return Err(MessageFault::TooShort);
    }
    let (reference, rest) = rest.split_at(len);
    let Some((kind, items)) = rest.split_first() else {
        return Err(MessageFault::TooShort);
    };
    if !are_items(items) {
        return Err(MessageFault::TornElement);
    }
    Ok(Message::of(Reference::of(reference), Kind::of(*kind), items))
}

/// In the order of the faults: the length, the discriminator, the reference, the type and the items.
fn message(octets: &[u8]) -> Result<Message<'_>, MessageFault>
    ensures { result ≡ message_at octets.now }
{
    if octets.len() > MAX_MESSAGE {
        return Err(MessageFault::TooLong);
    }
    let Some((first, rest)) = octets.split_first() else {
        return Err(MessageFault::TooShort);
    };
    if *first != DISCRIMINATOR {
        return Err(MessageFault::NotQ931);
    }
    let Some((len, rest)) = rest.split_first() else {
        return Err(MessageFault::TooShort);
    };
    if *len > 2 {
        return Err(MessageFault::BadCallReference);
    }
    body(rest, *len as usize)
}

/// Reads a message (ITU-T Q.931, clause 4). At a fault the first is answered, in this order: `TooLong`; `TooShort`
/// where there is no octet; `NotQ931`; `TooShort` where there is no length of the reference; `BadCallReference`;
/// `TooShort` where the reference and the type are not whole; `TornElement`.
pub fn read(octets: &[u8]) -> Result<Message<'_>, MessageFault>
    ensures exact { result ≡ message_at octets.now }
    ensures message { (m : PlainMessage) → (result ≡ Ok m) ↔ IsMessage octets.now m }
    ensures fault { (e : MessageFault) → (result ≡ Err e) ↔ IsMessageFaultOf octets.now e }
{
    message(octets)
}
