//! A message that was read, and what it says.

ghost use Rattle.std.specs.Prelude.{◌≡◌, IsSome, option_map};
ghost use Rattle.std.specs.List.{flat_map};
ghost use Rattle.bx_q931.specs.Items.{all_items, items_in, item_octets};
ghost use Rattle.bx_q931.specs.Elements.{elements_of};
ghost use Rattle.bx_q931.specs.References.{IsReference};
ghost use Rattle.bx_q931.specs.Messages.{plain_message};
ghost use Rattle.bx_q931.specs.Values.{first_of, cause_of, state_of, called_of, channel_element_of};

use crate::channel_field::ChannelField;
use crate::elements::Elements;
use crate::kind::Kind;
use crate::reference::Reference;
use bx_channels::Number;
use std::marker::Model;

/// The identifier of a bearer capability (ITU-T Q.931, 4.5.5).
pub const BEARER_CAPABILITY: u8 = 0x04;
/// The identifier of a cause (4.5.12).
pub const CAUSE: u8 = 0x08;
/// The identifier of a call state (4.5.7).
pub const CALL_STATE: u8 = 0x14;
/// The identifier of a channel identification (4.5.13).
pub const CHANNEL_IDENTIFICATION: u8 = 0x18;
/// The identifier of a called party number (4.5.8).
pub const CALLED_PARTY_NUMBER: u8 = 0x70;
/// The one octet of sending complete (4.5.27).
pub const SENDING_COMPLETE: u8 = 0xA1;

/// A message, in the octets that it was read from.
#[derive(Drop)]
pub struct Message<'a> {
    reference: Reference,
    kind: Kind,
    items: &'a [u8],
}

impl<'a> Model for Message<'a> {
    ghost use Rattle.std.specs.Prelude.{IsSome};
    ghost use Rattle.bx_q931.specs.Items.{all_items, items_in};
    ghost use Rattle.bx_q931.specs.References.{IsReference};
    ghost use Rattle.bx_q931.specs.Messages.{PlainMessage, plain_message};

    ghost Value = { PlainMessage };

    ghost view = { λ m. plain_message m.reference m.kind (items_in m.items.now) };

    ghost invariant = { λ m. IsReference m.reference × IsSome (all_items m.items.now) };
}

impl<'a> Message<'a> {
    /// A message of these parts; the octets are whole items.
    pub(crate) fn of(reference: Reference, kind: Kind, items: &'a [u8]) -> Message<'a>
        requires limit { IsReference reference }
        requires whole { IsSome (all_items items.now) }
        ensures { result ≡ plain_message reference kind (items_in items.now) }
    {
        Message {
            reference,
            kind,
            items,
        }
    }

    /// The type of the message.
    pub fn kind(&self) -> Kind
        ensures { result ≡ self.now.kind }
    {
        self.kind
    }

    /// The call reference.
    pub fn reference(&self) -> Reference
        ensures value { result ≡ self.now.reference }
        ensures limit { IsReference result }
    {
        self.reference
    }

    /// The octets of its items, as they came.
    pub(crate) fn item_octets(&self) -> &'a [u8]
        ensures { result.now ≡ flat_map item_octets self.now.items }
    {
        self.items
    }

    /// The information elements in order, shifts not among them.
    pub fn elements(&self) -> Elements<'a>
        ensures { result ≡ elements_of self.now.items }
    {
        Elements::new(self.items)
    }

    /// The contents of the first element in codeset 0 with this identifier.
    pub fn first(&self, id: u8) -> Option<&'a [u8]>
        ensures { option_map (λ contents. contents.now) result ≡ first_of id self.now }
    {
        for element in self.elements() {
            if element.codeset == 0 && element.id == id {
                return Some(element.contents);
            }
        }
        None
    }

    /// What the message says of a channel (ITU-T Q.931, 4.5.13).
    pub fn channel(&self) -> ChannelField
        ensures { result ≡ channel_element_of self.now }
    {
        match self.first(CHANNEL_IDENTIFICATION) {
            Some(contents) => ChannelField::of(contents),
            None => ChannelField::Absent,
        }
    }

    /// The cause, below 128 (4.5.12); none where there is no cause or it has too few octets.
    pub fn cause(&self) -> Option<u8>
        ensures { result ≡ cause_of self.now }
    {
        match self.first(CAUSE)? {
            [location, value, ..] if *location >= 0x80 => Some(*value & 0x7F),
            [location, _, value, ..] if *location < 0x80 => Some(*value & 0x7F),
            _ => None,
        }
    }

    /// The call state, below 64 (4.5.7); none where there is no call state or it is empty.
    pub fn state(&self) -> Option<u8>
        ensures { result ≡ state_of self.now }
    {
        let state = self.first(CALL_STATE)?.first()?;
        Some(*state & 0x3F)
    }

    /// The called party number (4.5.8); none where there is none or it is not 1 to 15 digits.
    pub fn called(&self) -> Option<Number>
        ensures { result ≡ called_of self.now }
    {
        let (_, digits) = self.first(CALLED_PARTY_NUMBER)?.split_first()?;
        Number::new(digits)
    }
}
